// The head of a request (RFC 9112, section 3).

ghost use Rattle.admin.specs.Requests.{IsAsked, IsHeadOf};

use httparse::Status;
use httparse::spans::{EMPTY_HEADER_SPAN, RequestSpans, parse_request};
use std::str;

/// How many fields the head of a request has at most.
pub const MAX_FIELDS: usize = 64;

// What bytes ask.
#[derive(Clone, Copy)]
pub(crate) enum Asked<'a> {
    // Their head may still be completed.
    Incomplete,
    // Whatever follows, they have no head with at most 64 fields.
    Malformed,
    // Their head has another method than GET.
    OtherMethod,
    // Their head asks for this target by GET.
    Get(&'a str),
}

// Returns what bytes ask.
pub(crate) fn asks(request: &[u8]) -> Asked<'_>
    ensures { IsAsked request.now result }
{
    let mut fields = [EMPTY_HEADER_SPAN; MAX_FIELDS];
    match parse_request(request, &mut fields) {
        Ok(Status::Complete(head)) => asked_by(request, head),
        Ok(Status::Partial) => Asked::Incomplete,
        Err(_) => Asked::Malformed,
    }
}

// Returns what bytes with this head ask.
fn asked_by(request: &[u8], head: RequestSpans) -> Asked<'_>
    requires { IsHeadOf request.now head }
    ensures { IsAsked request.now result }
{
    if head.method.of(request) != b"GET".as_slice() {
        return Asked::OtherMethod;
    }
    match str::from_utf8(head.path.of(request)) {
        Ok(target) => Asked::Get(target),
        Err(_) => Asked::Malformed,
    }
}
