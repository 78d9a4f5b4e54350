// The answer to a request (RFC 9112, section 4).

ghost use Rattle.std.specs.Prelude.{◌≡◌, IfOk, string_bytes};
ghost use Rattle.admin.specs.Answers.{allow_of, answer_bytes, body_of, head_text, kind_of, status_of};
ghost use Rattle.admin.specs.declared.wanted.Wanted.{Wanted};
ghost use Rattle.admin.specs.Requests.{IsWanted};

use crate::bodies::{connections_body, metrics_body, plain_body, sessions_body, status_body};
use crate::view::AdminView;
use crate::wanted::{Wanted, wants};
use http::StatusCode;
use std::alloc::{AllocError, Global};

/// Returns the whole answer to a request: its status, its head, and its body. Fails only if memory
/// runs out.
pub fn answer(alloc: Global, view: &AdminView, request: &[u8]) -> Result<Vec<u8>, AllocError>
    ensures { IfOk result (λ bytes. (wanted : Wanted) × IsWanted request.now wanted
        × (bytes.items ≡ answer_bytes view.now wanted)) }
{
    let wanted = wants(alloc, request)?;
    answer_to(alloc, view, &wanted)
}

// Returns the answer to who wants this.
fn answer_to(alloc: Global, view: &AdminView, wanted: &Wanted) -> Result<Vec<u8>, AllocError>
    ensures { IfOk result (λ bytes. bytes.items ≡ answer_bytes view.now wanted.now) }
{
    let status = status_of(view, wanted);
    let body = body_of(alloc, view, wanted, status)?;
    let head = head_of(alloc, view, wanted, status, body.len())?;
    let mut bytes = head.into_bytes();
    bytes.extend_from_slice(&body)?;
    Ok(bytes)
}

// Returns the status.
fn status_of(view: &AdminView, wanted: &Wanted) -> StatusCode
    ensures { result ≡ status_of view.now wanted.now }
{
    match wanted {
        Wanted::TooLarge => StatusCode::PAYLOAD_TOO_LARGE,
        Wanted::Malformed => StatusCode::BAD_REQUEST,
        Wanted::OtherMethod => StatusCode::METHOD_NOT_ALLOWED,
        Wanted::NoPage => StatusCode::NOT_FOUND,
        Wanted::Health if view.primary_held().is_none() => StatusCode::SERVICE_UNAVAILABLE,
        Wanted::Sessions(_) | Wanted::Connections if view.details.is_none() => {
            StatusCode::SERVICE_UNAVAILABLE
        }
        _ => StatusCode::OK,
    }
}

// Returns the head of an answer whose body has so many bytes.
fn head_of(
    alloc: Global,
    view: &AdminView,
    wanted: &Wanted,
    status: StatusCode,
    length: usize,
) -> Result<String, AllocError>
    ensures { IfOk result (λ head. string_bytes head
        ≡ head_text status (kind_of view.now wanted.now) (allow_of wanted.now) length) }
{
    let kind = kind_of(view, wanted);
    let allow = allow_of(wanted);
    let mut head = format!(in alloc; "HTTP/1.1 {status}\r\n{allow}Content-Type: {kind}\r\n")?;
    write!(
        head,
        "Content-Length: {length}\r\nConnection: close\r\n\r\n"
    )?;
    Ok(head)
}

// Returns the media type of the body.
fn kind_of(view: &AdminView, wanted: &Wanted) -> &'static str
    ensures { result.now ≡ kind_of view.now wanted.now }
{
    match wanted {
        Wanted::Status => "application/json",
        Wanted::Sessions(_) | Wanted::Connections if view.details.is_some() => "application/json",
        Wanted::Metrics => "text/plain; version=0.0.4; charset=utf-8",
        _ => "text/plain; charset=utf-8",
    }
}

// Returns the field with the methods that there are, if another one was asked (RFC 9110, section
// 15.5.6).
fn allow_of(wanted: &Wanted) -> &'static str
    ensures { result.now ≡ allow_of wanted.now }
{
    match wanted {
        Wanted::OtherMethod => "Allow: GET\r\n",
        _ => "",
    }
}

// Returns the body.
fn body_of(
    alloc: Global,
    view: &AdminView,
    wanted: &Wanted,
    status: StatusCode,
) -> Result<Vec<u8>, AllocError>
    requires { status ≡ status_of view.now wanted.now }
    ensures { IfOk result (λ body. body.items ≡ body_of view.now wanted.now) }
{
    match (wanted, &view.details) {
        (Wanted::Status, _) => status_body(alloc, view),
        (Wanted::Sessions(after), Some(details)) => sessions_body(alloc, details, after),
        (Wanted::Connections, Some(details)) => connections_body(alloc, details),
        (Wanted::Metrics, _) => metrics_body(alloc, view),
        _ => plain_body(alloc, status),
    }
}
