// What a request wants.

ghost use Rattle.std.specs.Prelude.{◌≡◌, IfOk, option_map};
ghost use Rattle.admin.specs.Requests.{IsPage, IsSessionsPage, IsWanted, path_of, query_of};

use crate::asked::{Asked, asks};
use crate::reader::MAX_REQUEST;
use form_urlencoded::decode;
use std::alloc::{AllocError, Global};

/// What a request wants.
#[derive(Drop)]
pub enum Wanted {
    /// It has more than 4,096 bytes.
    TooLarge,
    /// It has no head with at most 64 fields (RFC 9112, section 3).
    Malformed,
    /// Its method is not GET.
    OtherMethod,
    /// It wants a page that is not there.
    NoPage,
    /// `/healthz`
    Health,
    /// `/status`
    Status,
    /// `/sessions`, those after an identifier if there is one.
    Sessions(Option<String>),
    /// `/connections`
    Connections,
    /// `/metrics`
    Metrics,
}

// Returns what a request wants.
pub(crate) fn wants(alloc: Global, request: &[u8]) -> Result<Wanted, AllocError>
    ensures { IfOk result (IsWanted request.now) }
{
    if MAX_REQUEST < request.len() {
        return Ok(Wanted::TooLarge);
    }
    match asks(request) {
        Asked::Get(target) => page_of(alloc, target),
        Asked::OtherMethod => Ok(Wanted::OtherMethod),
        Asked::Incomplete | Asked::Malformed => Ok(Wanted::Malformed),
    }
}

// Returns which page a target is.
fn page_of(alloc: Global, target: &str) -> Result<Wanted, AllocError>
    ensures { IfOk result (IsPage target.now) }
{
    let (path, query) = path_and_query(target);
    match path {
        "/healthz" => Ok(Wanted::Health),
        "/status" => Ok(Wanted::Status),
        "/connections" => Ok(Wanted::Connections),
        "/metrics" => Ok(Wanted::Metrics),
        "/sessions" => sessions_of(alloc, query),
        _ => Ok(Wanted::NoPage),
    }
}

// Returns what stands before the first `?` of a target, and what stands after it, if there is one.
fn path_and_query(target: &str) -> (&str, Option<&str>)
    ensures path { result.0.now ≡ path_of target.now }
    ensures query { option_map (λ query. query.now) result.1 ≡ query_of target.now }
{
    match target.split_once('?') {
        Some((path, query)) => (path, Some(query)),
        None => (target, None),
    }
}

// Returns which sessions a query of `/sessions` wants.
fn sessions_of(alloc: Global, query: Option<&str>) -> Result<Wanted, AllocError>
    ensures { IfOk result (IsSessionsPage (option_map (λ query. query.now) query.entry)) }
{
    let Some(query) = query else {
        return Ok(Wanted::Sessions(None));
    };
    let Some(client) = query.strip_prefix("after=") else {
        return Ok(Wanted::NoPage);
    };
    let client = decode(alloc, client.as_bytes())?;
    Ok(Wanted::Sessions(Some(client.into_owned(alloc)?)))
}
