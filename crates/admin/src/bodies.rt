// The bodies of answers.

ghost use Rattle.std.specs.Prelude.{◌≡◌, IfOk, option_map, string_bytes};
ghost use Rattle.admin.specs.Answers.{json_text, plain_text};
ghost use Rattle.admin.specs.Json.{connections_tokens, sessions_tokens, status_tokens};
ghost use Rattle.admin.specs.Metrics.{metrics_text};

use crate::connections_page::put_connections;
use crate::metrics_page::put_metrics;
use crate::sessions_page::put_sessions;
use crate::status_page::put_status;
use crate::view::{AdminView, Details};
use http::StatusCode;
use json::Writer;
use std::alloc::{AllocError, Global};

// Returns the status of an answer as a line.
pub(crate) fn plain_body(alloc: Global, status: StatusCode) -> Result<Vec<u8>, AllocError>
    ensures { IfOk result (λ body. body.items ≡ plain_text status) }
{
    let text = format!(in alloc; "{status}\n")?;
    Ok(text.into_bytes())
}

// Returns the page `/status`.
pub(crate) fn status_body(alloc: Global, view: &AdminView) -> Result<Vec<u8>, AllocError>
    ensures { IfOk result (λ body. body.items ≡ json_text (status_tokens view.now)) }
{
    let mut writer = Writer::new(Vec::new(alloc));
    put_status(&mut writer, view)?;
    Ok(writer.into_inner())
}

// Returns the page `/sessions`, after an identifier if there is one.
pub(crate) fn sessions_body(
    alloc: Global,
    details: &Details,
    after: &Option<String>,
) -> Result<Vec<u8>, AllocError>
    ensures { IfOk result (λ body. body.items
        ≡ json_text (sessions_tokens details.now (option_map string_bytes after.now))) }
{
    let mut writer = Writer::new(Vec::new(alloc));
    match after {
        Some(client) => put_sessions(&mut writer, details, Some(client.as_str()))?,
        None => put_sessions(&mut writer, details, None)?,
    }
    Ok(writer.into_inner())
}

// Returns the page `/connections`.
pub(crate) fn connections_body(alloc: Global, details: &Details) -> Result<Vec<u8>, AllocError>
    ensures { IfOk result (λ body. body.items ≡ json_text (connections_tokens details.now)) }
{
    let mut writer = Writer::new(Vec::new(alloc));
    put_connections(&mut writer, details)?;
    Ok(writer.into_inner())
}

// Returns the page `/metrics`.
pub(crate) fn metrics_body(alloc: Global, view: &AdminView) -> Result<Vec<u8>, AllocError>
    ensures { IfOk result (λ body. body.items ≡ metrics_text view.now) }
{
    let mut text = String::new(alloc);
    put_metrics(&mut text, view)?;
    Ok(text.into_bytes())
}
