// The page of sessions.

ghost use Rattle.std.specs.Prelude.{◌≡◌, option_map, string_bytes};
ghost use Rattle.std.specs.List.{flat_map};
ghost use Rattle.admin.specs.Json.{Adds, session_tokens, sessions_tokens};
ghost use Rattle.admin.specs.Sessions.{comes_after, listed_sessions};

use crate::json_members::{put_number, put_option, put_text};
use crate::view::{Details, SessionLine};
use json::Writer;
use std::alloc::AllocError;

/// How many sessions a page lists at most.
pub const MAX_LISTED: usize = 1_000;

// Writes the first thousand sessions that come after this identifier, if one is given.
pub(crate) fn put_sessions(
    writer: &mut Writer,
    details: &Details,
    after: Option<&str>,
) -> Result<(), AllocError>
    ensures { Adds result writer.old writer.new
        (sessions_tokens details.now (option_map (λ client. client.now) after.entry)) }
{
    writer.begin_array()?;
    put_listed(writer, &details.sessions, after)?;
    writer.end_array()
}

// Writes those of these sessions that are listed.
fn put_listed(
    writer: &mut Writer,
    sessions: &[SessionLine],
    after: Option<&str>,
) -> Result<(), AllocError>
    ensures { Adds result writer.old writer.new (flat_map session_tokens
        (listed_sessions (option_map (λ client. client.now) after.entry) sessions.now)) }
{
    let mut listed = 0usize;
    for session in sessions {
        if comes_after(after, session) {
            if listed == MAX_LISTED {
                return Ok(());
            }
            put_session(writer, session)?;
            listed += 1;
        }
    }
    Ok(())
}

// Returns true if a session comes after this identifier, if one is given.
fn comes_after(after: Option<&str>, session: &SessionLine) -> bool
    ensures { result ≡ comes_after (option_map (λ client. client.now) after.entry) session.now }
{
    match after {
        Some(client) => client < session.client.as_str(),
        None => true,
    }
}

// Writes a session.
fn put_session(writer: &mut Writer, session: &SessionLine) -> Result<(), AllocError>
    ensures { Adds result writer.old writer.new (session_tokens session.now) }
{
    writer.begin_object()?;
    put_text(writer, "client", session.client.as_str())?;
    put_option(writer, "connected_seconds", session.connected_seconds)?;
    put_number(writer, "queued", session.queued)?;
    put_number(writer, "in_flight", session.in_flight)?;
    put_number(writer, "subscriptions", session.subscriptions)?;
    writer.end_object()
}
