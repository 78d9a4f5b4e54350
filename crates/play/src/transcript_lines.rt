// The lines of a transcript.

ghost use Rattle.std.specs.Prelude.{◌≡◌, ◌++◌, OnOk};
ghost use Rattle.play.specs.Lines.{accepted_line, done_line, end_line, idle_line};

use client_base::Accepted;
use client_base::printed::{print_line, print_text};
use packet_base::ClientId;
use std::alloc::{AllocError, Global};

/// Appends the line of an event that could not happen: `7 idle`.
pub(crate) fn write_idle(alloc: Global, index: u64, text: &mut Vec<u8>) -> Result<(), AllocError>
    ensures { OnOk result (text.new.items ≡ text.old.items ++ idle_line index) }
{
    let line = format!(in alloc; "{index} idle\n")?;
    text.extend_from_slice(line.as_str().as_bytes())
}

/// Appends the line of an event that happened, with how many messages were sent and how many
/// commands agreed so far: `7 ok msgs=3 agreed=1`.
pub(crate) fn write_done(
    alloc: Global,
    index: u64,
    messages: u64,
    agreed: u64,
    text: &mut Vec<u8>,
) -> Result<(), AllocError>
    ensures { OnOk result (text.new.items ≡ text.old.items ++ done_line index messages agreed) }
{
    let line = format!(in alloc; "{index} ok msgs={messages} agreed={agreed}\n")?;
    text.extend_from_slice(line.as_str().as_bytes())
}

/// Appends the line of a publication that a client accepted: `accepted b 1 2 0 t/1 x`, with the
/// client's name and the number of its session; the rest as a subscriber prints it.
pub(crate) fn write_accepted(
    alloc: Global,
    client: &ClientId,
    accepted: &Accepted,
    text: &mut Vec<u8>,
) -> Result<(), AllocError>
    ensures { OnOk result
        (text.new.items ≡ text.old.items ++ accepted_line client.now accepted.now) }
{
    let session = accepted.session;
    let session = format!(in alloc; " {session} ")?;
    text.extend_from_slice(b"accepted ")?;
    print_text(client.as_str().as_bytes(), text)?;
    text.extend_from_slice(session.as_str().as_bytes())?;
    print_line(accepted, text)
}

/// Appends the last line, with how many commands are agreed and which ballot is active: `end
/// agreed=8 active=2`.
pub(crate) fn write_end(
    alloc: Global,
    agreed: u64,
    active: u64,
    text: &mut Vec<u8>,
) -> Result<(), AllocError>
    ensures { OnOk result (text.new.items ≡ text.old.items ++ end_line agreed active) }
{
    let line = format!(in alloc; "end agreed={agreed} active={active}\n")?;
    text.extend_from_slice(line.as_str().as_bytes())
}
