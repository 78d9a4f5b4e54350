// One connection of a client, from CONNECT to its end.

ghost use Rattle.std.specs.Prelude.{◌≡◌, true, [], OnOk, IfErr, IfOk};
ghost use Rattle.std.specs.Io.KnownBytes.{Appends};
ghost use Rattle.client_base.specs.State.{kept_count};
ghost use Rattle.user_client.specs.Losses.{AsksNext, IsEndedBy};
ghost use Rattle.user_client.specs.Traces.{Trace};

use crate::caller::{Caller, News};
use crate::servers::Servers;
use crate::user_client_error::UserClientError;
use node_base::devices::{Counted, OneRead, WholeWrite};
use std::alloc::Global;
use std::io::{Read, Write};

/// Opens the next connection, after a pause if `opened` is not 0. Returns none if it cannot be
/// opened.
pub(crate) fn next_stream<S: Servers>(servers: &mut S, opened: u32) -> Option<S::Stream>
    ensures { AsksNext S.opens S.pauses opened servers.old servers.new }
{
    if opened > 0 {
        servers.pause();
    }
    servers.open()
}

/// Writes what the client has for the server, reads once, and passes the bytes to the client.
pub(crate) fn exchange<D: Read + Write>(
    alloc: Global,
    stream: &mut Counted<D>,
    buffer: &mut [u8],
    caller: &mut Caller,
) -> Result<News, UserClientError>
    ensures trace { OnOk result (Trace caller.old [] caller.new) }
    ensures ended { IfErr result (IsEndedBy caller.old caller.new) }
{
    if !send(alloc, stream, caller)? {
        return Ok(News::Lost);
    }
    match next_piece(stream, buffer) {
        Some(piece) => caller.receive(piece),
        None => Ok(News::Lost),
    }
}

// Reads one piece into the buffer. Returns none if the connection is lost.
fn next_piece<'r, D: Read>(stream: &mut Counted<D>, buffer: &'r mut [u8]) -> Option<&'r [u8]> {
    if buffer.is_empty() {
        return None;
    }
    match stream.read_piece(buffer) {
        OneRead::Bytes(count) => buffer.get(..count),
        OneRead::End | OneRead::Fault => None,
    }
}

/// Disconnects. The client is done, so it does not matter whether the DISCONNECT arrives.
pub(crate) fn disconnect<D: Read + Write>(
    alloc: Global,
    stream: &mut Counted<D>,
    caller: &mut Caller,
)
    ensures trace { Trace caller.old [] caller.new }
    ensures kept { kept_count caller.new.core.state ≡ kept_count caller.old.core.state }
{
    caller.disconnect();
    let _ = send(alloc, stream, caller);
}

/// Writes what the client has for the server. Returns true if the stream took all of it.
pub(crate) fn send<D: Read + Write>(
    alloc: Global,
    stream: &mut Counted<D>,
    caller: &mut Caller,
) -> Result<bool, UserClientError>
    ensures trace { Trace caller.old [] caller.new }
    ensures kept { caller.new.core.state ≡ caller.old.core.state }
    ensures written { IfOk result (λ whole. whole ≡ true →
        Appends (D.contents stream.old.device) (D.contents stream.new.device) caller.old.core.out) }
    ensures err { IfErr result (λ error. error ≡ UserClientError.Memory) }
{
    let mut out = Vec::new(alloc);
    caller.outgoing(&mut out)?;
    Ok(stream.write_whole(out.as_slice()) == WholeWrite::Whole)
}
