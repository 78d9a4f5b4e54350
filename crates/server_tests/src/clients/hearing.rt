// What is sent and read on a stream. Where something else comes than is awaited, that is returned.

use crate::clients::came::{Came, SHOWN, StreamState, compare};
use std::io::{ErrorKind, Read, Write};
use std::net::TcpStream;
use std::time::Duration;

// Returns that a stream refused something, unless it took it.
fn unless_refused(is_taken: bool) -> Result<(), Came> {
    if is_taken {
        Ok(())
    } else {
        Err(Came::nothing(StreamState::Refusing))
    }
}

/// Sets the deadline of reads on this stream, in milliseconds.
pub(crate) fn limit_reads(stream: &TcpStream, milliseconds: u64) -> Result<(), Came> {
    unless_refused(
        stream
            .set_read_timeout(Some(Duration::from_millis(milliseconds)))
            .is_ok(),
    )
}

/// Sets the deadline of writes on this stream, in milliseconds.
pub fn limit_writes(stream: &TcpStream, milliseconds: u64) -> Result<(), Came> {
    unless_refused(
        stream
            .set_write_timeout(Some(Duration::from_millis(milliseconds)))
            .is_ok(),
    )
}

/// Sends these bytes.
pub fn send(stream: &mut TcpStream, bytes: &[u8]) -> Result<(), Came> {
    unless_refused(stream.write_all(bytes).is_ok())
}

/// Sends these bytes, this many times.
pub fn send_times(stream: &mut TcpStream, bytes: &[u8], times: u8) -> Result<(), Came> {
    for _ in 0..times {
        send(stream, bytes)?;
    }
    Ok(())
}

/// Reads as many bytes as are awaited, at most 24, which have to be these.
pub fn hear(stream: &mut TcpStream, wanted: &[u8]) -> Result<(), Came> {
    let mut buffer = [0; SHOWN];
    match buffer.get_mut(..wanted.len()) {
        Some(read) => hear_into(stream, read, wanted),
        None => Err(Came::new(&[], wanted, StreamState::Open)),
    }
}

/// Fills the buffer; these bytes have to come.
pub(crate) fn hear_into(
    stream: &mut TcpStream,
    buffer: &mut [u8],
    wanted: &[u8],
) -> Result<(), Came> {
    let (count, state) = fill(stream, buffer);
    compare(buffer.get(..count).unwrap_or(&[]), wanted, state)
}

/// Fills the buffer, with any bytes.
pub(crate) fn hear_any(stream: &mut TcpStream, buffer: &mut [u8]) -> Result<(), Came> {
    let (count, state) = fill(stream, buffer);
    if count == buffer.len() {
        Ok(())
    } else {
        Err(Came::new(buffer.get(..count).unwrap_or(&[]), &[], state))
    }
}

/// Reads until the buffer is full, or no more comes. Returns how many bytes came, and what the
/// stream was then.
pub(crate) fn fill(stream: &mut TcpStream, buffer: &mut [u8]) -> (usize, StreamState) {
    let mut count: usize = 0;
    for _ in 0..buffer.len() {
        match read_after(stream, buffer, count) {
            Ok(more) => count = count.saturating_add(more),
            Err(state) => return (count, state),
        }
    }
    (count, StreamState::Open)
}

// Reads once into what follows this many bytes of the buffer.
fn read_after(
    stream: &mut TcpStream,
    buffer: &mut [u8],
    count: usize,
) -> Result<usize, StreamState> {
    match buffer.get_mut(count..) {
        Some(rest) => read_once(stream, rest),
        None => Err(StreamState::Open),
    }
}

// Reads once. Returns how many bytes came; what the stream is if none did.
fn read_once(stream: &mut TcpStream, buffer: &mut [u8]) -> Result<usize, StreamState> {
    if buffer.is_empty() {
        return Err(StreamState::Open);
    }
    match stream.read(buffer) {
        Ok(0) => Err(StreamState::Ended),
        Ok(count) => Ok(count),
        Err(error) => Err(state_after(error.kind())),
    }
}

// Returns what a stream is after a read that failed so.
fn state_after(kind: ErrorKind) -> StreamState {
    match kind {
        ErrorKind::WouldBlock | ErrorKind::TimedOut => StreamState::Silent,
        _ => StreamState::Failed,
    }
}

/// Awaits that nothing comes for a third of a second, and the stream stays open.
pub fn hear_nothing(stream: &mut TcpStream) -> Result<(), Came> {
    hear_only(stream, 333, StreamState::Silent)?;
    limit_reads(stream, 10_000)
}

/// Awaits that the server ends the stream within five seconds, and sends nothing.
pub fn hear_end(stream: &mut TcpStream) -> Result<(), Came> {
    hear_only(stream, 5_000, StreamState::Ended)
}

// Reads once, for this many milliseconds. No bytes may come, and the stream has to be in the wanted
// state then.
fn hear_only(stream: &mut TcpStream, milliseconds: u64, wanted: StreamState) -> Result<(), Came> {
    let mut buffer = [0; SHOWN];
    limit_reads(stream, milliseconds)?;
    match read_once(stream, &mut buffer) {
        Ok(count) => Err(Came::new(buffer.get(..count).unwrap_or(&[]), &[], StreamState::Open)),
        Err(state) => {
            if state == wanted {
                Ok(())
            } else {
                Err(Came::nothing(state))
            }
        }
    }
}
