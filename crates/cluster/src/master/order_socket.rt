// Orders on a socket of the host.
//
// A connection brings one line, gets the answer, and is closed. It is served by itself, so its line
// has to come within a second. `quit` is an order of the input alone.

ghost use Rattle.std.specs.Prelude.{◌≤◌, IfOk};

use crate::desk::Keeper;
use crate::master::hall::Hall;
use crate::master::obeying::answer_to;
use crate::master::serving::PAUSE_MILLIS;
use std::io::{ErrorKind, Read, Write};
use std::net::Net;
use std::os::unix::fs::{FileTypeExt, PermissionsExt};
use std::os::unix::net::{UnixListener, UnixStream};
use std::rt::Files;
use std::sync::Wait;
use std::time::{Clock, Duration};
use std::{fs, io, str, thread};

/// The most bytes of an order, with its end of line.
const MAX_ORDER: usize = 256;

/// How long a read or a write waits for the other end, in milliseconds.
const WAIT_MILLIS: u64 = 1000;

/// Who may connect: the owner of the socket.
const OWNER_ONLY: u32 = 0o600;

/// Listens for orders on a socket at a path, for the owner alone. A socket that an ended master
/// left there is removed; one at which a master listens is not: `AddrInUse`.
pub(crate) fn listen<R: Files + Net>(rt: &R, path: &str) -> io::Result<UnixListener> {
    if let Ok(found) = fs::symlink_metadata(rt, path) {
        if found.file_type().is_socket() {
            if UnixStream::connect(rt, path).is_ok() {
                return Err(io::Error::from(ErrorKind::AddrInUse));
            }
            fs::remove_file(rt, path)?;
        }
    }
    let listener = UnixListener::bind(rt, path)?;
    fs::set_permissions(rt, path, fs::Permissions::from_mode(OWNER_ONLY))?;
    listener.set_nonblocking(true)?;
    Ok(listener)
}

/// Takes orders until the master ends.
pub(crate) fn take_orders<K, R>(rt: &R, hall: &Hall<'_, K>, listener: &UnixListener)
where
    K: Keeper,
    R: AllocGlobal + Wait + Clock,
{
    for _ in rt.forever() {
        if hall.is_closing() {
            return;
        }
        match listener.accept() {
            Ok((stream, _)) => {
                // (the other end has gone)
                let _ = take_order(rt, hall, &stream);
            }
            Err(_) => thread::sleep(rt, Duration::from_millis(PAUSE_MILLIS)),
        }
    }
}

// Takes the order of a connection, and answers it.
fn take_order<K, R>(rt: &R, hall: &Hall<'_, K>, stream: &UnixStream) -> io::Result<()>
where
    K: Keeper,
    R: AllocGlobal + Wait + Clock,
{
    let wait = Some(Duration::from_millis(WAIT_MILLIS));
    stream.set_nonblocking(false)?;
    stream.set_read_timeout(wait)?;
    stream.set_write_timeout(wait)?;
    let mut line = [0; MAX_ORDER];
    let end = read_line(stream, &mut line)?;
    let answer = match str::from_utf8(&line[..end]) {
        Ok(line) => answer_to(rt, hall, line),
        Err(_) => None,
    };
    let mut target = stream;
    match answer {
        Some(text) => target.write_all(text.as_slice()),
        None => target.write_all(b"refused 24\n"),
    }
}

// Reads up to the end of a line, or of what the other end writes. Returns where the line ends.
fn read_line(stream: &UnixStream, line: &mut [u8; MAX_ORDER]) -> io::Result<usize>
    ensures { IfOk result (λ end. end ≤ 256) }
{
    let mut source = stream;
    let mut end = 0;
    while end < MAX_ORDER {
        let count = source.read(&mut line[end..])?;
        let before = end;
        end += count;
        if let Some(at) = line[before..end].iter().position(|byte| *byte == b'\n') {
            return Ok(before + at);
        }
        if count == 0 {
            return Ok(end);
        }
    }
    Err(io::Error::from(ErrorKind::InvalidData))
}
