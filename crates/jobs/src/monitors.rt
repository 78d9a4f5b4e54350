// Monitors, which ask over HTTP for health, status and metrics.
//
// Eight threads wait in `accept` and serve one connection at a time each, so a ninth waits in the
// queue of the system. A request has five seconds to come, and each write of the answer one. Nothing
// wakes a thread that waits in `accept`, so the end connects to the listener until all have left.

use crate::desk::Desk;
use crate::job_error::JobError;
use admin::serve_admin;
use std::io::{ErrorKind, Read, Write};
use std::net::{Net, Shutdown, TcpListener, TcpStream};
use std::sync::Wait;
use std::sync::atomic::{AtomicUsize, Ordering};
use std::time::{Clock, Duration, Instant};
use std::{io, thread};

/// How many monitors are served at once.
pub(crate) const MONITORS: usize = 8;

/// How long a request may take to come, in milliseconds.
const REQUEST_MILLIS: u64 = 5_000;

/// How long a read waits for bytes before it is asked whether to go on, in milliseconds.
const BEAT_MILLIS: u64 = 200;

/// How long a write waits, in milliseconds.
const WRITE_MILLIS: u64 = 1_000;

/// How long a thread sleeps before it tries again to accept, or to wake those that do, in
/// milliseconds.
const PAUSE_MILLIS: u64 = 1;

/// How many times waiting threads are woken at the end, at most.
const WAKES: u32 = 10_000;

/// How many pieces of 1,024 bytes are read at most after a request, so that the answer arrives.
const LEFT_PIECES: usize = 64;

/// Where monitors connect.
#[derive(Drop)]
pub(crate) struct MonitorDoor {
    listener: TcpListener,
    // How many threads have ended serving monitors.
    ended: AtomicUsize,
}

impl MonitorDoor {
    /// Opens the door at an address. The error has the address.
    pub(crate) fn open<R>(rt: &R, address: &str) -> Result<MonitorDoor, JobError>
    where
        R: AllocGlobal + Net<Listener = TcpListener, Stream = TcpStream>,
    {
        match TcpListener::bind(rt, address) {
            Ok(listener) => Ok(MonitorDoor {
                listener,
                ended: AtomicUsize::new(0),
            }),
            Err(error) => {
                let named = String::from_str(rt.alloc(), address)?;
                Err(JobError::Address(named, error.kind()))
            }
        }
    }

    /// Prints where monitors may connect, and whether they may from other machines. Serving goes on
    /// even if nothing can be printed.
    pub(crate) fn print<E: Write>(&self, faults: &mut E) {
        if let Ok(address) = self.listener.local_addr() {
            let _ = writeln!(faults, "monitors may ask at {address}");
            if !address.ip().is_loopback() {
                let _ = writeln!(
                    faults,
                    "monitors are not on a loopback address: whoever reaches it can ask"
                );
            }
        }
    }

    /// Serves monitors, one after the other, until the orders have ended. No clause says what they
    /// are answered; that of `serve_admin` does for one whose bytes are known.
    pub(crate) fn serve<R: AllocGlobal + Wait + Clock>(&self, rt: &R, desk: &Desk) {
        for _ in rt.forever() {
            let came = self.listener.accept();
            if desk.has_ended(rt) {
                break;
            }
            match came {
                // (a monitor that has gone is served no more)
                Ok((stream, _)) => drop(answer(rt, desk, &stream)),
                Err(_) => thread::sleep(rt, Duration::from_millis(PAUSE_MILLIS)),
            }
        }
        self.ended.fetch_add(1, Ordering::SeqCst);
    }

    /// Wakes the threads that wait for monitors, until as many as began have ended. The orders have
    /// ended before.
    pub(crate) fn close<R: Clock + Net<Stream = TcpStream>>(&self, rt: &R, begun: usize) {
        for _ in 0..WAKES {
            if self.ended.load(Ordering::SeqCst) >= begun {
                return;
            }
            if let Ok(address) = self.listener.local_addr() {
                let _ = TcpStream::connect(rt, address);
            }
            thread::sleep(rt, Duration::from_millis(PAUSE_MILLIS));
        }
    }
}

// Answers the request of a connection by how the nodes are now.
fn answer<R>(rt: &R, desk: &Desk, stream: &TcpStream) -> io::Result<()>
where
    R: AllocGlobal + Wait + Clock,
{
    stream.set_read_timeout(Some(Duration::from_millis(BEAT_MILLIS)))?;
    stream.set_write_timeout(Some(Duration::from_millis(WRITE_MILLIS)))?;
    let Some(view) = desk.view(rt) else {
        return Ok(());
    };
    let mut input = RequestReader::new(rt, desk, stream);
    let mut output = stream;
    serve_admin(rt.alloc(), &view, &mut input, &mut output)?;
    stream.shutdown(Shutdown::Write)?;
    read_rest(&mut input)
}

// Reads what a monitor sent after its request: a connection with unread bytes is reset, and its
// answer may be lost.
fn read_rest<I: Read>(input: &mut I) -> io::Result<()> {
    let mut piece = [0u8; 1_024];
    for _ in 0..LEFT_PIECES {
        if input.read(&mut piece)? == 0 {
            return Ok(());
        }
    }
    Ok(())
}

// The bytes of a monitor, as long as it may send them.
#[derive(Drop)]
struct RequestReader<'a, 'b, 'c, R> {
    rt: &'a R,
    desk: &'b Desk,
    stream: &'c TcpStream,
    // None if the clock cannot be read.
    start: Option<Instant>,
}

impl<'a, 'b, 'c, R: Wait + Clock> RequestReader<'a, 'b, 'c, R> {
    fn new(rt: &'a R, desk: &'b Desk, stream: &'c TcpStream) -> RequestReader<'a, 'b, 'c, R> {
        RequestReader {
            rt,
            desk,
            stream,
            start: Instant::now(rt).ok(),
        }
    }

    // Returns true once the time of the request is over, or the orders have ended.
    fn is_over(&self) -> bool {
        let is_late = match self.start {
            Some(start) => match start.elapsed(self.rt) {
                Ok(passed) => passed > Duration::from_millis(REQUEST_MILLIS),
                Err(_) => true,
            },
            None => true,
        };
        is_late || self.desk.has_ended(self.rt)
    }
}

impl<'a, 'b, 'c, R: Wait + Clock> Read for RequestReader<'a, 'b, 'c, R> {
    fn read(&mut self, buf: &mut [u8]) -> io::Result<usize> {
        let mut source = self.stream;
        for _ in 0..u64::MAX {
            if self.is_over() {
                return Err(io::Error::from(ErrorKind::TimedOut));
            }
            match source.read(buf) {
                Err(error) if is_wait(error.kind()) => {}
                read => return read,
            }
        }
        Ok(0)
    }
}

// Returns true if an error says only that bytes may come later.
fn is_wait(kind: ErrorKind) -> bool {
    matches!(
        kind,
        ErrorKind::WouldBlock | ErrorKind::TimedOut | ErrorKind::Interrupted
    )
}
