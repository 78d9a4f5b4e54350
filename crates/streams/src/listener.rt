// Where a node accepts its clients.
//
// Nothing wakes a thread that waits in `accept`, so `close` connects to its own address as long as
// one waits there, up to `WAKES` times. The listener is closed first: each thread that wakes, and
// each that comes later, gets the witness in place of a stream. Then the connections are ended,
// which wakes the threads that read them. Threads sleep and accept without a lock. A listener is
// made before its run has a name, so the connections, which know the run, are not part of it.

ghost use Rattle.std.specs.Prelude.{◌≡◌, IfErr, IfSome};

use crate::closed_listener::{Closed, Waiting};
use crate::connections::Connections;
use run_history::RunNaming;
use std::net::{Net, SocketAddr, TcpListener, TcpStream};
use std::sync::{Mutex, Wait};
use std::time::{Clock, Duration};
use std::{io, thread};

/// How long a thread sleeps before it tries again to accept, or to wake those that do, in
/// milliseconds.
const PAUSE_MILLIS: u64 = 1;

/// How many times waiting threads are woken when a listener is closed, at most.
const WAKES: u32 = 10_000;

/// The TCP listener of a node. Whether it is closed is under a lock, so a call that says that it is
/// returns a witness.
#[derive(Drop)]
pub struct Listener {
    /// The node's number.
    pub number: u8,
    listener: TcpListener,
    // The threads that wait for a client, and whether the listener is closed.
    waiting: Mutex<Waiting>,
}

impl Listener {
    /// Returns the listener of the node of this number.
    pub fn new(number: u8, listener: TcpListener) -> Listener
        ensures { result.number ≡ number }
    {
        Listener {
            number,
            listener,
            waiting: Mutex::new(Waiting::new()),
        }
    }

    /// Returns the address to which clients connect. The errors are those of the TCP listener.
    pub fn address(&self) -> io::Result<SocketAddr> {
        self.listener.local_addr()
    }

    /// Returns the stream of the next client; waits for it. Fails with the witness once the
    /// listener is closed.
    pub fn accept<R: Wait + Clock>(&self, rt: &R) -> Result<TcpStream, Closed>
        ensures { IfErr result (λ closed. closed ≡ self.now.number) }
    {
        for _ in rt.forever() {
            self.begin_wait(rt)?;
            let came = self.listener.accept();
            self.end_wait(rt)?;
            match came {
                Ok((stream, _)) => return Ok(stream),
                Err(_) => thread::sleep(rt, Duration::from_millis(PAUSE_MILLIS)),
            }
        }
        unreachable!()
    }

    // Counts a thread as waiting for a client. Fails with the witness if the listener is closed.
    fn begin_wait<R: Wait>(&self, rt: &R) -> Result<(), Closed>
        ensures { IfErr result (λ closed. closed ≡ self.now.number) }
    {
        self.waiting.lock(rt).begin(self.number)
    }

    // Counts a thread as no longer waiting. Fails with the witness if the listener is closed.
    fn end_wait<R: Wait>(&self, rt: &R) -> Result<(), Closed>
        ensures { IfErr result (λ closed. closed ≡ self.now.number) }
    {
        self.waiting.lock(rt).end(self.number)
    }

    /// Admits no more connections, ends all of these, which are the node's, and wakes the threads
    /// that wait in `accept`. Returns the witness that the listener is closed.
    pub fn close<H, R>(&self, rt: &R, connections: &Connections<H>) -> Closed
    where
        H: RunNaming,
        R: Wait + Clock + Net<Stream = TcpStream>,
        ensures { result ≡ self.now.number }
    {
        let closed = self.waiting.lock(rt).close(self.number);
        connections.shut_all(rt);
        self.wake_all(rt);
        closed
    }

    // Wakes the threads that wait in `accept`.
    fn wake_all<R: Wait + Clock + Net<Stream = TcpStream>>(&self, rt: &R) {
        for _ in 0..WAKES {
            if self.waiting.lock(rt).threads() == 0 {
                return;
            }
            if let Ok(address) = self.address() {
                // If the listener cannot be reached, the next client that connects wakes a thread.
                let _ = TcpStream::connect(rt, address);
            }
            thread::sleep(rt, Duration::from_millis(PAUSE_MILLIS));
        }
    }

    /// Returns the witness that the listener is closed, if it is.
    pub fn closed<R: Wait>(&self, rt: &R) -> Option<Closed>
        ensures { IfSome result (λ closed. closed ≡ self.now.number) }
    {
        self.waiting.lock(rt).closed(self.number)
    }

    /// Returns true if the listener is closed.
    pub fn is_closed<R: Wait>(&self, rt: &R) -> bool {
        self.closed(rt).is_some()
    }
}
