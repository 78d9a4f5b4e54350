// A connection of a node: its stream, and the right to write on it.
//
// The lane that accepted the connection reads; whoever holds the write token writes. There is one
// token a connection, made with it. `take_token` of a second thread fails, and obliges the holder
// to look again: `put_back` then hands the token to its caller once more. So nobody waits to write,
// and bytes that were queued while a thread wrote are written by that thread. No lock is held while
// bytes are written: the token is outside its slot then. A write waits for a full socket for
// `WRITE_MILLIS` at most; a token whose socket stays full becomes a `BlockedLink`, for the blocked
// writer.

ghost use Rattle.std.specs.Prelude.{◌≡◌};
ghost use Rattle.std.specs.Arc.{arc_value};
ghost use Rattle.run_history.specs.Log.{opening_log};

use crate::patient_reader::PatientReader;
use crate::port_tap::PortTap;
use crate::socket::Socket;
use crate::write_slot::WriteSlot;
use crate::write_token::{Stream, WriteToken};
use node_base::connection::Outflow;
use run_history::{RunNaming, SeenRun};
use std::alloc::{AllocError, Global};
use std::net::{Shutdown, TcpStream};
use std::sync::{Arc, Mutex, Wait};
use std::time::Duration;
use world_base::node_connections::Port;

/// The deadline of a write on a full socket, in milliseconds.
const WRITE_MILLIS: u64 = 1;

/// A connection of a node. Its write token is under a lock, so no clause of a call says when there
/// is one; those of `WriteSlot` do. No clause says what is done to the socket.
#[derive(Drop)]
pub struct Link<H: RunNaming> {
    /// The port by which the node knows it.
    pub port: Port,
    /// Its index in the table of connections.
    pub index: usize,
    /// When it was accepted, in the milliseconds of the node's clock.
    pub opened: u64,
    // The socket, which the write token shares.
    stream: Arc<TcpStream, Global>,
    // Keeps the write token while no thread writes.
    slot: Mutex<WriteSlot<H>>,
}

/// A connection whose socket was full, and its token, kept as a stream so that it may be dropped.
#[derive(Drop)]
pub struct BlockedLink<H: RunNaming> {
    link: Arc<Link<H>, Global>,
    // The stream of the token, of the same port.
    stream: Stream<H>,
    ghost its: { stream.tap.port.0 ≡ (arc_value link).port.0 },
}

impl<H: RunNaming> BlockedLink<H> {
    ghost use Rattle.streams.specs.WriteTokens.{IsTokenOf};

    /// Returns a connection and its token.
    pub fn new(link: Arc<Link<H>, Global>, token: WriteToken<H>) -> BlockedLink<H>
        requires { IsTokenOf (arc_value link).port token }
    {
        BlockedLink {
            link,
            stream: token.into_stream(),
        }
    }

    /// Returns the connection and its token.
    pub fn into_parts(self) -> (Arc<Link<H>, Global>, WriteToken<H>)
        ensures { IsTokenOf (arc_value result.0).port result.1 }
    {
        let BlockedLink { link, stream } = self;
        (link, WriteToken::new(stream))
    }
}

impl<H: RunNaming> Link<H> {
    ghost use Rattle.std.specs.Prelude.{◌≡◌, IfOk, IfSome};
    ghost use Rattle.streams.specs.WriteTokens.{IsTokenOf};

    /// Returns a connection of the node of this number, on which nothing was written. `opening` is
    /// the log of the run as it opened. The only error is that memory ran out: then the stream is
    /// closed, which no clause says.
    pub fn new(
        alloc: Global,
        number: u8,
        port: Port,
        index: usize,
        opened: u64,
        stream: TcpStream,
        opening: SeenRun<H>,
    ) -> Result<Link<H>, AllocError>
        requires { opening ≡ opening_log H.nodes H.config H.linked }
        ensures { IfOk result (λ link. link.port ≡ port) }
    {
        let stream = Arc::new(alloc, stream)?;
        let socket = Socket::new(Arc::try_clone(&stream)?);
        let tap = PortTap::new(number, port, opening);
        Ok(Link {
            port,
            index,
            opened,
            stream,
            slot: Mutex::new(WriteSlot::new(Outflow::new(alloc, tap, socket))),
        })
    }

    /// Returns the connection of a stream, as [`Link::new`]. Sets the stream to send bytes at once,
    /// and a write to wait for [`WRITE_MILLIS`] at most. Returns none if it cannot be set so, or
    /// memory ran out.
    pub fn of_stream(
        alloc: Global,
        number: u8,
        port: Port,
        index: usize,
        opened: u64,
        stream: TcpStream,
        opening: SeenRun<H>,
    ) -> Option<Arc<Link<H>, Global>>
        requires { opening ≡ opening_log H.nodes H.config H.linked }
        ensures { IfSome result (λ link. (arc_value link).port ≡ port) }
    {
        stream.set_nodelay(true).ok()?;
        stream
            .set_write_timeout(Some(Duration::from_millis(WRITE_MILLIS)))
            .ok()?;
        let link = Link::new(alloc, number, port, index, opened, stream, opening).ok()?;
        Arc::new(alloc, link).ok()
    }

    /// Returns a reader of the stream.
    pub fn source(&self) -> PatientReader<'_>
        ensures { result.stream.now ≡ arc_value self.now.stream }
    {
        PatientReader::new(&self.stream)
    }

    /// Takes the write token. Returns none if another thread has it, which then looks again, or if
    /// the stream has ended.
    pub fn take_token<R: Wait>(&self, rt: &R) -> Option<WriteToken<H>>
        ensures { IfSome result (λ token. IsTokenOf self.now.port token) }
    {
        // It is this connection's, but no clause speaks of what is under a lock.
        self.slot.lock(rt).take(self.port)
    }

    /// Puts the token back. Returns it to the caller, who looks again, if another thread asked for
    /// it meanwhile.
    pub fn put_back<R: Wait>(&self, rt: &R, token: WriteToken<H>) -> Option<WriteToken<H>>
        ensures { IfSome result (λ kept. kept ≡ token) }
    {
        self.slot.lock(rt).put_back(token)
    }

    /// Sets whether a write waits for a full socket, as long as the stream's write timeout says.
    /// Only the holder of the token calls this. Returns false if it could not be set.
    pub fn set_waiting(&self, waits: bool) -> bool {
        self.stream.set_nonblocking(!waits).is_ok()
    }

    /// Ends the stream and its token.
    pub fn end(&self, token: WriteToken<H>) {
        let _stream = token.into_stream();
        self.shut();
    }

    /// Ends the stream, and so wakes the thread that reads it. Nothing more is written on it.
    pub fn shut(&self) {
        // It is fine if the stream is no longer connected.
        let _ = self.stream.shutdown(Shutdown::Both);
    }
}
