// One link, as its two threads share it.

use crate::far_end::FarEnd;
use std::net::{Shutdown, TcpStream};
use std::sync::atomic::{AtomicBool, Ordering};

/// A link that is up.
#[derive(Drop)]
pub(crate) struct Line<'a> {
    /// Its connection.
    pub(crate) stream: &'a TcpStream,
    /// Its other end.
    pub(crate) far: FarEnd,
    /// The number that the other end told; 0 for the master.
    pub(crate) number: u8,
    // True once it ends.
    ended: AtomicBool,
}

impl<'a> Line<'a> {
    /// Returns a link to this end, which has told this number.
    pub(crate) fn new(stream: &'a TcpStream, far: FarEnd, number: u8) -> Line<'a> {
        Line {
            stream,
            far,
            number,
            ended: AtomicBool::new(false),
        }
    }

    /// Ends it: reads and writes of its connection end at once.
    pub(crate) fn end(&self) {
        self.ended.store(true, Ordering::SeqCst);
        // (a connection that the other end has closed cannot be shut down)
        let _ = self.stream.shutdown(Shutdown::Both);
    }

    /// Returns true once it ends.
    pub(crate) fn has_ended(&self) -> bool {
        self.ended.load(Ordering::SeqCst)
    }
}
