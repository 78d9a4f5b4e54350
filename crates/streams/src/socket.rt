// A connection's socket, for writing.

use std::alloc::Global;
use std::io;
use std::io::Write;
use std::net::TcpStream;
use std::sync::Arc;

/// A connection's socket. Only the connection's token writes on it.
#[derive(Drop)]
pub struct Socket {
    // Shared with the connection, which reads from it and ends it.
    stream: Arc<TcpStream, Global>,
}

impl Socket {
    pub(crate) fn new(stream: Arc<TcpStream, Global>) -> Socket {
        Socket { stream }
    }
}

impl Write for Socket {
    fn write(&mut self, buf: &[u8]) -> io::Result<usize> {
        let mut stream = &*self.stream;
        stream.write(buf)
    }

    fn flush(&mut self) -> io::Result<()> {
        Ok(())
    }
}
