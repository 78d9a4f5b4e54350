// Blocking reads on a stream that a writer may make non-blocking.

ghost use Rattle.std.specs.Prelude.{◌≡◌};

use std::io::{ErrorKind, Read};
use std::net::TcpStream;
use std::{hint, io};

/// A blocking reader of a stream. While a thread writes that must not wait, the stream is
/// non-blocking; a read is then repeated until something comes.
#[derive(Drop)]
pub struct PatientReader<'a> {
    // A thread that writes may make it non-blocking.
    stream: &'a TcpStream,
}

impl<'a> PatientReader<'a> {
    /// Returns a reader of this stream.
    pub fn new(stream: &'a TcpStream) -> PatientReader<'a>
        ensures { result.stream.now ≡ stream.now }
    {
        PatientReader { stream }
    }
}

impl<'a> Read for PatientReader<'a> {
    fn read(&mut self, buf: &mut [u8]) -> io::Result<usize> {
        let mut source = self.stream;
        for _ in 0..u64::MAX {
            match source.read(buf) {
                Err(error) if error.kind() == ErrorKind::WouldBlock => hint::spin_loop(),
                read => return read,
            }
        }
        Ok(0)
    }
}
