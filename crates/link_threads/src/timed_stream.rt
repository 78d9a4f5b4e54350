// A connection whose reads end after a beat.

use std::io;
use std::io::{ErrorKind, Read, Write};
use std::net::TcpStream;
use std::time::{Clock, Duration, Instant};

/// How long a write waits for the other end, in milliseconds.
const WRITE_MILLIS: u64 = 5000;

/// Sets how long the reads of a connection wait, a beat, and its writes, five seconds. It blocks
/// from now on.
pub fn set_times(stream: &TcpStream, beat: Duration) -> io::Result<()> {
    stream.set_nonblocking(false)?;
    stream.set_nodelay(true)?;
    stream.set_read_timeout(Some(beat))?;
    stream.set_write_timeout(Some(Duration::from_millis(WRITE_MILLIS)))
}

/// The reading side of a connection: a read fails after a beat without bytes.
#[derive(Drop)]
pub struct BeatReader<'a> {
    stream: &'a TcpStream,
    // True if the last read failed because no bytes came.
    is_idle: bool,
}

impl<'a> BeatReader<'a> {
    /// Returns the reading side of this connection, whose times were set.
    pub fn new(stream: &'a TcpStream) -> BeatReader<'a> {
        BeatReader {
            stream,
            is_idle: false,
        }
    }

    /// Returns true if the last read failed only because no bytes came.
    pub fn is_idle(&self) -> bool {
        self.is_idle
    }
}

impl<'a> Read for BeatReader<'a> {
    fn read(&mut self, buf: &mut [u8]) -> io::Result<usize> {
        let mut source = self.stream;
        let read = source.read(buf);
        self.is_idle = match &read {
            Ok(_) => false,
            Err(error) => is_wait(error.kind()),
        };
        read
    }
}

// Returns true if an error says only that bytes may come later.
fn is_wait(kind: ErrorKind) -> bool {
    matches!(
        kind,
        ErrorKind::WouldBlock | ErrorKind::TimedOut | ErrorKind::Interrupted
    )
}

/// The reading side of a connection: reads wait until bytes come or `patience` is over, counted
/// from the first.
#[derive(Drop)]
pub struct PatientReader<'a, R> {
    clock: &'a R,
    beats: BeatReader<'a>,
    start: Option<Instant>,
    patience: Duration,
}

impl<'a, R: Clock> PatientReader<'a, R> {
    /// Returns the reading side of this connection, whose times were set.
    pub fn new(clock: &'a R, stream: &'a TcpStream, patience: Duration) -> PatientReader<'a, R> {
        PatientReader {
            clock,
            beats: BeatReader::new(stream),
            start: Instant::now(clock).ok(),
            patience,
        }
    }

    // Returns true once the patience is over, or the clock cannot be read.
    fn is_over(&self) -> bool {
        match self.start {
            Some(start) => match start.elapsed(self.clock) {
                Ok(passed) => passed > self.patience,
                Err(_) => true,
            },
            None => true,
        }
    }
}

impl<'a, R: Clock> Read for PatientReader<'a, R> {
    fn read(&mut self, buf: &mut [u8]) -> io::Result<usize> {
        for _ in 0..u64::MAX {
            let read = self.beats.read(buf);
            if !self.beats.is_idle() || self.is_over() {
                return read;
            }
        }
        Ok(0)
    }
}

/// The writing side of a connection.
#[derive(Drop)]
pub struct StreamWriter<'a> {
    stream: &'a TcpStream,
}

impl<'a> StreamWriter<'a> {
    /// Returns the writing side of this connection.
    pub fn new(stream: &'a TcpStream) -> StreamWriter<'a> {
        StreamWriter { stream }
    }
}

impl<'a> Write for StreamWriter<'a> {
    fn write(&mut self, buf: &[u8]) -> io::Result<usize> {
        let mut target = self.stream;
        target.write(buf)
    }

    fn flush(&mut self) -> io::Result<()> {
        Ok(())
    }
}
