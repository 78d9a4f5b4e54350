// Devices in memory of which one call fails.

use std::alloc::Global;
use std::io;
use std::io::{ErrorKind, Read, Write};

/// Returns its bytes, at most `most` a read. The call number `bad_call`, from 1, fails.
#[derive(Drop)]
pub struct Source<'a> {
    bytes: &'a [u8],
    most: usize,
    calls: u64,
    bad_call: u64,
}

impl<'a> Source<'a> {
    /// Returns a source of these bytes, which returns at most `most` a read and fails at the call
    /// number `bad_call`, from 1.
    pub fn new(bytes: &'a [u8], most: usize, bad_call: u64) -> Source<'a> {
        Source {
            bytes,
            most,
            calls: 0,
            bad_call,
        }
    }
}

impl<'a> Read for Source<'a> {
    fn read(&mut self, buf: &mut [u8]) -> io::Result<usize> {
        self.calls = self.calls.saturating_add(1);
        if self.calls == self.bad_call {
            return Err(io::Error::from(ErrorKind::ConnectionReset));
        }
        let count = self.bytes.len().min(self.most).min(buf.len());
        buf[..count].copy_from_slice(&self.bytes[..count]);
        self.bytes = &self.bytes[count..];
        Ok(count)
    }
}

/// Keeps what it is given, at most `most` bytes a call. The call number `bad_call`, from 1, fails
/// so; a flush is a call.
#[derive(Drop)]
pub struct Sink {
    bytes: Vec<u8>,
    most: usize,
    calls: u64,
    bad_call: u64,
    fault: ErrorKind,
}

impl Sink {
    /// Returns a sink that takes at most `most` bytes a write, and fails with `fault` at the call
    /// number `bad_call`, from 1.
    pub fn new(alloc: Global, most: usize, bad_call: u64, fault: ErrorKind) -> Sink {
        Sink {
            bytes: Vec::new(alloc),
            most,
            calls: 0,
            bad_call,
            fault,
        }
    }

    /// Returns what it was given.
    pub fn bytes(&self) -> &[u8] {
        self.bytes.as_slice()
    }

    fn call(&mut self) -> io::Result<()> {
        self.calls = self.calls.saturating_add(1);
        if self.calls == self.bad_call {
            return Err(io::Error::from(self.fault));
        }
        Ok(())
    }
}

impl Write for Sink {
    fn write(&mut self, buf: &[u8]) -> io::Result<usize> {
        self.call()?;
        let count = buf.len().min(self.most);
        self.bytes.extend_from_slice(&buf[..count])?;
        Ok(count)
    }

    fn flush(&mut self) -> io::Result<()> {
        self.call()
    }
}
