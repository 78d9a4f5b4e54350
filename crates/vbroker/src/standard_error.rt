// Standard error, as a device for texts.

use std::io::{ErrorKind, Write};
use std::{io, str};

/// Standard error. It takes only texts.
#[derive(Drop)]
pub struct StandardError<'a, R> {
    // What prints the texts.
    rt: &'a R,
}

impl<'a, R: Eprint> StandardError<'a, R> {
    /// Returns the standard error of a program.
    pub fn new(rt: &'a R) -> StandardError<'a, R> {
        StandardError { rt }
    }
}

impl<'a, R: Eprint> Write for StandardError<'a, R> {
    fn write(&mut self, buf: &[u8]) -> io::Result<usize> {
        let Ok(text) = str::from_utf8(buf) else {
            return Err(io::Error::from(ErrorKind::InvalidData));
        };
        self.rt.eprint(text)?;
        Ok(buf.len())
    }

    fn flush(&mut self) -> io::Result<()> {
        Ok(())
    }
}
