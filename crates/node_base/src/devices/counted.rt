// A device with the count of its failed calls.

ghost use Rattle.std.specs.Prelude.{◌≡◌, ◌≢◌, ◌<◌, length, if◌then◌else◌};
ghost use Rattle.std.specs.Io.KnownBytes.{Appends, Keeps};
ghost use Rattle.node_base.specs.devices.Counted.{CountedView, counted_once};
ghost use Rattle.node_base.specs.devices.Engines.{WritesPrefix, WritesPiece, WritesShort, ReadsPiece, counted_read, counted_write};
ghost use Rattle.node_base.specs.devices.Inside.{WritesOnce};

use crate::devices::one_read::OneRead;
use crate::devices::one_write::OneWrite;
use crate::devices::whole_write::WholeWrite;
use std::io::{ErrorKind, Read, Write};
use std::marker::Model;

/// A good size of the buffer for [`Counted::read_piece`], in bytes.
pub const PIECE_BYTES: usize = 65_536;

/// A device with the count of its failed calls (saturates at 2^64 - 1).
#[derive(Drop)]
pub struct Counted<D> {
    device: D,
    // How many of its calls failed, at most 2^64 - 1.
    faults: u64,
}

impl<D> Model for Counted<D> {
    ghost use Rattle.node_base.specs.devices.Counted.{CountedView};

    ghost Value = { CountedView D };

    ghost view = { λ counted. record { device = counted.device; faults = counted.faults } };
}

impl<D> Counted<D> {
    /// Returns the device, with a count of 0.
    pub fn new(device: D) -> Self
        ensures { result ≡ record { device = device; faults = 0 } }
    {
        Counted { device, faults: 0 }
    }

    /// Returns how many calls of the device have failed (saturates at 2^64 - 1).
    pub fn faults(&self) -> u64
        ensures { result ≡ self.now.faults }
    {
        self.faults
    }

    /// Returns the device, and forgets the count.
    pub fn into_device(self) -> D
        ensures { result ≡ self.device }
    {
        self.device
    }
}

impl<W: Write> Counted<W> {
    /// Writes all bytes and flushes the device, in as many calls as needed. What was written is
    /// always a prefix of `bytes`.
    pub fn write_whole(&mut self, bytes: &[u8]) -> WholeWrite
        ensures prefix { WritesPrefix
            (W.contents self.old.device) (W.contents self.new.device) bytes.now }
        ensures whole { result ≡ WholeWrite.Whole → Appends
            (W.contents self.old.device) (W.contents self.new.device) bytes.now }
        ensures stopped { result ≡ WholeWrite.Stopped → WritesShort
            (W.contents self.old.device) (W.contents self.new.device) bytes.now }

        // `Fault` comes exactly if one more call of the device failed.
        ensures fault { result ≡ WholeWrite.Fault →
            self.new.faults ≡ counted_once self.old.faults }
        ensures no_fault { result ≢ WholeWrite.Fault → self.new.faults ≡ self.old.faults }
    {
        let mut done = 0;
        while done < bytes.len() {
            match self.write_once(&bytes[done..]) {
                None => return WholeWrite::Fault,
                Some(0) => return WholeWrite::Stopped,
                Some(count) => done += count,
            }
        }
        if self.flush() {
            WholeWrite::Whole
        } else {
            WholeWrite::Fault
        }
    }

    /// Writes by one call of the device, which may take any prefix of `bytes`. An interrupted call
    /// took nothing; a call that would block or timed out means that the device is full. Neither is
    /// a fault.
    pub fn write_piece(&mut self, bytes: &[u8]) -> OneWrite
        ensures piece { WritesPiece
            result (W.contents self.old.device) (W.contents self.new.device) bytes.now }

        // `Fault` comes exactly if one more call of the device failed.
        ensures faults { self.new.faults ≡ counted_write result self.old.faults }
    {
        let error = match self.device.write(bytes) {
            Ok(0) => return OneWrite::Stopped,
            Ok(count) => return OneWrite::Bytes(count),
            Err(error) => error,
        };
        match error.kind() {
            ErrorKind::Interrupted => OneWrite::Bytes(0),
            ErrorKind::WouldBlock | ErrorKind::TimedOut => OneWrite::Full,
            _ => {
                self.faults = self.faults.saturating_add(1);
                OneWrite::Fault
            }
        }
    }

    // Makes one write call. Returns how many bytes it took, or none if it failed.
    fn write_once(&mut self, bytes: &[u8]) -> Option<usize>
        ensures { WritesOnce W.contents self.old self.new result bytes.now }
    {
        match self.device.write(bytes) {
            Ok(count) => Some(count),
            Err(_) => {
                self.faults = self.faults.saturating_add(1);
                None
            }
        }
    }

    // Flushes the device. Returns false if that failed.
    fn flush(&mut self) -> bool
        ensures kept { Keeps (W.contents self.old.device) (W.contents self.new.device) }
        ensures fault { self.new.faults
            ≡ if result then self.old.faults else counted_once self.old.faults }
    {
        if self.device.flush().is_err() {
            self.faults = self.faults.saturating_add(1);
            return false;
        }
        true
    }
}

impl<R: Read> Counted<R> {
    /// Reads by one call of the device into the front of `buffer`.
    pub fn read_piece(&mut self, buffer: &mut [u8]) -> OneRead
        requires { 0 < length buffer.old }
        ensures piece { ReadsPiece
            result (R.remaining self.old.device) (R.remaining self.new.device) buffer.new }

        // `Fault` comes exactly if one more call of the device failed.
        ensures faults { self.new.faults ≡ counted_read result self.old.faults }
    {
        match self.device.read(buffer) {
            Ok(0) => OneRead::End,
            Ok(count) => OneRead::Bytes(count),
            Err(_) => {
                self.faults = self.faults.saturating_add(1);
                OneRead::Fault
            }
        }
    }
}
