// Reads and writes of a device.

ghost use Rattle.std.specs.Prelude.{◌<◌, length, OnOk};
ghost use Rattle.std.specs.Io.KnownBytes.{Appends};
ghost use Rattle.links.specs.Devices.{ReadsPiece, WritesOnce, WritesPrefix};

use std::error::Error;
use std::fmt;
use std::io::{Read, Write};

/// Why a device gives or takes no more bytes.
#[derive(Clone, Copy, Debug, PartialEq, Eq)]
pub enum DeviceFault {
    /// It has no more bytes, or takes none, and no call failed.
    Ended,
    /// A call of it failed; one that was interrupted or timed out has failed as well.
    Failed,
}

impl fmt::Display for DeviceFault {
    fn fmt<W: fmt::Write>(&self, f: &mut fmt::Formatter<W>) -> fmt::Result {
        let text = match self {
            DeviceFault::Ended => "the connection has ended",
            DeviceFault::Failed => "the connection has failed",
        };
        write!(f, "{text}")
    }
}

impl Error for DeviceFault {}

/// Writes all bytes and flushes the device, in as many calls as needed. What was written is always
/// a prefix of `bytes`.
pub(crate) fn write_whole<W: Write>(device: &mut W, bytes: &[u8]) -> Result<(), DeviceFault>
    ensures whole { OnOk result
        (Appends (W.contents device.old) (W.contents device.new) bytes.now) }
    ensures prefix { WritesPrefix
        (W.contents device.old) (W.contents device.new) bytes.now }
{
    let mut done = 0;
    while done < bytes.len() {
        match write_once(device, &bytes[done..]) {
            None => return Err(DeviceFault::Failed),
            Some(0) => return Err(DeviceFault::Ended),
            Some(count) => done += count,
        }
    }
    match device.flush() {
        Ok(()) => Ok(()),
        Err(_) => Err(DeviceFault::Failed),
    }
}

// Makes one write call. Returns how many bytes it took, or none if it failed.
fn write_once<W: Write>(device: &mut W, bytes: &[u8]) -> Option<usize>
    ensures { WritesOnce (W.contents device.old) (W.contents device.new) result bytes.now }
{
    match device.write(bytes) {
        Ok(count) => Some(count),
        Err(_) => None,
    }
}

/// Reads by one call of the device into the front of `buffer`.
pub(crate) fn read_piece<R: Read>(device: &mut R, buffer: &mut [u8]) -> Result<usize, DeviceFault>
    requires { 0 < length buffer.old }
    ensures { ReadsPiece
        result (R.remaining device.old) (R.remaining device.new) buffer.new }
{
    match device.read(buffer) {
        Ok(0) => Err(DeviceFault::Ended),
        Ok(count) => Ok(count),
        Err(_) => Err(DeviceFault::Failed),
    }
}
