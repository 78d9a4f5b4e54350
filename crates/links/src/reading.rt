// Reading a link from a device.

ghost use Rattle.std.specs.Prelude.{◌<◌, length};
ghost use Rattle.links.specs.Reading.{HandsOver, Reads};

use crate::devices::{DeviceFault, read_piece};
use crate::link_fault::LinkFault;
use crate::link_reader::LinkReader;
use crate::sink::ParcelSink;
use std::error::Error;
use std::fmt;
use std::io::Read;

/// Why a link is not read any more.
#[derive(Clone, Copy, Debug, PartialEq, Eq)]
pub enum LinkReadError {
    /// The device gives no more bytes. The reader has not changed.
    Device(DeviceFault),
    /// The bytes have this fault, which is final.
    Link(LinkFault),
}

impl fmt::Display for LinkReadError {
    fn fmt<W: fmt::Write>(&self, f: &mut fmt::Formatter<W>) -> fmt::Result {
        match self {
            LinkReadError::Device(fault) => write!(f, "{fault}"),
            LinkReadError::Link(fault) => write!(f, "{fault}"),
        }
    }
}

impl Error for LinkReadError {}

/// Reads by one call of the device, into the buffer, and hands the sink all parcels that are whole
/// now. A piece is lost only if memory ran out for it, which is final. After a fault nothing is
/// read.
pub fn read_link<R: Read, S: ParcelSink>(
    reader: &mut LinkReader,
    input: &mut R,
    buffer: &mut [u8],
    sink: &mut S,
) -> Result<(), LinkReadError>
    requires { 0 < length buffer.old }
    ensures { Reads reader.old reader.new result (S.heard sink.old) (S.heard sink.new)
        (R.remaining input.old) (R.remaining input.new) }
{
    if reader.has_failed() {
        return Err(LinkReadError::Link(LinkFault::Failed));
    }
    let count = match read_piece(input, buffer) {
        Ok(count) => count,
        Err(fault) => return Err(LinkReadError::Device(fault)),
    };
    match reader.add(&buffer[..count]) {
        Ok(()) => match hand_over(reader, sink) {
            Ok(()) => Ok(()),
            Err(fault) => Err(LinkReadError::Link(fault)),
        },
        Err(fault) => Err(LinkReadError::Link(fault)),
    }
}

// Hands the sink all parcels that are whole.
fn hand_over<S: ParcelSink>(reader: &mut LinkReader, sink: &mut S) -> Result<(), LinkFault>
    ensures { HandsOver reader.old reader.new result (S.heard sink.old) (S.heard sink.new) }
{
    'parcels: loop {
        match reader.next() {
            Ok(Some(parcel)) => sink.take(parcel),
            Ok(None) => return Ok(()),
            Err(fault) => return Err(fault),
        }
    }
}
