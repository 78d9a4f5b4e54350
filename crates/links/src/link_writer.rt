// Writing a link.
//
// A writer has the parts of the parcels that were added and are not yet written. A write cuts them
// into frames of at most 64 KiB, so small parcels share a frame and its tag, and large ones have
// several; each frame is written by itself, so that no second copy of a log is made. Once a write
// has failed the other end may have a part of a frame, so that is final.

ghost use Rattle.std.specs.Prelude.{◌≡◌, ◌⊎◌, ◌++◌, ◌<◌, ◌≤◌, ◌↔◌, [], true, false, length, OnOk, OnErr, IsErrOf};
ghost use Rattle.std.specs.Io.KnownBytes.{Appends, Keeps};
ghost use Rattle.links.specs.frames.Parts.{parts_of};
ghost use Rattle.links.specs.seal.Frames.{moved_on};
ghost use Rattle.links.specs.seal.FrameStreams.{all_sealed, sealed};
ghost use Rattle.links.specs.declared.parcel.Parcel.TheVariants as parcels;
ghost use Rattle.links.specs.Devices.{WritesPrefix};
ghost use Rattle.links.specs.Links.{max_parcel, place_after};
ghost use Rattle.links.specs.Room.{IsTooLarge};
ghost use Rattle.links.specs.Written.{IsCarried, IsTooLong, after_write, frames_of, sealed_parts};
ghost use Rattle.links.specs.Written.{with_parcel};

use crate::devices::{DeviceFault, write_whole};
use crate::frames::write_parts;
use crate::link_reader::{MAX_FRAME, MAX_PARCEL};
use crate::message_form::{WriteFault, write_message};
use crate::parcel::Parcel;
use crate::parcel_writers::write_parcel;
use crate::seal::{SealError, Sealer};
use ballot_base::Message;
use broker_spec::Command;
use machine::MEMORY_TEXT;
use std::alloc::Global;
use std::error::Error;
use std::fmt;
use std::io::Write;
use std::marker::Model;

/// Why a link is not written any more.
#[derive(Clone, Copy, Debug, PartialEq, Eq)]
pub enum LinkWriteError {
    /// The device takes no more.
    Device(DeviceFault),
    /// 2^64 - 1 frames were written.
    Spent,
    /// Memory ran out for a frame.
    Memory,
    /// An earlier write failed.
    Failed,
}

impl fmt::Display for LinkWriteError {
    fn fmt<W: fmt::Write>(&self, f: &mut fmt::Formatter<W>) -> fmt::Result {
        match self {
            LinkWriteError::Device(fault) => write!(f, "{fault}"),
            LinkWriteError::Spent => write!(f, "the link has no number left for a frame"),
            LinkWriteError::Memory => write!(f, "{MEMORY_TEXT}"),
            LinkWriteError::Failed => write!(f, "the link has failed before"),
        }
    }
}

impl Error for LinkWriteError {}

/// Writes parcels in frames, to any device.
#[derive(Drop)]
pub struct LinkWriter {
    sealer: Sealer,
    // The bytes of one parcel.
    parcel: Vec<u8>,
    // The parts that are not yet written.
    parts: Vec<u8>,
    // One frame with its length and its tag.
    frame: Vec<u8>,
    // True once a write has failed.
    failed: bool,
}

impl Model for LinkWriter {
    ghost use Rattle.links.specs.Written.{WriterView};

    ghost Value = { WriterView };

    ghost view = { λ writer. record {
      place = writer.sealer;
      parts = writer.parts.items;
      failed = writer.failed;
    } };
}

impl LinkWriter {
    /// Returns a writer to which no parcel was added.
    pub fn new(alloc: Global, sealer: Sealer) -> LinkWriter
        ensures { result ≡ record { place = sealer; parts = []; failed = false } }
    {
        LinkWriter {
            sealer,
            parcel: Vec::new(alloc),
            parts: Vec::new(alloc),
            frame: Vec::new(alloc),
            failed: false,
        }
    }

    /// Adds a parcel after those that were added. `TooLarge` comes only if it cannot be written or
    /// has more than 1 GiB, and then always, except that memory may run out for the bytes of a long
    /// one before all are counted. After an error nothing has changed: the parcel is not sent.
    pub fn add(&mut self, parcel: &Parcel) -> Result<(), WriteFault>
        ensures ok { OnOk result (self.new ≡ with_parcel self.old parcel.now) }
        ensures carried { OnOk result (IsCarried parcel.now) }
        ensures large { IsErrOf result WriteFault.TooLarge → IsTooLong parcel.now }
        ensures unwritten { IsTooLarge parcel.now → IsErrOf result WriteFault.TooLarge }
        ensures always { IsTooLong parcel.now
            → IsErrOf result WriteFault.TooLarge ⊎ IsErrOf result WriteFault.Memory }
        ensures err { OnErr result (self.new ≡ self.old) }
    {
        self.parcel.clear();
        write_parcel(parcel, &mut self.parcel)?;
        append_parts(&self.parcel, &mut self.parts)
    }

    /// Adds a message as [`LinkWriter::add`] adds its parcel.
    pub fn add_message(&mut self, message: &Message<Command>) -> Result<(), WriteFault>
        ensures ok { OnOk result (self.new ≡ with_parcel self.old (parcels.Message message.now)) }
        ensures carried { OnOk result (IsCarried (parcels.Message message.now)) }
        ensures large { IsErrOf result WriteFault.TooLarge
            → IsTooLong (parcels.Message message.now) }
        ensures unwritten { IsTooLarge (parcels.Message message.now)
            → IsErrOf result WriteFault.TooLarge }
        ensures always { IsTooLong (parcels.Message message.now)
            → IsErrOf result WriteFault.TooLarge ⊎ IsErrOf result WriteFault.Memory }
        ensures err { OnErr result (self.new ≡ self.old) }
    {
        self.parcel.clear();
        write_message(message, &mut self.parcel)?;
        append_parts(&self.parcel, &mut self.parts)
    }

    /// Writes all that was added, in frames; one empty frame if nothing was, as a sign of life.
    /// What was written is always a prefix of that. A fault is final.
    pub fn write<D: Write>(&mut self, device: &mut D) -> Result<(), LinkWriteError>
        ensures whole { OnOk result (Appends
            (D.contents device.old) (D.contents device.new) (sealed_parts self.old)) }
        ensures next { OnOk result (self.new ≡ after_write self.old) }
        ensures prefix { WritesPrefix
            (D.contents device.old) (D.contents device.new) (sealed_parts self.old) }
        ensures ended { OnErr result (self.new.failed ≡ true) }
        ensures failed { IsErrOf result LinkWriteError.Failed ↔ (self.old.failed ≡ true) }
        ensures none { (self.old.failed ≡ true) → Keeps
            (D.contents device.old) (D.contents device.new) }
    {
        if self.failed {
            return Err(LinkWriteError::Failed);
        }
        let written = write_frames(&mut self.sealer, &mut self.frame, &self.parts, device);
        match written {
            Ok(()) => self.parts.clear(),
            Err(_) => self.failed = true,
        }
        written
    }
}

// Appends the parts of a parcel with these bytes, if they are not too many.
fn append_parts(parcel: &[u8], parts: &mut Vec<u8>) -> Result<(), WriteFault>
    ensures ok { OnOk result (parts.new.items ≡ parts.old.items ++ parts_of parcel.now) }
    ensures short { OnOk result (length parcel.now ≤ max_parcel) }
    ensures large { IsErrOf result WriteFault.TooLarge → max_parcel < length parcel.now }
    ensures err { OnErr result (parts.new.items ≡ parts.old.items) }
{
    if parcel.len() > MAX_PARCEL {
        return Err(WriteFault::TooLarge);
    }
    write_parts(parcel, parts)?;
    Ok(())
}

// Writes parts in frames.
fn write_frames<D: Write>(
    sealer: &mut Sealer,
    buffer: &mut Vec<u8>,
    parts: &[u8],
    device: &mut D,
) -> Result<(), LinkWriteError>
    ensures whole { OnOk result (Appends (D.contents device.old) (D.contents device.new)
        (all_sealed sealer.old (frames_of parts.now))) }
    ensures next { OnOk result (sealer.new ≡ place_after sealer.old (frames_of parts.now)) }
    ensures prefix { WritesPrefix (D.contents device.old) (D.contents device.new)
        (all_sealed sealer.old (frames_of parts.now)) }
    ensures failed { IsErrOf result LinkWriteError.Failed → ⊥ }
{
    let mut rest = parts;
    'frames: while rest.len() > MAX_FRAME {
        let (frame, behind) = rest.split_at(MAX_FRAME);
        write_frame(sealer, buffer, frame, device)?;
        rest = behind;
    }
    write_frame(sealer, buffer, rest, device)
}

// Writes a frame.
fn write_frame<D: Write>(
    sealer: &mut Sealer,
    buffer: &mut Vec<u8>,
    frame: &[u8],
    device: &mut D,
) -> Result<(), LinkWriteError>
    requires { length frame.now ≤ 65536 }
    ensures whole { OnOk result (Appends (D.contents device.old) (D.contents device.new)
        (sealed sealer.old frame.now)) }
    ensures next { OnOk result (sealer.new ≡ moved_on sealer.old) }
    ensures prefix { WritesPrefix (D.contents device.old) (D.contents device.new)
        (sealed sealer.old frame.now) }
    ensures failed { IsErrOf result LinkWriteError.Failed → ⊥ }
{
    buffer.clear();
    match sealer.write(frame, buffer) {
        Ok(()) => {}
        Err(SealError::Memory) => return Err(LinkWriteError::Memory),
        Err(SealError::Spent) => return Err(LinkWriteError::Spent),
    }
    match write_whole(device, buffer) {
        Ok(()) => Ok(()),
        Err(fault) => Err(LinkWriteError::Device(fault)),
    }
}
