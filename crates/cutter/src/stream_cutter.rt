// Taking packets from the front of a stream.
//
// A cutter is a buffer of the bytes that are not taken yet, which begins at a packet boundary, and
// a flag. The packets that come out depend on the bytes alone and not on how they were split into
// chunks: `decode` is stateless, and each call of `next` starts at the front of the buffer. A fault
// of the stream is final, since no boundary after it is known: it is reported once, the bytes stay,
// and every later call is `Failed`. That memory ran out is no fault: the buffer is unchanged and
// the call can be repeated. Taking a packet advances the front of a `BytesMut` and moves no byte.
// The cutter does not bound its buffer; `decode` refuses a packet over the limit by its length, and
// whoever feeds decides how much to read.

ghost use Rattle.std.specs.Prelude.{◌≡◌, ◌++◌, ◌<◌, ◌↔◌, [], true, false, length, OnOk};
ghost use Rattle.std.specs.Prelude.{OnErr, IsErrOf};
ghost use Rattle.cutter.specs.Stream.{Takes};

use crate::error::CutError;
use bytes::{Buf, BytesMut};
use packet::{DecodeFault, Packet, Step, decode};
use std::alloc::Global;
use std::marker::Model;
use topics::MalformedKind;

/// The bytes of a stream that were received and not yet taken. The packets do not depend on how the
/// stream is split into chunks.
pub struct Cutter {
    // From the first byte of the next packet.
    bytes: BytesMut,
    // True once the stream had a fault. From then on no bytes are accepted and no packet is taken.
    failed: bool,
    alloc: Global,
}

impl Drop for Cutter {
    fn drop(self) {
        let Cutter {
            bytes: _bytes,
            failed: _,
            alloc: _,
        } = self;
    }
}

impl Model for Cutter {
    ghost use Rattle.cutter.specs.Stream.{Stream};

    ghost Value = { Stream };

    ghost view = { λ cutter. record { bytes = cutter.bytes.items; failed = cutter.failed } };
}

impl Cutter {
    /// Returns a cutter at the beginning of a stream.
    pub fn new(alloc: Global) -> Cutter
        ensures { result ≡ record { bytes = []; failed = false } }
    {
        Cutter {
            bytes: BytesMut::new(alloc),
            failed: false,
            alloc,
        }
    }

    /// Returns how many bytes were received and not yet taken.
    pub fn len(&self) -> usize
        ensures { result ≡ length self.now.bytes }
    {
        self.bytes.len()
    }

    /// Appends the next chunk of the stream. After `Memory`, which an empty chunk never gets,
    /// nothing has changed; `Failed` comes exactly after a fault of the stream.
    pub fn feed(&mut self, piece: &[u8]) -> Result<(), CutError>
        ensures ok { OnOk result
            (self.new ≡ record self.old { bytes = self.old.bytes ++ piece.now }) }
        ensures failed { IsErrOf result CutError.Failed ↔ (self.old.failed ≡ true) }
        ensures fault { OnErr result (self.new ≡ self.old) }
        ensures memory { (self.old.failed ≡ false) → OnErr result (IsErrOf result CutError.Memory) }
        ensures nothing { IsErrOf result CutError.Memory → 0 < length piece.now }
    {
        if self.failed {
            return Err(CutError::Failed);
        }
        self.bytes.extend_from_slice(piece)?;
        Ok(())
    }

    /// Takes the next packet, if all of it was received. A fault of the stream is returned once,
    /// and `Failed` from then on. After `Memory`, which comes only if `decode` needs memory,
    /// nothing has changed.
    pub fn next(&mut self) -> Result<Option<Packet>, CutError>
        ensures { Takes self.old result self.new }
    {
        if self.failed {
            return Err(CutError::Failed);
        }
        match decode(self.alloc, &self.bytes) {
            Ok(Step::Whole(packet, len)) => {
                self.bytes.advance(len);
                Ok(Some(packet))
            }
            Ok(Step::More) => Ok(None),
            Err(DecodeFault::Malformed(MalformedKind::Memory)) => Err(CutError::Memory),
            Err(fault) => {
                self.failed = true;
                Err(CutError::Decode(fault))
            }
        }
    }
}
