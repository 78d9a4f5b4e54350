// Reading a link.
//
// A reader has the bytes that are not yet opened, which begin where a frame begins, and the bytes
// of opened frames that are not yet a parcel, which begin where a parcel's parts begin. A frame is
// opened only once no whole parcel is there, so what is held beyond one parcel is one frame. Every
// fault is final: what comes after it is not known to be the next.

ghost use Rattle.std.specs.Prelude.{◌≡◌, ◌++◌, ◌↔◌, ◌∷◌, [], true, false, length, IfOk, IfErr, IfSome, IfNone, OnOk, OnErr, IsErrOf};
ghost use Rattle.links.specs.frames.Fronts.{Begins};
ghost use Rattle.links.specs.frames.Fronts.Front.{unfinished};
ghost use Rattle.links.specs.seal.FrameStreams.{IsUnfinished};
ghost use Rattle.links.specs.Parcels.{parcel_bytes};
ghost use Rattle.links.specs.Links.{Comes, Hands, IsDry};
ghost use Rattle.links.specs.Stands.{FrameStands, IsRefused, PartsStand};
ghost use Rattle.links.specs.Links.{max_frame, max_parcel};
ghost use Rattle.links.specs.Links.{with_bytes};
ghost use Rattle.links.specs.Stands.{Refuses};
ghost use Rattle.links.specs.Inside.{OpensOne, Takes};

use crate::frames::Joiner;
use crate::link_fault::LinkFault;
use crate::parcel::{Parcel, Way};
use crate::parcel_readers::read_parcel;
use crate::seal::{FrameReader, Opener};
use std::alloc::Global;
use std::marker::Model;

/// The most bytes of a frame.
pub const MAX_FRAME: usize = 65_536;

/// The most bytes of a parcel, 1 GiB. Only one with a log has more than 2 MiB.
pub const MAX_PARCEL: usize = 1_073_741_824;

/// Takes the parcels of one direction of a link from its bytes, in whatever chunks they come.
pub struct LinkReader {
    way: Way,
    frames: FrameReader,
    joiner: Joiner,
    // True once a fault was reported.
    failed: bool,
    alloc: Global,
}

impl Drop for LinkReader {
    fn drop(self) {
        let LinkReader {
            way: _,
            frames: _frames,
            joiner: _joiner,
            failed: _,
            alloc: _,
        } = self;
    }
}

impl Model for LinkReader {
    ghost use Rattle.std.specs.Prelude.{◌≡◌, false};
    ghost use Rattle.links.specs.Links.{LinkView, max_frame, max_parcel};

    ghost Value = { LinkView };

    ghost view = { λ reader. record {
      way = reader.way;
      place = reader.frames.place;
      unopened = reader.frames.bytes;
      parts = reader.joiner.bytes;
      failed = reader.failed;
    } };

    ghost invariant = { λ reader. (reader.frames.limit ≡ max_frame)
        × (reader.joiner.limit ≡ max_parcel)
        × (reader.failed ≡ false → reader.frames.failed ≡ false)
        × (reader.failed ≡ false → reader.joiner.failed ≡ false) };
}

impl LinkReader {
    /// Returns a reader of what an opener opens, of which no byte was fed yet.
    pub fn new(alloc: Global, opener: Opener, way: Way) -> LinkReader
        requires { opener.failed ≡ false }
        ensures { result ≡ record {
          way = way;
          place = opener.place;
          unopened = [];
          parts = [];
          failed = false;
        } }
    {
        LinkReader {
            way,
            frames: FrameReader::new(alloc, opener, MAX_FRAME),
            joiner: Joiner::new(alloc, MAX_PARCEL),
            failed: false,
            alloc,
        }
    }

    /// Appends the next chunk of the bytes that were read. After `Memory`, which an empty chunk
    /// never gets, nothing has changed; `Failed` comes exactly after a fault.
    pub fn feed(&mut self, chunk: &[u8]) -> Result<(), LinkFault>
        ensures ok { OnOk result
            (self.new ≡ with_bytes self.old chunk.now) }
        ensures failed { IsErrOf result LinkFault.Failed ↔ (self.old.failed ≡ true) }
        ensures fault { OnErr result (self.new ≡ self.old) }
        ensures memory { (self.old.failed ≡ false)
            → OnErr result (IsErrOf result LinkFault.Memory) }
    {
        if self.failed {
            return Err(LinkFault::Failed);
        }
        match self.frames.feed(chunk) {
            Ok(()) => Ok(()),
            Err(_) => Err(LinkFault::Memory),
        }
    }

    /// Takes the next parcel, once all of it was fed; `None` if it was not. A fault is returned
    /// once, and `Failed` from then on. Where memory runs out a frame or a parcel is lost, so that
    /// is final as well.
    pub fn next(&mut self) -> Result<Option<Parcel>, LinkFault>
        ensures parcel { IfOk result (λ found. IfSome found (λ parcel.
            Hands self.old (parcel ∷ []) self.new)) }
        ensures none { IfOk result (λ found. IfNone found
            (Hands self.old [] self.new × IsDry self.new)) }
        ensures open_before { OnOk result (self.old.failed ≡ false) }
        ensures refused { IfErr result (λ fault. Refuses self.old fault self.new) }
    {
        if self.failed {
            return Err(LinkFault::Failed);
        }
        'frames: loop {
            if let Some(parcel) = self.take_parcel()? {
                return Ok(Some(parcel));
            }
            if !self.open_frame()? {
                return Ok(None);
            }
        }
    }

    /// Returns true once a fault was reported.
    pub(crate) fn has_failed(&self) -> bool
        ensures { result ≡ self.now.failed }
    {
        self.failed
    }

    /// Appends the next chunk, where no fault was reported. If memory runs out that is final.
    pub(crate) fn add(&mut self, chunk: &[u8]) -> Result<(), LinkFault>
        requires { self.old.failed ≡ false }
        ensures ok { OnOk result (self.new ≡ with_bytes self.old chunk.now) }
        ensures fault { OnErr result (IsErrOf result LinkFault.Memory) }
        ensures ended { OnErr result (self.new ≡ record self.old { failed = true }) }
    {
        let added = self.feed(chunk);
        if added.is_err() {
            self.failed = true;
        }
        added
    }

    // Takes the parcel at the front of the parts, if it is whole.
    fn take_parcel(&mut self) -> Result<Option<Parcel>, LinkFault>
        requires { self.old.failed ≡ false }
        ensures parcel { IfOk result (λ found. IfSome found (λ parcel.
            Takes self.old parcel self.new)) }
        ensures none { IfOk result (λ found. IfNone found
            (Begins max_parcel self.old.parts unfinished × (self.new ≡ self.old))) }
        ensures refused { IfErr result (PartsStand self.old) }
        ensures ended { OnErr result (self.new.failed ≡ true) }
    {
        match self.joiner.next() {
            Ok(None) => Ok(None),
            Ok(Some(bytes)) => match parcel_at(self.alloc, self.way, &bytes) {
                Ok(parcel) => Ok(Some(parcel)),
                Err(fault) => {
                    self.failed = true;
                    Err(fault)
                }
            },
            Err(error) => {
                self.failed = true;
                Err(LinkFault::of_join(error))
            }
        }
    }

    // Opens the next frame, if it is whole. Returns whether it was.
    fn open_frame(&mut self) -> Result<bool, LinkFault>
        requires { self.old.failed ≡ false }
        ensures opened { IfOk result (λ was_whole.
            was_whole ≡ true → OpensOne self.old self.new) }
        ensures none { IfOk result (λ was_whole. was_whole ≡ false
            → IsUnfinished max_frame self.old.unopened × (self.new ≡ self.old)) }
        ensures refused { IfErr result (FrameStands self.old) }
        ensures ended { OnErr result (self.new.failed ≡ true) }
    {
        match self.frames.next() {
            Ok(None) => Ok(false),
            Ok(Some(frame)) => match self.joiner.feed(&frame) {
                Ok(()) => Ok(true),
                Err(_) => {
                    self.failed = true;
                    Err(LinkFault::Memory)
                }
            },
            Err(error) => {
                self.failed = true;
                Err(LinkFault::of_frame(error))
            }
        }
    }
}

// Returns the parcel that these bytes are, if it may come this way.
fn parcel_at(alloc: Global, way: Way, bytes: &[u8]) -> Result<Parcel, LinkFault>
    ensures parcel { IfOk result (λ parcel.
        (bytes.now ≡ parcel_bytes parcel) × Comes way parcel) }
    ensures refused { IfErr result (IsRefused way bytes.now) }
{
    let parcel = match read_parcel(alloc, bytes) {
        Ok(parcel) => parcel,
        Err(kind) => return Err(LinkFault::of_kind(kind)),
    };
    match way.fault_of(&parcel) {
        None => Ok(parcel),
        Some(fault) => Err(LinkFault::Way(fault)),
    }
}
