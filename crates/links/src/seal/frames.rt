// Sealing frames, and opening them.

ghost use Rattle.std.specs.Prelude.{◌≡◌, ◌≢◌, ◌⊎◌, ◌+◌, ◌<◌, ◌≤◌, ◌^◌, ◌↔◌, ◌++◌, true, false, length, take, vec_len, vec_capacity, IfSome, IfNone, IsOk, IsErrOf, OnErr, OnOk};
ghost use Rattle.links.specs.seal.Frames.{frame_tag, moved_on, spent};
ghost use Rattle.links.specs.seal.FrameStreams.{sealed};

use crate::seal::keyed_hash::hmac;
use machine::MEMORY_TEXT;
use std::alloc::AllocError;
use std::error::Error;
use std::fmt;
use std::marker::Model;

/// Bytes of a tag.
pub const TAG_BYTES: usize = 16;

/// Bytes of a frame's length, before it.
pub(crate) const LENGTH_BYTES: usize = 4;

/// The tag of a frame.
pub type Tag = [u8; TAG_BYTES];

/// Seals the frames of one direction of a connection.
#[derive(Drop)]
pub struct Sealer {
    key: [u8; 32],
    next: u64,
}

impl Model for Sealer {
    ghost use Rattle.links.specs.seal.Frames.{Place};

    ghost Value = { Place };

    ghost view = { λ sealer. record { key = sealer.key; next = sealer.next } };
}

impl Sealer {
    /// Begins a direction: its first frame has number 0.
    pub fn new(key: [u8; 32]) -> Sealer
        ensures { result ≡ record { key = key; next = 0 } }
    {
        Sealer { key, next: 0 }
    }

    /// Returns the tag of the next frame; `None` once 2^64 - 1 frames were sealed.
    pub fn seal(&mut self, frame: &[u8]) -> Option<Tag>
        ensures tag { IfSome result (λ tag.
            tag ≡ frame_tag self.old.key self.old.next frame.now) }
        ensures next { IfSome result (λ tag. self.new ≡ moved_on self.old) }
        ensures none { IfNone result ((self.old.next ≡ spent) × (self.new ≡ self.old)) }
    {
        if self.next == u64::MAX {
            return None;
        }
        let tag = tag_of(&self.key, self.next, frame);
        self.next += 1;
        Some(tag)
    }

    /// Appends the next frame, with its length before it and its tag behind it. `Spent` comes
    /// exactly once 2^64 - 1 frames were sealed; `Memory` only if the vector had too little
    /// capacity and could not grow. After an error nothing has changed.
    pub fn write(&mut self, frame: &[u8], out: &mut Vec<u8>) -> Result<(), SealError>
        requires { length frame.now < 2 ^ 32 }
        ensures ok { OnOk result (out.new.items ≡ out.old.items ++ sealed self.old frame.now) }
        ensures next { OnOk result (self.new ≡ moved_on self.old) }
        ensures spent { IsErrOf result SealError.Spent ↔ (self.old.next ≡ spent) }
        ensures full { IsErrOf result SealError.Memory
            → vec_capacity out.old < vec_len out.old + (length frame.now + 20) }
        ensures same { OnErr result ((out.new.items ≡ out.old.items) × (self.new ≡ self.old)) }
    {
        if self.next == u64::MAX {
            return Err(SealError::Spent);
        }
        out.reserve(frame.len() + (LENGTH_BYTES + TAG_BYTES))?;
        let tag = tag_of(&self.key, self.next, frame);
        self.next += 1;
        put_bytes(&(frame.len() as u32).to_be_bytes(), out);
        put_bytes(frame, out);
        put_bytes(&tag, out);
        Ok(())
    }
}

/// Why a frame was not written.
#[derive(Clone, Copy, Debug, PartialEq, Eq)]
pub enum SealError {
    /// Memory ran out.
    Memory,
    /// 2^64 - 1 frames were sealed in this direction.
    Spent,
}

impl fmt::Display for SealError {
    fn fmt<W: fmt::Write>(&self, f: &mut fmt::Formatter<W>) -> fmt::Result {
        let text = match self {
            SealError::Memory => MEMORY_TEXT,
            SealError::Spent => "the connection has no number left for a frame",
        };
        write!(f, "{text}")
    }
}

impl Error for SealError {}

impl From<AllocError> for SealError {
    ghost use Rattle.links.specs.declared.seal.frames.SealError.TheVariants.{Memory};

    ghost from_gives = { λ _ error. error ≡ Memory };

    fn from(_error: AllocError) -> SealError {
        SealError::Memory
    }
}

// Appends bytes.
fn put_bytes(bytes: &[u8], out: &mut Vec<u8>)
    requires { vec_len out.old + length bytes.now ≤ vec_capacity out.old }
    ensures items { out.new.items ≡ out.old.items ++ bytes.now }
    ensures len { vec_len out.new ≡ vec_len out.old + length bytes.now }
    ensures capacity { vec_capacity out.old ≤ vec_capacity out.new }
{
    out.extend_from_slice(bytes).unwrap();
}

/// Why a frame was not accepted.
#[derive(Clone, Copy, Debug, PartialEq, Eq)]
pub enum SealFault {
    /// It does not bear its tag: it was altered, left out, repeated or moved, or is of another
    /// connection or key. Nothing is accepted from now on.
    Tag,
    /// An earlier frame was refused, or 2^64 - 1 were accepted.
    Failed,
}

impl fmt::Display for SealFault {
    fn fmt<W: fmt::Write>(&self, f: &mut fmt::Formatter<W>) -> fmt::Result {
        let text = match self {
            SealFault::Tag => "a frame does not bear its tag",
            SealFault::Failed => "the connection has failed before",
        };
        write!(f, "{text}")
    }
}

impl Error for SealFault {}

/// Accepts the frames of one direction of a connection, each only with the tag of its place.
#[derive(Drop)]
pub struct Opener {
    key: [u8; 32],
    next: u64,
    failed: bool,
}

impl Model for Opener {
    ghost use Rattle.links.specs.seal.Frames.{Opening};

    ghost Value = { Opening };

    ghost view = { λ opener. record {
      place = record { key = opener.key; next = opener.next };
      failed = opener.failed;
    } };
}

impl Opener {
    /// Begins a direction: its first frame has number 0.
    pub fn new(key: [u8; 32]) -> Opener
        ensures { result ≡ record { place = record { key = key; next = 0 }; failed = false } }
    {
        Opener {
            key,
            next: 0,
            failed: false,
        }
    }

    /// Returns true once a frame was refused.
    pub(crate) fn has_failed(&self) -> bool
        ensures { result ≡ self.now.failed }
    {
        self.failed
    }

    /// Returns true if no frame is accepted any more.
    pub(crate) fn is_shut(&self) -> bool
        ensures shut { result ≡ true
            → (self.now.failed ≡ true) ⊎ (self.now.place.next ≡ spent) }
        ensures may_pass { result ≡ false
            → (self.now.failed ≡ false) × (self.now.place.next < spent) }
    {
        self.failed || self.next == u64::MAX
    }

    /// Returns true if a frame bears the tag of the next place.
    pub(crate) fn bears(&self, frame: &[u8], tag: &Tag) -> bool
        ensures { (result ≡ true)
            ↔ (tag.now ≡ frame_tag self.now.place.key self.now.place.next frame.now) }
    {
        are_equal(tag, &tag_of(&self.key, self.next, frame))
    }

    /// Goes on to the next place, which is there.
    pub(crate) fn pass(&mut self)
        requires { self.old.place.next < spent }
        ensures { self.new ≡ record self.old { place = moved_on self.old.place } }
    {
        self.next += 1;
    }

    /// Accepts nothing from now on.
    pub(crate) fn fail(&mut self)
        ensures { self.new ≡ record self.old { failed = true } }
    {
        self.failed = true;
    }

    /// Accepts the next frame if it bears its tag. After one that does not, nothing is accepted.
    pub fn accept(&mut self, frame: &[u8], tag: &Tag) -> Result<(), SealFault>
        ensures ok { IsOk result ↔ ((self.old.failed ≡ false) × (self.old.place.next < spent)
            × (tag.now ≡ frame_tag self.old.place.key self.old.place.next frame.now)) }
        ensures next { OnOk result
            (self.new ≡ record self.old { place = moved_on self.old.place }) }
        ensures tag { IsErrOf result SealFault.Tag →
            (tag.now ≢ frame_tag self.old.place.key self.old.place.next frame.now)
            × (self.new ≡ record self.old { failed = true }) }
        ensures failed { IsErrOf result SealFault.Failed ↔
            ((self.old.failed ≡ true) ⊎ (self.old.place.next ≡ spent)) }
        ensures same { IsErrOf result SealFault.Failed → self.new ≡ self.old }
    {
        if self.failed || self.next == u64::MAX {
            return Err(SealFault::Failed);
        }
        if !are_equal(tag, &tag_of(&self.key, self.next, frame)) {
            self.failed = true;
            return Err(SealFault::Tag);
        }
        self.next += 1;
        Ok(())
    }
}

// Returns the tag of a frame.
fn tag_of(key: &[u8; 32], number: u64, frame: &[u8]) -> Tag
    ensures { result ≡ frame_tag key.now number frame.now }
{
    let length = frame.len() as u64;
    let whole = hmac(key, &number.to_be_bytes(), &length.to_be_bytes(), frame);
    first_bytes(&whole)
}

// Returns the first bytes of a hash.
fn first_bytes(whole: &[u8; 32]) -> Tag
    ensures { result ≡ take 16 whole.now }
{
    let mut tag = [0; TAG_BYTES];
    tag.copy_from_slice(&whole[..TAG_BYTES]);
    tag
}

// Returns true if two tags are equal. Each byte is looked at, so that the time says nothing of
// where they differ.
fn are_equal(first: &Tag, second: &Tag) -> bool
    ensures { (result ≡ true) ↔ (first.now ≡ second.now) }
{
    let mut is_equal = true;
    'bytes: for index in 0..TAG_BYTES {
        is_equal &= first[index] == second[index];
    }
    is_equal
}
