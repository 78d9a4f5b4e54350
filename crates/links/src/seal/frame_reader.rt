// Reading the frames of one direction of a connection.
//
// A reader is a buffer of the bytes that are not taken yet, which begins where a frame begins. A
// length over the limit is refused before its bytes are waited for, and a frame is handed out only
// once its tag was compared. A fault is final, since no frame after it is known to be the next.

ghost use Rattle.std.specs.Prelude.{◌≡◌, ◌≢◌, ◌++◌, ◌+◌, ◌<◌, ◌≤◌, ◌↔◌, [], true, false, drop, take, length, IfOk, IfErr, IfSome, IsSomeAnd, IfNone, OnOk};
ghost use Rattle.std.specs.Prelude.{OnErr, IsErrOf};
ghost use Rattle.std.specs.Int.{w32, to_be_bytes};
ghost use Rattle.links.specs.seal.FrameStreams.{Accepts, Waits, Refuses, IsFront, IsOpen, IsWhole, IsShut, sealed};

use crate::seal::frames::{LENGTH_BYTES, Opener, TAG_BYTES, Tag};
use bytes::{Buf, BytesMut};
use machine::MEMORY_TEXT;
use std::alloc::{AllocError, Global};
use std::error::Error;
use std::fmt;
use std::marker::Model;

/// Bytes of a frame beside its own: its length and its tag.
const AROUND_BYTES: usize = LENGTH_BYTES + TAG_BYTES;

/// Why a call of a [`FrameReader`] fails.
#[derive(Clone, Copy, Debug, PartialEq, Eq)]
pub enum FrameError {
    /// A frame is longer than the limit.
    TooLong,
    /// A frame does not bear its tag: it was altered, left out, repeated or moved, or is of another
    /// connection, cluster or key.
    Tag,
    /// Memory ran out; the reader is unchanged.
    Memory,
    /// An earlier frame was refused, or 2^64 - 1 were accepted.
    Failed,
}

impl fmt::Display for FrameError {
    fn fmt<W: fmt::Write>(&self, f: &mut fmt::Formatter<W>) -> fmt::Result {
        let text = match self {
            FrameError::TooLong => "a frame is too long",
            FrameError::Tag => "a frame does not bear its tag",
            FrameError::Memory => MEMORY_TEXT,
            FrameError::Failed => "the connection has failed before",
        };
        write!(f, "{text}")
    }
}

impl Error for FrameError {}

impl From<AllocError> for FrameError {
    ghost use Rattle.std.specs.Prelude.{◌≡◌};
    ghost use Rattle.links.specs.declared.seal.frame_reader.FrameError.TheVariants.{Memory};

    ghost from_gives = { λ _ error. error ≡ Memory };

    fn from(_error: AllocError) -> FrameError {
        FrameError::Memory
    }
}

/// What stands at the front of a stream of frames.
#[derive(Clone, Copy, Debug, PartialEq, Eq)]
pub enum FrameFront {
    /// The beginning of a frame.
    Unfinished,
    /// A length over the limit.
    TooLong,
    /// A frame of this length, with a tag.
    Whole(usize),
}

/// Takes the frames of one direction from a stream of bytes, in whatever chunks they come, each
/// only with the tag of its place.
pub struct FrameReader {
    // The most bytes of a frame.
    limit: usize,
    opener: Opener,
    bytes: BytesMut,
    alloc: Global,
}

impl Drop for FrameReader {
    fn drop(self) {
        let FrameReader {
            limit: _,
            opener: _opener,
            bytes: _bytes,
            alloc: _,
        } = self;
    }
}

impl Model for FrameReader {
    ghost use Rattle.links.specs.seal.FrameStreams.{FrameStream};

    ghost Value = { FrameStream };

    ghost view = { λ reader. record {
      place = reader.opener.place;
      limit = reader.limit;
      bytes = reader.bytes.items;
      failed = reader.opener.failed;
    } };
}

impl FrameReader {
    /// Returns a reader of the frames that an opener accepts, each of at most `limit` bytes.
    pub fn new(alloc: Global, opener: Opener, limit: usize) -> FrameReader
        ensures { result ≡ record {
          place = opener.place;
          limit = limit;
          bytes = [];
          failed = opener.failed;
        } }
    {
        FrameReader {
            limit,
            opener,
            bytes: BytesMut::new(alloc),
            alloc,
        }
    }

    /// Appends the next chunk of the stream. After `Memory`, which an empty chunk never gets,
    /// nothing has changed; `Failed` comes exactly after a frame was refused.
    pub fn feed(&mut self, chunk: &[u8]) -> Result<(), FrameError>
        ensures ok { OnOk result
            (self.new ≡ record self.old { bytes = self.old.bytes ++ chunk.now }) }
        ensures failed { IsErrOf result FrameError.Failed ↔ (self.old.failed ≡ true) }
        ensures fault { OnErr result (self.new ≡ self.old) }
        ensures memory { (self.old.failed ≡ false)
            → OnErr result (IsErrOf result FrameError.Memory) }
        ensures nothing { IsErrOf result FrameError.Memory → 0 < length chunk.now }
    {
        if self.opener.has_failed() {
            return Err(FrameError::Failed);
        }
        self.bytes.extend_from_slice(chunk)?;
        Ok(())
    }

    /// Takes the next frame, once all of it was received and if it bears its tag. A fault is
    /// returned once, and `Failed` from then on. After `Memory`, which comes only if a frame of at
    /// least one byte is there that bears its tag, nothing has changed.
    pub fn next(&mut self) -> Result<Option<Vec<u8>>, FrameError>
        ensures frame { IfOk result (λ found. IfSome found (λ frame.
            Accepts self.old frame.items self.new)) }
        ensures none { IfOk result (λ found. IfNone found (Waits self.old self.new)) }
        ensures refused { IfErr result (λ error. Refuses self.old error self.new) }
    {
        if self.opener.is_shut() {
            return Err(FrameError::Failed);
        }
        match front_of(&self.bytes, self.limit) {
            FrameFront::Unfinished => Ok(None),
            FrameFront::TooLong => {
                self.opener.fail();
                Err(FrameError::TooLong)
            }
            FrameFront::Whole(len) => self.take(len),
        }
    }

    // Takes the frame of this length at the front, if it bears its tag.
    fn take(&mut self, len: usize) -> Result<Option<Vec<u8>>, FrameError>
        requires open_before { IsOpen self.old }
        requires whole { IsWhole self.old.limit self.old.bytes len }
        ensures frame { IfOk result (λ found. IsSomeAnd found (λ frame.
            Accepts self.old frame.items self.new)) }
        ensures refused { IfErr result (λ error. Refuses self.old error self.new) }
    {
        match opened(self.alloc, &self.opener, &self.bytes, len) {
            Ok(frame) => {
                self.bytes.advance(len + AROUND_BYTES);
                self.opener.pass();
                Ok(Some(frame))
            }
            Err(FrameError::Memory) => Err(FrameError::Memory),
            Err(error) => {
                self.opener.fail();
                Err(error)
            }
        }
    }
}

// Returns what stands at the front.
fn front_of(bytes: &[u8], limit: usize) -> FrameFront
    ensures { IsFront limit bytes.now result }
{
    if bytes.len() < LENGTH_BYTES {
        return FrameFront::Unfinished;
    }
    let len = u32::from_be_bytes([bytes[0], bytes[1], bytes[2], bytes[3]]) as usize;
    if len > limit {
        return FrameFront::TooLong;
    }
    if bytes.len() < len + AROUND_BYTES {
        return FrameFront::Unfinished;
    }
    FrameFront::Whole(len)
}

// Returns the frame at the front, if it bears its tag.
fn opened(alloc: Global, opener: &Opener, bytes: &[u8], len: usize) -> Result<Vec<u8>, FrameError>
    requires long { len + 20 ≤ length bytes.now }
    requires begins { take 4 bytes.now ≡ to_be_bytes w32 len }
    ensures ok { IfOk result (λ frame. (length frame.items ≡ len)
        × (bytes.now ≡ sealed opener.now.place frame.items ++ drop (len + 20) bytes.now)) }
    ensures err { IfErr result (IsShut opener.now.place bytes.now) }
{
    let (_, behind) = bytes.split_at(LENGTH_BYTES);
    let (frame, tag) = behind.split_at(len);
    if !opener.bears(frame, &tag_at(tag)) {
        return Err(FrameError::Tag);
    }
    let mut taken = Vec::new(alloc);
    taken.extend_from_slice(frame)?;
    Ok(taken)
}

// Returns the tag at the front of these bytes.
fn tag_at(bytes: &[u8]) -> Tag
    requires { 16 ≤ length bytes.now }
    ensures { result ≡ take 16 bytes.now }
{
    let mut tag = [0; TAG_BYTES];
    let (front, _) = bytes.split_at(TAG_BYTES);
    tag.copy_from_slice(front);
    tag
}
