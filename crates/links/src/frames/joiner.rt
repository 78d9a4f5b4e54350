// Joining parts to messages.
//
// A joiner is a buffer of the bytes that are not taken yet, which begins where a message begins,
// and a flag, as a `cutter::Cutter` is. What comes out depends on the bytes alone and not on their
// chunks. The parts at the front that are whole, and after which more of their message come, are
// walked over once: where the walk stands is kept, and no answer depends on it. So a message is
// looked at in time that grows with its bytes and the calls, however it is fed, and is copied once,
// when its last part has come. That needs memory before anything changes. A fault is reported where
// the head of a part shows it, before the part's bytes have come; it is final, since no boundary
// after it is known.

ghost use Rattle.std.specs.Prelude.{◌≡◌, ◌++◌, ◌+◌, ◌<◌, ◌≤◌, ◌↔◌, ℕ, List, [], true, false, length, IfOk, IfErr, IfSome, IfNone, OnOk};
ghost use Rattle.std.specs.Prelude.{OnErr, IsErrOf};
ghost use Rattle.links.specs.frames.Fronts.{Gives, Waits, Refuses};
ghost use Rattle.links.specs.frames.Walks.{HasWalked, Finds, IsAtFront, HasSome};

use crate::frames::error::{JoinError, PartFault};
use crate::frames::head::{HEAD_BYTES, Head, behind, head_of};
use bytes::{Buf, BytesMut};
use std::alloc::{AllocError, Global};
use std::marker::Model;

/// How far the parts at the front of a stream were looked at.
#[derive(Clone, Copy, Debug, PartialEq, Eq)]
pub struct Walk {
    // Bytes of whole parts after which more parts of their message come.
    at: usize,
    // The bytes of the message in them.
    joined: usize,
}

/// What a walk over parts comes to.
#[derive(Clone, Copy, Debug, PartialEq, Eq)]
pub enum Found {
    /// A part that is not whole.
    Unfinished(Walk),
    /// The end of a last part, and the bytes of its message.
    End(usize, usize),
    /// No part.
    Fault(PartFault),
}

/// The bytes of a stream of parts that were received and not yet taken. The messages do not depend
/// on how the stream is split into chunks.
pub struct Joiner {
    // The most bytes of a message.
    limit: usize,
    // From the first byte of the next message.
    bytes: BytesMut,
    walk: Walk,
    // True once the stream had a fault. From then on no bytes are accepted and no message is taken.
    failed: bool,
    alloc: Global,
}

impl Drop for Joiner {
    fn drop(self) {
        let Joiner {
            limit: _,
            bytes: _bytes,
            walk: _,
            failed: _,
            alloc: _,
        } = self;
    }
}

impl Model for Joiner {
    ghost use Rattle.links.specs.frames.Fronts.{Stream};
    ghost use Rattle.links.specs.frames.Walks.{HasWalked};

    ghost Value = { Stream };

    ghost view = { λ joiner. record {
      limit = joiner.limit;
      bytes = joiner.bytes.items;
      failed = joiner.failed;
    } };

    ghost invariant = { λ joiner. HasWalked joiner.limit joiner.bytes.items joiner.walk };
}

impl Joiner {
    /// Returns a joiner at the beginning of a stream, for messages of at most `limit` bytes.
    pub fn new(alloc: Global, limit: usize) -> Joiner
        ensures { result ≡ record { limit = limit; bytes = []; failed = false } }
    {
        Joiner {
            limit,
            bytes: BytesMut::new(alloc),
            walk: Walk { at: 0, joined: 0 },
            failed: false,
            alloc,
        }
    }

    /// Appends the next chunk of the stream. After `Memory`, which an empty chunk never gets,
    /// nothing has changed; `Failed` comes exactly after a fault of the stream.
    pub fn feed(&mut self, chunk: &[u8]) -> Result<(), JoinError>
        ensures ok { OnOk result
            (self.new ≡ record self.old { bytes = self.old.bytes ++ chunk.now }) }
        ensures failed { IsErrOf result JoinError.Failed ↔ (self.old.failed ≡ true) }
        ensures fault { OnErr result (self.new ≡ self.old) }
        ensures memory { (self.old.failed ≡ false)
            → OnErr result (IsErrOf result JoinError.Memory) }
        ensures nothing { IsErrOf result JoinError.Memory → 0 < length chunk.now }
    {
        if self.failed {
            return Err(JoinError::Failed);
        }
        self.bytes.extend_from_slice(chunk)?;
        Ok(())
    }

    /// Takes the next message, once all its parts were received. A fault of the stream is returned
    /// once, as soon as the head of a part shows it, and `Failed` from then on. After `Memory`,
    /// which comes only if a message of at least one byte is there, nothing has changed.
    pub fn next(&mut self) -> Result<Option<Vec<u8>>, JoinError>
        ensures message { IfOk result (λ found. IfSome found (λ message.
            Gives self.old message.items self.new)) }
        ensures none { IfOk result (λ found. IfNone found (Waits self.old self.new)) }
        ensures refused { IfErr result (λ error. Refuses self.old error self.new) }
    {
        if self.failed {
            return Err(JoinError::Failed);
        }
        match found_from(self.walk, &self.bytes, self.limit) {
            Found::Unfinished(walk) => {
                self.walk = walk;
                Ok(None)
            }
            Found::End(end, size) => {
                let message = joined(self.alloc, &self.bytes, self.limit, size)?;
                self.bytes.advance(end);
                self.walk = Walk { at: 0, joined: 0 };
                Ok(Some(message))
            }
            Found::Fault(fault) => {
                self.failed = true;
                Err(JoinError::Part(fault))
            }
        }
    }
}

// Walks on over the parts at the front.
fn found_from(from: Walk, bytes: &[u8], limit: usize) -> Found
    requires { HasWalked limit bytes.now from }
    ensures { Finds limit bytes.now result }
{
    let mut walk = from;
    'parts: loop {
        match head_of(behind(bytes, walk.at), limit - walk.joined) {
            Head::Unfinished => return Found::Unfinished(walk),
            Head::Fault(fault) => return Found::Fault(fault),
            Head::Part(is_followed, len) => {
                let end = walk.at + HEAD_BYTES + len;
                let joined = walk.joined + len;
                if end > bytes.len() {
                    return Found::Unfinished(walk);
                }
                if !is_followed {
                    return Found::End(end, joined);
                }
                walk = Walk { at: end, joined };
            }
        }
    }
}

// Returns the message of so many bytes at the front.
fn joined(alloc: Global, bytes: &[u8], limit: usize, size: usize) -> Result<Vec<u8>, AllocError>
    requires at_front { (message : List ℕ) × (length message ≡ size)
        × IsAtFront limit bytes.now message }
    ensures ok { IfOk result (λ message. IsAtFront limit bytes.now message.items) }
    ensures err { OnErr result (HasSome limit bytes.now) }
{
    let mut message = Vec::new(alloc);
    message.reserve(size)?;
    let mut rest = bytes;
    let mut room = limit;
    'parts: loop {
        let Head::Part(is_followed, len) = head_of(rest, room) else {
            unreachable!()
        };
        let (part, further) = behind(rest, HEAD_BYTES).split_at(len);
        message.extend_from_slice(part)?;
        if !is_followed {
            return Ok(message);
        }
        rest = further;
        room -= len;
    }
}
