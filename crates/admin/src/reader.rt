// The bytes of a request as they come.

ghost use Rattle.std.specs.Prelude.{◌≡◌, ◌++◌, ◌+◌, true, false, [], IfOk, take};
ghost use Rattle.admin.specs.Requests.{IsReady, IsUnfinished};

use crate::asked::{Asked, asks};
use std::alloc::{AllocError, Global};
use std::marker::Model;

/// How many bytes a request has at most.
pub const MAX_REQUEST: usize = 4_096;

// How many bytes of a request are kept: one more shows that it is too long.
const MAX_KEPT: usize = MAX_REQUEST + 1;

/// Collects the bytes of one request, the first 4,097 at most.
#[derive(Drop)]
pub struct RequestReader {
    // It has room for all that is kept.
    bytes: Vec<u8>,
}

impl Model for RequestReader {
    ghost use Rattle.std.specs.Prelude.{ℕ, ◌≤◌, List, vec_capacity, vec_len};
    ghost use Rattle.admin.specs.declared.reader.TheConstants.{MAX_KEPT};

    ghost Value = { List ℕ };

    ghost view = { λ reader. reader.bytes.items };

    ghost invariant = { λ reader. (vec_len reader.bytes ≤ MAX_KEPT)
        × (MAX_KEPT ≤ vec_capacity reader.bytes) };
}

impl RequestReader {
    /// Returns a reader without a byte. Fails only if memory runs out.
    pub fn new(alloc: Global) -> Result<RequestReader, AllocError>
        ensures { IfOk result (λ reader. reader ≡ []) }
    {
        Ok(RequestReader {
            bytes: Vec::with_capacity(alloc, MAX_KEPT)?,
        })
    }

    /// Takes the next bytes of the request. Returns true if it needs no more: its head is complete,
    /// or never will be, or it is too long.
    pub fn feed(&mut self, piece: &[u8]) -> bool
        ensures kept { self.new ≡ take (MAX_REQUEST + 1) (self.old ++ piece.now) }
        ensures ready { result ≡ true → IsReady self.new }
        ensures unfinished { result ≡ false → IsUnfinished self.new }
    {
        let room = MAX_KEPT - self.bytes.as_slice().len();
        let count = room.min(piece.len());
        let _ = self.bytes.extend_from_slice(&piece[..count]);
        self.bytes.len() == MAX_KEPT || is_ready(&self.bytes)
    }

    /// Returns the bytes that are kept.
    pub fn bytes(&self) -> &[u8]
        ensures { result.now ≡ self.now }
    {
        &self.bytes
    }
}

// Returns true if the head of a request is complete, or never will be.
fn is_ready(bytes: &[u8]) -> bool
    ensures ready { result ≡ true → IsReady bytes.now }
    ensures unfinished { result ≡ false → IsUnfinished bytes.now }
{
    match asks(bytes) {
        Asked::Incomplete => false,
        _ => true,
    }
}
