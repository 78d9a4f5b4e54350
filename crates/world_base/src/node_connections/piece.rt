// A byte buffer to which packets are appended whole.

ghost use Rattle.std.specs.Prelude.{◌≡◌, ◌==◌, ◌+◌, ◌++◌, true, false, [], length, nat_le};
ghost use Rattle.std.specs.Prelude.{if◌then◌else◌, IfOk, IsOk, OnErr, OnOk};
ghost use Rattle.packet.specs.Spelling.{IsPacket, spelling};

use machine::Memory;
use packet::{Packet, encode, spelling_spells};
use std::alloc::Global;
use std::marker::Model;
use std::mem;

/// Bytes in order: a chunk that arrived, or pending output.
pub struct Piece {
    // Bytes are appended at the end and taken all at once.
    bytes: Vec<u8>,
}

impl Drop for Piece {
    fn drop(self) {
        let Piece { bytes: _bytes } = self;
    }
}

impl Model for Piece {
    ghost use Rattle.std.specs.Prelude.{List, ℕ};

    ghost Value = { List ℕ };

    ghost view = { λ piece. piece.bytes.items };
}

impl Piece {
    /// Returns an empty buffer.
    pub fn new(alloc: Global) -> Piece
        ensures { result ≡ [] }
    {
        Piece {
            bytes: Vec::new(alloc),
        }
    }

    /// Returns a copy of the bytes. Fails only if memory runs out.
    pub fn from_slice(alloc: Global, bytes: &[u8]) -> Result<Piece, Memory>
        ensures { IfOk result (λ piece. piece ≡ bytes.now) }
    {
        let bytes = Vec::from_slice(alloc, bytes)?;
        Ok(Piece { bytes })
    }

    /// Returns the bytes.
    pub fn as_slice(&self) -> &[u8]
        ensures { result.now ≡ self.now }
    {
        self.bytes.as_slice()
    }

    /// Returns true if it has no bytes.
    pub fn is_empty(&self) -> bool
        ensures { result ≡ (length self.now == 0) }
    {
        self.bytes.is_empty()
    }

    /// Appends a packet's encoding and returns true. Returns false, with nothing changed, if memory
    /// runs out or the packet has no encoding: it has an empty list or exceeds the size limit.
    pub fn put(&mut self, packet: &Packet) -> bool
        ensures whole { result ≡ true → self.new ≡ self.old ++ spelling packet.now }
        ensures packet { result ≡ true → IsPacket packet.now }
        ensures same { result ≡ false → self.new ≡ self.old }
    {
        if !packet.has_no_empty_list() {
            return false;
        }
        spelling_spells();
        encode(packet, &mut self.bytes).is_ok()
    }

    /// Appends a packet's encoding and returns true. Returns false, with nothing changed, if it
    /// would then have more than `most` bytes. Fails with [`Memory`] where [`Piece::put`] returns
    /// false: memory ran out, or the packet has no encoding.
    pub fn put_within(&mut self, packet: &Packet, most: usize) -> Result<bool, Memory>
        ensures fits { IfOk result (λ put.
            put ≡ nat_le (length self.old + length (spelling packet.now)) most) }
        ensures ok { IfOk result (λ put.
            self.new ≡ if put then self.old ++ spelling packet.now else self.old) }
        ensures err { OnErr result (self.new ≡ self.old) }
    {
        let before = self.bytes.len();
        if !self.put(packet) {
            return Err(Memory);
        }
        if self.bytes.len() > most {
            self.bytes.truncate(before);
            return Ok(false);
        }
        Ok(true)
    }

    /// Moves all bytes to the end of `out`. If `out` is empty the two vectors are swapped, and no
    /// byte is copied, which no clause says. Fails only if memory runs out, and then nothing
    /// changes; without bytes it takes no memory.
    pub fn move_to(&mut self, out: &mut Vec<u8>) -> Result<(), Memory>
        ensures moved { OnOk result (out.new.items ≡ out.old.items ++ self.old) }
        ensures emptied { OnOk result (self.new ≡ []) }
        ensures nothing { self.old ≡ [] → IsOk result }
        ensures same { OnErr result (self.new ≡ self.old) }
        ensures err { OnErr result (out.new.items ≡ out.old.items) }
    {
        if self.bytes.is_empty() {
            return Ok(());
        }
        if out.is_empty() {
            mem::swap(&mut self.bytes, out);
            return Ok(());
        }
        out.extend_from_slice(self.bytes.as_slice())?;
        self.bytes.clear();
        Ok(())
    }

    /// Removes all bytes.
    pub fn clear(&mut self)
        ensures { self.new ≡ [] }
    {
        self.bytes.clear();
    }
}
