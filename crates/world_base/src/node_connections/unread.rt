// The bytes of a connection that arrived and are not yet read.

ghost use Rattle.std.specs.Prelude.{◌≡◌, ◌++◌, [], length, OnErr, OnOk};
ghost use Rattle.world_base.specs.node_connections.Fronts.{ReadsFront};

use crate::node_connections::front::Front;
use crate::node_connections::piece::Piece;
use cutter::{CutError, Cutter};
use machine::Memory;
use packet::DecodeFault;
use std::alloc::Global;
use std::marker::Model;

/// The bytes of a connection that arrived and are not yet read. The stream had no fault: at the
/// first one the connection is closed.
pub struct Unread {
    // The allocator for a new cutter, at a fault and in `clear`.
    alloc: Global,
    // Holds the bytes. It has not failed: at a fault it is replaced.
    cutter: Cutter,
}

impl Drop for Unread {
    fn drop(self) {
        let Unread {
            alloc: _,
            cutter: _cutter,
        } = self;
    }
}

impl Model for Unread {
    ghost use Rattle.std.specs.Prelude.{◌≡◌, List, ℕ, false};

    ghost Value = { List ℕ };

    ghost view = { λ unread. unread.cutter.bytes };

    ghost invariant = { λ unread. unread.cutter.failed ≡ false };
}

impl Unread {
    /// Returns an empty buffer.
    pub fn new(alloc: Global) -> Unread
        ensures { result ≡ [] }
    {
        Unread {
            alloc,
            cutter: Cutter::new(alloc),
        }
    }

    /// Appends bytes that arrived. If memory runs out, nothing changes.
    pub fn hold(&mut self, piece: &Piece) -> Result<(), Memory>
        ensures ok { OnOk result (self.new ≡ self.old ++ piece.now) }
        ensures err { OnErr result (self.new ≡ self.old) }
    {
        match self.cutter.feed(piece.as_slice()) {
            Ok(()) => Ok(()),
            Err(_) => Err(Memory),
        }
    }

    /// Reads the packet at the front. At a fault all bytes are dropped.
    pub fn next(&mut self) -> Front
        ensures { ReadsFront self.old result self.new }
    {
        match self.cutter.next() {
            Ok(None) => Front::More,
            Ok(Some(packet)) => Front::Packet(packet),
            Err(CutError::Memory) => Front::OutOfMemory,
            Err(error) => {
                // A stream that failed is not read again.
                self.cutter = Cutter::new(self.alloc);
                match error {
                    CutError::Decode(DecodeFault::Refused(code)) => Front::Refused(code),
                    _ => Front::Fault,
                }
            }
        }
    }

    /// Returns the number of unread bytes.
    pub fn len(&self) -> usize
        ensures { result ≡ length self.now }
    {
        self.cutter.len()
    }

    /// Drops all bytes.
    pub fn clear(&mut self)
        ensures { self.new ≡ [] }
    {
        self.cutter = Cutter::new(self.alloc);
    }
}
