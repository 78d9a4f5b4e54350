// Bytes that are queued and not yet written.

ghost use Rattle.std.specs.Prelude.{◌≡◌, ◌==◌, ◌≤◌, [], drop, length, IfOk, OnErr};
ghost use Rattle.node_base.specs.connection.Written.{HandsOver, LeavesSo, Writes, faults_written};

use crate::connection::left_write::LeftWrite;
use crate::connection::outlet::Outlet;
use crate::connection::tap::Tap;
use crate::devices::{Counted, OneWrite};
use machine::Memory;
use std::alloc::{AllocError, Global};
use std::io::Write;
use std::marker::Model;
use std::sync::Wait;
use world_base::node_connections::Handed;

/// How much capacity an empty list keeps, in bytes.
const CAPACITY_KEPT: usize = 65_536;

/// Bytes that are queued and not yet written, in order. Written bytes are counted, not moved out.
#[derive(Drop)]
pub struct Unwritten {
    alloc: Global,
    // The bytes that were queued last, written or not.
    bytes: Vec<u8>,
    // How many of them were written.
    done: usize,
}

impl Model for Unwritten {
    ghost use Rattle.std.specs.Prelude.{◌≤◌, List, ℕ, drop, length};

    ghost Value = { List ℕ };

    ghost view = { λ left. drop left.done left.bytes.items };

    ghost invariant = { λ left. left.done ≤ length left.bytes.items };
}

impl Unwritten {
    /// Returns an empty list.
    pub fn new(alloc: Global) -> Unwritten
        ensures { result ≡ [] }
    {
        Unwritten {
            alloc,
            bytes: Vec::new(alloc),
            done: 0,
        }
    }

    /// Returns a copy of these bytes. The only error is that memory ran out.
    pub fn from_slice(alloc: Global, bytes: &[u8]) -> Result<Unwritten, AllocError>
        ensures { IfOk result (λ left. left ≡ bytes.now) }
    {
        let bytes = Vec::from_slice(alloc, bytes)?;
        Ok(Unwritten {
            alloc,
            bytes,
            done: 0,
        })
    }

    /// Returns true if nothing is left to write.
    pub fn is_empty(&self) -> bool
        ensures { result ≡ (length self.now == 0) }
    {
        self.done == self.bytes.len()
    }

    /// Writes as much as the device takes. Repeats a call that was interrupted. A call that would
    /// block or timed out means that the device is full.
    pub fn write<W: Write>(&mut self, device: &mut Counted<W>) -> LeftWrite
        ensures writes { Writes
            (W.contents device.old.device) (W.contents device.new.device) self.old self.new }
        ensures leaves { LeavesSo result self.new }

        // Ends as `Fault` exactly if one more call of the device failed.
        ensures faults { device.new.faults ≡ faults_written result device.old.faults }
    {
        for _ in 0..u64::MAX {
            if self.is_empty() {
                return LeftWrite::Whole;
            }
            match device.write_piece(self.as_slice()) {
                OneWrite::Bytes(count) => self.skip(count),
                OneWrite::Full => return LeftWrite::Full,
                OneWrite::Stopped => return LeftWrite::Stopped,
                OneWrite::Fault => return LeftWrite::Fault,
            }
        }
        if self.is_empty() {
            LeftWrite::Whole
        } else {
            LeftWrite::Stopped
        }
    }

    /// Takes all that the outlet has for the tap, if nothing is left. No byte is copied if the
    /// outlet swaps its list with the empty one, as a node does.
    pub(crate) fn take_from<R: Wait, T: Tap, O: Outlet<T>>(
        &mut self,
        rt: &R,
        tap: &mut T,
        outlet: &mut O,
    ) -> Result<Handed, Memory>
        requires { self.old ≡ [] }
        ensures ok { IfOk result (λ answer. HandsOver T.hands tap.old answer tap.new [] self.new) }
        ensures same { OnErr result (tap.new ≡ tap.old) }
        ensures none { OnErr result (self.new ≡ []) }
    {
        self.done = 0;
        empty(self.alloc, &mut self.bytes);
        outlet.hand_over(rt, tap, &mut self.bytes)
    }

    fn as_slice(&self) -> &[u8]
        ensures { result.now ≡ self.now }
    {
        &self.bytes[self.done..]
    }

    // Counts `count` more bytes as written.
    fn skip(&mut self, count: usize)
        requires { count ≤ length self.old }
        ensures { self.new ≡ drop count self.old }
    {
        self.done += count;
    }
}

// Empties the list, and frees its memory if that is more than `CAPACITY_KEPT`.
fn empty(alloc: Global, bytes: &mut Vec<u8>)
    ensures { bytes.new.items ≡ [] }
{
    if bytes.capacity() > CAPACITY_KEPT {
        *bytes = Vec::new(alloc);
    } else {
        bytes.clear();
    }
}
