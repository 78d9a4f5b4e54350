// Log compaction: a snapshot replaces the applied places.

ghost use Rattle.std.specs.Prelude.{◌≡◌, ◌≤◌, [], Some, true, false, IfSome};
ghost use Rattle.ballot_base.specs.Compaction.{can_cut, cut};
ghost use Rattle.ballot_base.specs.Losses.{one_more};

use super::Replica;
use ballot_base::counted;
use bytes::Bytes;
use machine::Machine;

impl<M: Machine> Replica<M> {
    /// Returns true if there is something to cut: the replica runs, and has applied places since
    /// its last cut.
    pub fn can_cut(&self) -> bool
        ensures { result ≡ can_cut self.now.state }
    {
        !self.stopped && self.log.base() < self.committed
    }

    /// Cuts the log: freezes the machine, then drops the applied places. The new vector has room
    /// for the last snapshot and an eighth more, so it seldom grows; no clause speaks of capacity.
    /// Sends nothing. Returns false, and changes nothing, if there is nothing to cut or memory runs
    /// out; the latter is counted as a loss.
    pub fn cut(&mut self) -> bool
        ensures done { result ≡ true → (can_cut self.old.state ≡ true)
            × (self.new ≡ record self.old { state = cut M.rules self.old.state }) }
        // The frozen bytes thaw to the machine.
        ensures thaws { result ≡ true →
            M.rules.thawed (M.rules.frozen self.old.state.machine) ≡ Some self.old.state.machine }

        // If nothing was dropped.
        ensures same { result ≡ false → self.new.state ≡ self.old.state }
        ensures counts { result ≡ false → can_cut self.old.state ≡ true →
            self.new.losses ≡ one_more self.old.losses }
        ensures idle { can_cut self.old.state ≡ false →
            (result ≡ false) × (self.new ≡ self.old) }
    {
        if self.stopped || self.committed <= self.log.base() {
            return false;
        }
        match frozen_bytes(&self.machine, self.log.snapshot_buffer(self.alloc)) {
            Some(snapshot) => {
                self.log.cut(self.committed, snapshot);
                true
            }
            None => {
                self.losses = counted(self.losses, false);
                false
            }
        }
    }

    /// Returns the base of the log and the snapshot at it, which is empty at base 0. The places
    /// below the base are applied.
    pub fn snapshot(&self) -> (u64, &[u8])
        ensures base { result.0 ≡ self.now.state.log.base }
        ensures bytes { result.1.now ≡ self.now.state.log.snapshot }
        ensures none { result.0 ≡ 0 → result.1.now ≡ [] }
        ensures applied { result.0 ≤ self.now.state.committed }
    {
        (self.log.base(), self.log.snapshot())
    }
}

// Appends the bytes of a frozen machine to an empty buffer, and returns them, which thaw to it;
// none if memory runs out.
fn frozen_bytes<M: Machine>(machine: &M, buffer: Vec<u8>) -> Option<Bytes>
    requires { buffer.items ≡ [] }
    ensures bytes { IfSome result (λ bytes. bytes ≡ M.rules.frozen machine.now) }
    ensures thaws { IfSome result (λ _.
        M.rules.thawed (M.rules.frozen machine.now) ≡ Some machine.now) }
{
    let mut bytes = buffer;
    match machine.freeze(&mut bytes) {
        Ok(()) => match Bytes::from_vec(bytes) {
            Ok(shared) => Some(shared),
            Err(_) => None,
        },
        Err(_) => None,
    }
}
