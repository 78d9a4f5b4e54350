// What is asked before a node takes an item.

use std::sync::Wait;

/// Asked before each taking of a node. A test holds nodes at a gate to see which of them go on
/// without the others. Several nodes may ask one gate at once; the lock of a node's state is not
/// held meanwhile, which no clause says.
pub trait Gate {
    ghost use Rattle.std.specs.Prelude.{ℕ, Bool};

    // It was asked whether this node may do its taking of this number, and answered this.
    ghost answers: { Self → ℕ → ℕ → Bool → Type 0 };

    // It was told that this node has done its taking of this number.
    ghost hears: { Self → ℕ → ℕ → Type 0 };

    /// Returns true if node `node` may do its taking `taking`, counted from 1. If false, it is
    /// asked again later.
    fn open<R: Wait>(&self, rt: &R, node: u8, taking: u64) -> bool
        ensures { answers self.now node taking result };

    /// Notes that node `node` has done its taking `taking`, whether an item waited or not.
    fn answered<R: Wait>(&self, rt: &R, node: u8, taking: u64)
        ensures { hears self.now node taking };
}

/// Stands for no gate: always open.
#[derive(Clone, Copy, Debug, PartialEq, Eq)]
pub struct NoGate;

impl Gate for NoGate {
    ghost use Rattle.std.specs.Prelude.{◌≡◌, true};

    ghost answers = { λ _ _ _ answer. answer ≡ true };

    ghost hears = { λ _ _ _. Unit {0} };

    fn open<R: Wait>(&self, _rt: &R, _node: u8, _taking: u64) -> bool
        ensures { result ≡ true }
    {
        true
    }

    fn answered<R: Wait>(&self, _rt: &R, _node: u8, _taking: u64) {}
}
