// The permit to take items of a node.

ghost use Rattle.std.specs.Prelude.{◌≡◌, ◌↔◌, None, Some, IfSome, IsTrue, true};
ghost use Rattle.node.specs.LockedNode.{IsNext};

use crate::naming::NodeNaming;
use crate::node_state::NodeState;
use run_history::RunNaming;
use std::marker::Model;
use std::sync::MutexGuard;

/// How many items one permit allows if there is no gate.
const MAX_AT_ONCE: u32 = 16;

/// The permit to take items of a node. Only `begin_taking` of a node makes one; with a gate, for
/// one item, after asking.
#[derive(Drop)]
pub struct Permit<'n> {
    // The number of the taking, if there is a gate.
    taking: Option<u64>,
    // The number of items that it allows: 1 with a gate, else `MAX_AT_ONCE`.
    most: u32,
    // True if the gate opened, or if there is none.
    is_open: bool,
    // With a gate: no other taking begins until this is dropped.
    passing: Option<MutexGuard<'n, ()>>,
}

impl<'n> Model for Permit<'n> {
    ghost use Rattle.std.specs.Prelude.{◌≡◌, IfSome};
    ghost use Rattle.node.specs.LockedNode.{Permit};

    ghost Value = { Permit };

    ghost view = { λ permit. record {
      taking = permit.taking;
      most = permit.most;
      is_open = permit.is_open;
    } };

    ghost invariant = { λ permit. IfSome permit.taking (λ _. permit.most ≡ 1) };
}

impl<'n> Permit<'n> {
    /// Returns a permit of a node without a gate.
    pub(crate) fn free() -> Permit<'n>
        ensures { result ≡ record { taking = None; most = MAX_AT_ONCE; is_open = true } }
    {
        Permit {
            taking: None,
            most: MAX_AT_ONCE,
            is_open: true,
            passing: None,
        }
    }

    /// Returns the permit for taking `taking`, which keeps other takings from beginning.
    pub(crate) fn of_taking(taking: u64, is_open: bool, passing: MutexGuard<'n, ()>) -> Permit<'n>
        ensures { result ≡ record { taking = Some taking; most = 1; is_open = is_open } }
    {
        Permit {
            taking: Some(taking),
            most: 1,
            is_open,
            passing: Some(passing),
        }
    }

    /// Returns how many items may be taken: 1 if a gate was asked.
    pub fn most(&self) -> u32
        ensures most { result ≡ self.now.most }
        ensures one { IfSome self.now.taking (λ _. result ≡ 1) }
    {
        self.most
    }

    /// Returns the number of the taking, if a gate was asked.
    pub fn taking(&self) -> Option<u64>
        ensures { result ≡ self.now.taking }
    {
        self.taking
    }

    /// Returns true if `state`'s next taking is the one that the gate was asked about, or if there
    /// is no gate.
    pub fn is_for<H: RunNaming, J: NodeNaming>(&self, state: &NodeState<H, J>) -> bool
        ensures { IsTrue result ↔ IsNext self.now state.now }
    {
        match self.taking {
            Some(taking) => taking == state.next_taking(),
            None => true,
        }
    }
}
