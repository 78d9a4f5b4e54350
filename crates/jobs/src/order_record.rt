// What orders did since the program started.

use admin::{OrderCounts, RefusalCount};
use ballot_base::{Config, MAX_NODE};
use std::alloc::{AllocError, Global};

/// How many ballots are remembered: the latest ones. One that still waits after this many later
/// ones is forgotten.
const BALLOTS: usize = 64;

/// How many numbers of refusals there are: each is below this.
const NUMBERS: u8 = 32;

/// How many numbers of nodes there are: each is below this.
pub(crate) const NODES: usize = MAX_NODE as usize + 1;

/// A ballot and its configuration.
#[derive(Clone, Copy)]
pub(crate) struct Assigned {
    pub(crate) ballot: u64,
    pub(crate) primary: u8,
    // Which nodes are its members.
    members: [bool; NODES],
}

impl Assigned {
    /// Returns a ballot with this configuration.
    pub(crate) fn new(ballot: u64, config: &Config) -> Assigned {
        let mut members = [false; NODES];
        for member in config.members.as_slice() {
            if let Some(is_member) = members.get_mut(usize::from(*member)) {
                *is_member = true;
            }
        }
        Assigned {
            ballot,
            primary: config.primary,
            members,
        }
    }

    /// Returns true if the node of this number is a member.
    pub(crate) fn has(&self, number: u8) -> bool {
        matches!(self.members.get(usize::from(number)), Some(true))
    }

    /// Returns the numbers of its members, in rising order. Fails only if memory runs out.
    pub(crate) fn members(&self, alloc: Global) -> Result<Vec<u8>, AllocError> {
        let mut numbers = Vec::new(alloc);
        for number in 1..=MAX_NODE {
            if self.has(number) {
                numbers.push(number)?;
            }
        }
        Ok(numbers)
    }
}

/// What orders did. No clause says what is recorded.
#[derive(Drop)]
pub(crate) struct OrderRecord {
    // By rising ballot.
    assigned: Vec<Assigned>,
    takeovers: u64,
    // How often an order was refused with each number.
    refusals: [u64; NUMBERS as usize],
    // Which nodes were ordered to crash.
    crashes: [bool; NODES],
}

impl OrderRecord {
    /// Returns the record of ballot 1. Fails only if memory runs out.
    pub(crate) fn new(alloc: Global, first: &Config) -> Result<OrderRecord, AllocError> {
        let mut assigned = Vec::with_capacity(alloc, BALLOTS)?;
        assigned.push(Assigned::new(1, first))?;
        Ok(OrderRecord {
            assigned,
            takeovers: 0,
            refusals: [0; NUMBERS as usize],
            crashes: [false; NODES],
        })
    }

    /// Records that a ballot was given.
    pub(crate) fn assign(&mut self, assigned: Assigned) {
        if self.assigned.len() >= BALLOTS {
            let _ = self.assigned.remove(0);
        }
        // (it has room)
        let _ = self.assigned.push(assigned);
    }

    /// Returns a ballot, if it is remembered.
    pub(crate) fn assigned(&self, ballot: u64) -> Option<Assigned> {
        self.assigned
            .iter()
            .find(|assigned| assigned.ballot == ballot)
            .copied()
    }

    /// Records that the primary of a ballot serves.
    pub(crate) fn take_over(&mut self) {
        self.takeovers = self.takeovers.saturating_add(1);
    }

    /// Records that an order was refused with this number.
    pub(crate) fn refuse(&mut self, number: u8) {
        if let Some(count) = self.refusals.get_mut(usize::from(number)) {
            *count = count.saturating_add(1);
        }
    }

    // Returns how often an order was refused with this number.
    fn refused(&self, number: u8) -> u64 {
        match self.refusals.get(usize::from(number)) {
            Some(count) => *count,
            None => 0,
        }
    }

    /// Records that a node was ordered to crash.
    pub(crate) fn crash(&mut self, number: u8) {
        if let Some(is_ordered) = self.crashes.get_mut(usize::from(number)) {
            *is_ordered = true;
        }
    }

    /// Returns true if a node was ordered to crash.
    pub(crate) fn is_crash_ordered(&self, number: u8) -> bool {
        matches!(self.crashes.get(usize::from(number)), Some(true))
    }

    /// Returns how often there was a takeover, and a refusal with each number. Fails only if memory
    /// runs out.
    pub(crate) fn counts(&self, alloc: Global) -> Result<OrderCounts, AllocError> {
        let mut refusals = Vec::new(alloc);
        for number in 0..NUMBERS {
            let count = self.refused(number);
            if count > 0 {
                refusals.push(RefusalCount { number, count })?;
            }
        }
        Ok(OrderCounts {
            takeovers: self.takeovers,
            refusals,
        })
    }
}
