// Counters of what was acknowledged in the active and in the waiting ballot.

ghost use Rattle.std.specs.Prelude.{ℕ, ◌≡◌, ◌≤◌, ◌<◌, ◌^◌, IfOk, get_or, length, take};
ghost use Rattle.ballot_base.specs.Losses.{greatest_count};
ghost use Rattle.lists.specs.Lists.{In};
ghost use Rattle.master.specs.Inside.{HasCounted, least_but_one};

use ballot_base::Message;
use broker_spec::Command;
use machine::Memory;
use master::{Acknowledged, follow_ballot};
use std::alloc::Global;

/// What was acknowledged in the active and in the waiting ballot. No call takes memory except
/// `new`.
#[derive(Drop)]
pub struct Counters {
    // What was acknowledged in the active ballot.
    told: Acknowledged,
    // What was acknowledged in the ballot that waits, if one does.
    next: Acknowledged,
}

impl Counters {
    /// Returns zeroed counters, with ballot 1 active. Fails only if memory runs out.
    pub fn new(alloc: Global) -> Result<Counters, Memory>
        ensures active { IfOk result (λ counters. counters.told.ballot ≡ 1) }
        ensures untold { IfOk result (λ counters.
            (member : ℕ) → get_or counters.told.held member 0 ≡ 0) }
        ensures next { IfOk result (λ counters.
            (member : ℕ) → get_or counters.next.held member 0 ≡ 0) }
    {
        let told = Acknowledged::new(alloc, 1)?;
        let next = Acknowledged::new(alloc, 1)?;
        Ok(Counters { told, next })
    }

    /// Resets the counters of the waiting ballot for another one.
    pub fn begin(&mut self, ballot: u64)
        ensures waits { self.new.next.ballot ≡ ballot }
        ensures untold { (member : ℕ) → get_or self.new.next.held member 0 ≡ 0 }
        ensures same { self.new.told ≡ self.old.told }
    {
        self.next.begin(ballot);
    }

    /// Swaps the counters if the active ballot has changed from `before` to `after`.
    pub fn follow_ballot(&mut self, before: u64, after: u64)
        ensures stays { before ≡ after →
            (self.new.told ≡ self.old.told) × (self.new.next ≡ self.old.next) }
        ensures swaps { (before ≡ after → ⊥) →
            (self.new.told ≡ self.old.next) × (self.new.next ≡ self.old.told) }
    {
        follow_ballot(&mut self.told, &mut self.next, before, after);
    }

    /// Counts what the messages from index `from` on acknowledge.
    pub fn count_from(&mut self, sent: &[(u8, Message<Command>)], from: usize)
        requires { from ≤ length sent.now }
        ensures told { HasCounted (take from sent.now) self.old.told →
            HasCounted sent.now self.new.told }
        ensures next { HasCounted (take from sent.now) self.old.next →
            HasCounted sent.now self.new.next }
        ensures active { self.new.told.ballot ≡ self.old.told.ballot }
        ensures waits { self.new.next.ballot ≡ self.old.next.ballot }
    {
        self.told.count_from(sent, from);
        self.next.count_from(sent, from);
    }

    /// Returns how many places all of these members acknowledged in the active ballot, without its
    /// primary, which acknowledges by no message.
    pub fn agreed_by(&self, members: &[u8]) -> u64
        requires { (member : ℕ) → In member members.now → member < 16 }
        ensures least { result
            ≡ least_but_one self.now.told.held greatest_count greatest_count members.now }
        ensures range { (member : ℕ) → get_or self.now.told.held member 0 < 2 ^ 64 }
    {
        self.told.least_but_one(members)
    }
}
