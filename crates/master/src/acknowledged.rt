// Counters of how many places each node acknowledged in one ballot.

ghost use Rattle.std.specs.Prelude.{ℕ, ◌^◌, ◌≡◌, ◌<◌, ◌≤◌, IfOk, take, length, max, get_or};
ghost use Rattle.ballot_base.specs.Losses.{greatest_count};
ghost use Rattle.master.specs.AcknowledgedLengths.{acknowledged_in};
ghost use Rattle.lists.specs.Lists.{In};
ghost use Rattle.master.specs.Inside.{HasCounted, least_but_one, next_least};

use ballot_base::{Body, MAX_NODE, Message};
use machine::Memory;
use std::alloc::Global;
use std::marker::Model;
use std::mem::swap;

/// The number of node numbers, 0 included.
const NUMBERS: usize = MAX_NODE as usize + 1;

/// How many places each node acknowledged in one ballot: the greatest number in any Held or
/// Installed that it sent. No call takes memory except `new`.
#[derive(Drop)]
pub struct Acknowledged {
    // The ballot; acknowledgements in others are not counted.
    ballot: u64,
    // The count of node n is at index n, so there are always `NUMBERS`.
    held: Vec<u64>,
}

impl Model for Acknowledged {
    ghost use Rattle.std.specs.Prelude.{◌≡◌, length};
    ghost use Rattle.master.specs.Inside.{AcknowledgedIn};

    ghost Value = { AcknowledgedIn };

    ghost view = { λ told.
        record {
          ballot = told.ballot;
          held = told.held.items;
        } };

    ghost invariant = { λ told. length told.held.items ≡ 16 };
}

impl Acknowledged {
    /// Returns zeroed counters for a ballot. Fails only if memory runs out.
    pub fn new(alloc: Global, ballot: u64) -> Result<Acknowledged, Memory>
        ensures ballot { IfOk result (λ told. told.ballot ≡ ballot) }
        ensures counted { IfOk result (λ told. (member : ℕ) → get_or told.held member 0 ≡ 0) }
    {
        let held = Vec::from_slice(alloc, &[0; NUMBERS])?;
        Ok(Acknowledged { ballot, held })
    }

    /// Resets the counters for another ballot.
    pub fn begin(&mut self, ballot: u64)
        ensures ballot { self.new.ballot ≡ ballot }
        ensures counted { (member : ℕ) → get_or self.new.held member 0 ≡ 0 }
    {
        self.ballot = ballot;
        self.held.as_mut_slice().fill(0);
    }

    /// Counts what a message acknowledges, if it does.
    pub fn count_message<C>(&mut self, message: &Message<C>)
        ensures ballot { self.new.ballot ≡ self.old.ballot }
        ensures counted { (member : ℕ) → member < 16 →
            get_or self.new.held member 0 ≡
            max (get_or self.old.held member 0)
            (acknowledged_in member self.old.ballot message.now) }
    {
        let (ballot, held) = match message.body {
            Body::Installed(ballot, held) | Body::Held(ballot, held) => (ballot, held),
            _ => return,
        };
        if ballot == self.ballot && message.from <= MAX_NODE {
            let told = &mut self.held[message.from as usize];
            *told = held.max(*told);
        }
    }

    /// Counts what the messages from index `from` on acknowledge.
    pub fn count_from<C>(&mut self, sent: &[(u8, Message<C>)], from: usize)
        requires { from ≤ length sent.now }
        ensures ballot { self.new.ballot ≡ self.old.ballot }
        ensures counted { HasCounted (take from sent.now) self.old → HasCounted sent.now self.new }
    {
        for at in from..sent.len() {
            self.count_message(&sent[at].1);
        }
    }

    /// Returns the second smallest count of these nodes.
    pub fn least_but_one(&self, members: &[u8]) -> u64
        requires { (member : ℕ) → In member members.now → member < 16 }
        ensures least { result
            ≡ least_but_one self.now.held greatest_count greatest_count members.now }
        ensures range { (member : ℕ) → get_or self.now.held member 0 < 2 ^ 64 }
    {
        second_least(self.held.as_slice(), members)
    }
}

// Returns the second smallest of the numbers at these indices.
fn second_least(told: &[u64], slots: &[u8]) -> u64
    requires { (index : ℕ) → In index slots.now → index < length told.now }
    ensures least { result ≡ least_but_one told.now greatest_count greatest_count slots.now }
    ensures range { (index : ℕ) → get_or told.now index 0 < 2 ^ 64 }
{
    let mut pair = (u64::MAX, u64::MAX);
    for slot in slots {
        pair = next_least(pair.0, pair.1, told[*slot as usize]);
    }
    pair.1
}

/// Swaps the counters of the active and of the waiting ballot, if the active ballot has changed.
pub fn follow_ballot(told: &mut Acknowledged, next: &mut Acknowledged, before: u64, after: u64)
    ensures stays { before ≡ after → (told.new ≡ told.old) × (next.new ≡ next.old) }
    ensures swaps { (before ≡ after → ⊥) → (told.new ≡ next.old) × (next.new ≡ told.old) }
{
    if before != after {
        swap(told, next);
    }
}

// Returns the two smallest of a pair and one more number.
fn next_least(least: u64, next: u64, held: u64) -> (u64, u64)
    ensures { result ≡ next_least least next held }
{
    if held < least {
        (held, least)
    } else {
        (least, next.min(held))
    }
}
