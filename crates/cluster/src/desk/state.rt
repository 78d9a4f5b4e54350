// The state of a desk.

ghost use Rattle.std.specs.Prelude.{◌≡◌, ◌<◌, ◌+◌, ◌≤◌, None, Some, true, IfOk};
ghost use Rattle.machine.specs.Ballots.{max_ballot};
ghost use Rattle.cluster.specs.desk.States.{are_given, assign_refusal, assigned_to, is_sound, may_wait};
ghost use Rattle.cluster.specs.desk.States.{opening_desk, taken_back, waits_fit, with_active, with_waiting};

use crate::desk::error::DeskError;
use ballot_base::{Config, MAX_MEMBERS, MAX_NUMBER, Members};
use links::seal::CLUSTER_BYTES;
use machine::{MAX_BALLOT, Memory};
use std::alloc::Global;
use std::marker::Model;
use std::mem;

/// What is next once the last number was given.
pub(crate) const NO_NUMBER: u8 = MAX_NUMBER + 1;

/// What the master of a cluster keeps.
#[derive(Drop)]
pub struct State {
    /// The name of the cluster.
    pub cluster: [u8; CLUSTER_BYTES],
    /// The number that the next start of a node gets; 255 once 254 was given.
    pub next: u8,
    /// The active ballot.
    pub active: u64,
    /// The members of the active ballot.
    pub members: Members,
    /// The ballot that waits to be activated, with its configuration.
    pub waiting: Option<(u64, Config)>,
    /// How many ballots were given; also the number of the last one.
    pub given: u64,
}

impl Model for State {
    ghost use Rattle.cluster.specs.desk.States.{DeskState};
    ghost use Rattle.ballot_base.specs.LawfulConfig.{max_number};

    ghost Value = { DeskState };

    ghost view = { λ state. record {
      cluster = state.cluster;
      next = state.next;
      master = record {
        greatest = max_number;
        active = state.active;
        members = state.members;
        waiting = state.waiting;
        given = state.given;
      };
    } };
}

impl State {
    /// Returns the state of a cluster at its beginning. Fails only if memory runs out.
    pub(crate) fn opening(alloc: Global, cluster: [u8; CLUSTER_BYTES]) -> Result<State, Memory>
        ensures { IfOk result (λ state. state ≡ opening_desk cluster) }
    {
        Ok(State {
            cluster,
            next: 1,
            active: 1,
            members: Members::from_slice(alloc, &[1])?,
            waiting: None,
            given: 1,
        })
    }

    /// Sets the next number.
    pub(crate) fn set_next(&mut self, next: u8)
        ensures { self.new ≡ record self.old { next = next } }
    {
        self.next = next;
    }

    /// Gives the next ballot to a configuration, and returns the one that waited.
    pub(crate) fn give(&mut self, config: Config) -> Option<(u64, Config)>
        requires { self.old.master.given < max_ballot }
        ensures state { self.new ≡ assigned_to self.old config }
        ensures waited { result ≡ self.old.master.waiting }
    {
        self.given += 1;
        mem::replace(&mut self.waiting, Some((self.given, config)))
    }

    /// Takes the last ballot back, and lets another wait again.
    pub(crate) fn take_back(&mut self, waiting: Option<(u64, Config)>)
        requires { 1 ≤ self.old.master.given }
        ensures { self.new ≡ taken_back self.old waiting }
    {
        self.given -= 1;
        self.waiting = waiting;
    }

    /// Takes the ballot that waits.
    pub(crate) fn take_waiting(&mut self) -> Option<(u64, Config)>
        ensures state { self.new ≡ with_waiting self.old None }
        ensures waited { result ≡ self.old.master.waiting }
    {
        self.waiting.take()
    }

    /// Lets a ballot wait.
    pub(crate) fn set_waiting(&mut self, waiting: Option<(u64, Config)>)
        ensures { self.new ≡ with_waiting self.old waiting }
    {
        self.waiting = waiting;
    }

    /// Makes a ballot with these members the active one, and returns the one that was.
    pub(crate) fn make_active(&mut self, ballot: u64, members: Members) -> (u64, Members)
        ensures state { self.new ≡ with_active self.old ballot members }
        ensures ballot { result.0 ≡ self.old.master.active }
        ensures members { result.1 ≡ self.old.master.members }
    {
        let active = mem::replace(&mut self.active, ballot);
        (active, mem::replace(&mut self.members, members))
    }

    /// Returns why no ballot is assigned to a configuration.
    pub(crate) fn refusal(&self, config: &Config) -> Option<DeskError>
        ensures { result ≡ assign_refusal self.now config.now }
    {
        let are_spent = self.given >= MAX_BALLOT;
        if !config.is_lawful_up_to(MAX_NUMBER) {
            return Some(DeskError::BadMembers);
        }
        if are_spent {
            return Some(DeskError::BallotsSpent);
        }
        if !are_given(self.next, config.members.as_slice()) {
            return Some(DeskError::NeverGiven);
        }
        None
    }

    /// Returns true if numbers and ballots are in their ranges.
    pub(crate) fn is_sound(&self) -> bool
        ensures { result ≡ is_sound self.now.next self.now.master }
    {
        1 <= self.next
            && self.next <= NO_NUMBER
            && 1 <= self.active
            && self.active <= self.given
            && self.given <= MAX_BALLOT
            && self.members.as_slice().len() <= MAX_MEMBERS
            && waits_fit(&self.waiting)
            && may_wait(self.active, self.given, &self.waiting)
    }
}

// Returns true if the members of the ballot that waits are at most seven.
fn waits_fit(waiting: &Option<(u64, Config)>) -> bool
    ensures { result ≡ waits_fit waiting.now }
{
    match waiting {
        Some((_, config)) => config.members.as_slice().len() <= MAX_MEMBERS,
        None => true,
    }
}

// Returns true if this ballot may wait.
fn may_wait(active: u64, given: u64, waiting: &Option<(u64, Config)>) -> bool
    ensures { result ≡ may_wait active given waiting.now }
{
    match waiting {
        Some((ballot, _)) => active < *ballot && *ballot <= given,
        None => true,
    }
}

// Returns true if each of these numbers was given.
fn are_given(next: u8, members: &[u8]) -> bool
    ensures { result ≡ are_given next members.now }
{
    members.iter().all(|member| *member < next)
}
