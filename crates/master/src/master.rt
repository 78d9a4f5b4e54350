// The master: it assigns ballots to configurations and activates them.
//
// Ballots are numbered without gaps, and at most one waits. Assigning the next one supersedes the
// waiting one for good, so ballots become active in rising order, and two primaries never lead one
// ballot. A ballot becomes active only when its primary asks for it, which it does once every
// member holds its log: so the active configuration always has the agreed list. An assignment that
// never completes loses nothing that was agreed, but members that joined it no longer serve in the
// active ballot.
//
// Invariants: `given <= MAX_BALLOT` and `greatest <= MAX_NUMBER`. The master does not know which nodes exist or run;
// whoever assigns a ballot has to. No call takes memory: a `Config` is moved in, so what was
// decided stands even if there is no memory for the message about it.

ghost use Rattle.std.specs.Prelude.{◌≡◌, ◌≤◌, ◌+◌, ◌↔◌, true, false, None, Some, IfOk};
ghost use Rattle.std.specs.Prelude.{IsErrOf, if◌then◌else◌};
ghost use Rattle.agreement.specs.MasterState.{activating, assigning, is_granted};
ghost use Rattle.agreement.specs.MasterState.{master_after, opening_master, refusal};
ghost use Rattle.agreement.specs.MasterState.AssignRefusal.{bad_members, ballots_spent};
ghost use Rattle.ballot_base.specs.LawfulConfig.{is_lawful, max_node};

use crate::activation::Activation;
use crate::error::AssignError;
use ballot_base::{Config, MAX_NODE, MAX_NUMBER, Members};
use machine::MAX_BALLOT;
use std::marker::Model;

/// The active ballot with its members, and at most one ballot that waits to be activated. No call
/// takes memory.
pub struct Master {
    // The greatest number that a member may have, at most `MAX_NUMBER`.
    greatest: u8,
    // The active ballot; 1 at first.
    active: u64,
    members: Members,
    // The ballot that waits, with its configuration.
    waiting: Option<(u64, Config)>,
    // How many ballots were assigned, at most `MAX_BALLOT`; also the number of the last one.
    given: u64,
}

impl Drop for Master {
    fn drop(self) {
        let Master {
            greatest: _,
            active: _,
            members: _members,
            waiting: _waiting,
            given: _,
        } = self;
    }
}

impl Model for Master {
    ghost use Rattle.std.specs.Prelude.{◌≤◌};
    ghost use Rattle.agreement.specs.MasterState.{MasterState};
    ghost use Rattle.ballot_base.specs.LawfulConfig.{max_number};
    ghost use Rattle.machine.specs.Ballots.{max_ballot};

    ghost Value = { MasterState };

    ghost view = { λ master.
        record {
          greatest = master.greatest;
          active = master.active;
          members = master.members;
          waiting = master.waiting;
          given = master.given;
        } };

    ghost invariant = { λ master.
        (master.given ≤ max_ballot) × (master.greatest ≤ max_number) };
}

impl Master {
    /// Returns a master whose ballot 1 is active with these members and this primary. Its only
    /// error, [`AssignError::BadMembers`], comes for members that are not 1 to 7, not strictly
    /// rising, or outside 1 to 15, and for a primary that is none of them.
    pub fn new(members: Members, primary: u8) -> Result<Master, AssignError>
        ensures ok { IfOk result (λ master.
            master
            ≡ opening_master max_node (record { members = members; primary = primary })) }
        ensures bad { IsErrOf result AssignError.BadMembers
            ↔ (is_lawful max_node members primary ≡ false) }
        ensures spent { IsErrOf result AssignError.BallotsSpent → ⊥ }
    {
        Master::up_to(MAX_NODE, members, primary)
    }

    /// Returns a master as [`Master::new`] does, whose members may have numbers from 1 to
    /// `greatest` in all its ballots. Its only error is [`AssignError::BadMembers`].
    pub fn up_to(greatest: u8, members: Members, primary: u8) -> Result<Master, AssignError>
        requires bound { greatest ≤ MAX_NUMBER }
        ensures ok { IfOk result (λ master.
            master
            ≡ opening_master greatest (record { members = members; primary = primary })) }
        ensures bad { IsErrOf result AssignError.BadMembers
            ↔ (is_lawful greatest members primary ≡ false) }
        ensures spent { IsErrOf result AssignError.BallotsSpent → ⊥ }
    {
        let config = Config { members, primary };
        if !config.is_lawful_up_to(greatest) {
            return Err(AssignError::BadMembers);
        }
        Ok(Master {
            greatest,
            active: 1,
            members: config.members,
            waiting: None,
            given: 1,
        })
    }

    /// Returns true if [`Master::assign`] would accept the configuration.
    pub fn can_assign(&self, config: &Config) -> bool
        ensures { (result ≡ true) ↔ (refusal self.now config.now ≡ None) }
    {
        config.is_lawful_up_to(self.greatest) && self.given < MAX_BALLOT
    }

    /// Gives the next ballot to these members and this primary and lets it wait. A ballot that
    /// waited is superseded for good. Returns the new ballot. [`AssignError::BadMembers`] comes
    /// first, as when the master was opened, then [`AssignError::BallotsSpent`] once ballot 2^32 was given.
    pub fn assign(&mut self, members: Members, primary: u8) -> Result<u64, AssignError>
        ensures ok { IfOk result (λ ballot. ballot ≡ self.old.given + 1) }
        ensures bad { IsErrOf result AssignError.BadMembers
            ↔ (refusal self.old (record { members = members; primary = primary })
            ≡ Some bad_members) }
        ensures spent { IsErrOf result AssignError.BallotsSpent
            ↔ (refusal self.old (record { members = members; primary = primary })
            ≡ Some ballots_spent) }

        // If it is refused, nothing changes.
        ensures state { self.new
            ≡ master_after self.old (record { members = members; primary = primary })
            (refusal self.old (record { members = members; primary = primary })) }
    {
        let config = Config { members, primary };
        if !config.is_lawful_up_to(self.greatest) {
            return Err(AssignError::BadMembers);
        }
        if self.given >= MAX_BALLOT {
            return Err(AssignError::BallotsSpent);
        }
        Ok(self.give(config))
    }

    /// Assigns the next ballot to a configuration that is not refused, and returns its number.
    pub(crate) fn give(&mut self, config: Config) -> u64
        requires { refusal self.old config ≡ None }
        ensures ballot { result ≡ self.old.given + 1 }
        ensures state { self.new ≡ assigning self.old config }
    {
        self.given += 1;
        self.waiting = Some((self.given, config));
        self.given
    }

    /// Activates the ballot that waits. Returns [`Activation::Activated`] for it, and again for the
    /// active ballot; for any other ballot nothing changes, and it returns
    /// [`Activation::Superseded`].
    pub fn activate(&mut self, ballot: u64) -> Activation
        ensures state { self.new ≡ activating self.old ballot self.old.waiting }
        ensures answer { result ≡ (if is_granted self.old ballot self.old.waiting
            then Activation.Activated else Activation.Superseded) }
    {
        match self.waiting.take() {
            Some((waiting, config)) if waiting == ballot => {
                self.active = ballot;
                self.members = config.members;
                Activation::Activated
            }
            other => {
                self.waiting = other;
                if ballot == self.active {
                    Activation::Activated
                } else {
                    Activation::Superseded
                }
            }
        }
    }

    /// Returns the greatest number that a member may have.
    pub fn greatest(&self) -> u8
        ensures is { result ≡ self.now.greatest }
        ensures bound { result ≤ MAX_NUMBER }
    {
        self.greatest
    }

    /// Returns the active ballot and its members.
    pub fn active(&self) -> (u64, &[u8])
        ensures ballot { result.0 ≡ self.now.active }
        ensures members { result.1.now ≡ self.now.members }
    {
        (self.active, self.members.as_slice())
    }
}
