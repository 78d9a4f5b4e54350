// Handling Installed and Superseded: the end of a log transfer at the new primary.

ghost use Rattle.std.specs.Prelude.{◌≡◌, ◌&&◌, ◌==◌, true, []};
ghost use Rattle.std.specs.List.{list_any};
ghost use Rattle.ballot.specs.Inside.{PlainStepOrLost};
ghost use Rattle.ballot_base.specs.Activation.{is_installing_in, on_installed, on_superseded};

use super::Replica;
use ballot_base::{Body, Effect, MASTER, Role, forget};
use machine::Machine;

impl<M: Machine> Replica<M> {
    /// Handles Installed: a member has the log now. After the last one, asks the master to activate
    /// the ballot.
    pub(super) fn on_installed(
        &mut self,
        from: u8,
        ballot: u64,
        out: &mut Vec<Effect<M::Command, M::Output>>,
    ) -> bool
        ensures step { PlainStepOrLost M.rules self.old
            (on_installed M.Output self.old.state from ballot) result
            self.new out.old.items out.new.items }
        ensures runs { self.new.state.stopped ≡ self.old.state.stopped }
    {
        if !self.waits_for_answer(from, ballot) {
            return true;
        }
        forget(from, &mut self.lacking);
        if !self.lacking.is_empty() {
            return true;
        }
        self.send_one(MASTER, Body::Activate(self.joined), out)
    }

    /// Handles Superseded: the new primary gives the ballot up and becomes a backup. Loses nothing.
    pub(super) fn on_superseded(&mut self, ballot: u64)
        ensures step { PlainStepOrLost M.rules self.old
            (on_superseded M.Output self.old.state ballot) true self.new [] [] }
        ensures runs { self.new.state.stopped ≡ self.old.state.stopped }
    {
        if self.installs(ballot) {
            self.role = Role::Backup;
        }
    }

    /// Returns true if a member's Installed for this ballot is still awaited.
    pub(super) fn waits_for_answer(&self, from: u8, ballot: u64) -> bool
        ensures { result ≡ (is_installing_in self.now.state ballot
            && list_any (λ member. member == from) self.now.state.lacking) }
    {
        self.installs(ballot) && self.lacking.contains(&from)
    }

    /// Returns true if this is the new primary of the ballot, and installs its log.
    pub(super) fn installs(&self, ballot: u64) -> bool
        ensures { result ≡ is_installing_in self.now.state ballot }
    {
        self.joined == ballot && self.role.is_installing()
    }
}
