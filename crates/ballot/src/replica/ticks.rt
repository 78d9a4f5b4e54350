// Retransmission, as time passes.

ghost use Rattle.std.specs.Prelude.{◌≡◌, ◌++◌, true, false};
ghost use Rattle.ballot.specs.Told.{StepTold};
ghost use Rattle.ballot_base.specs.Sends.{Sends};
ghost use Rattle.ballot_base.specs.Losses.{AppendedStepOrLost, SendsAndAddsNothing};
ghost use Rattle.ballot_base.specs.Protocol.{replica_step, ticked};
ghost use Rattle.ballot_base.specs.Protocol.Input.{Ticks};
ghost use Rattle.ballot_base.specs.Service.{appends_after};
ghost use Rattle.ballot_base.specs.StepOutcome.{message_to_followed};
ghost use Rattle.ballot_base.specs.Transfer.{install_effects};

use super::Replica;
use ballot_base::{
    Body, Effect, MASTER, Message, Role, counted, send, send_after, send_commits, send_installs,
    send_joins,
};
use machine::Machine;

impl<M: Machine> Replica<M> {
    /// Retransmits what others may have missed: a new primary its request or its log, an active one
    /// what members lack. Changes no log or role, and never halts.
    pub fn tick(&mut self, out: &mut Vec<Effect<M::Command, M::Output>>)
        ensures step { self.old.state.stopped ≡ false →
            AppendedStepOrLost M.rules self.old (replica_step M.rules self.old.state Ticks)
            self.new out.old.items out.new.items }
        ensures quiet { self.old.state.stopped ≡ false →
            SendsAndAddsNothing self.old.state
            (replica_step M.rules self.old.state Ticks) →
            self.new ≡ self.old }
        ensures state { self.new.state ≡ self.old.state }
        ensures stopped { self.old.state.stopped ≡ true →
            (self.new ≡ self.old) × (out.new.items ≡ out.old.items) }
    {
        self.retransmit(out);
    }

    /// Retransmits as [`Replica::tick`] does. Returns true if nothing was lost; a loss is counted.
    pub fn retransmit(&mut self, out: &mut Vec<Effect<M::Command, M::Output>>) -> bool
        ensures step { self.old.state.stopped ≡ false →
            StepTold M.rules self.old (replica_step M.rules self.old.state Ticks) result
            self.new out.old.items out.new.items }
        ensures quiet { self.old.state.stopped ≡ false →
            SendsAndAddsNothing self.old.state
            (replica_step M.rules self.old.state Ticks) →
            (result ≡ true) × (self.new ≡ self.old) }
        ensures state { self.new.state ≡ self.old.state }
        ensures stopped { self.old.state.stopped ≡ true →
            (result ≡ true) × (self.new ≡ self.old) × (out.new.items ≡ out.old.items) }
    {
        if self.stopped {
            return true;
        }
        let whole = self.send_repeats(out);
        self.losses = counted(self.losses, whole);
        whole
    }

    // Sends the retransmissions of the replica's role. Returns true if no message was lost.
    fn send_repeats(&self, out: &mut Vec<Effect<M::Command, M::Output>>) -> bool
        ensures { Sends out.old.items out.new.items
            (ticked M.Output self.now.state self.now.state.role).effects result }
    {
        match self.role {
            Role::Backup => true,
            Role::Fetching => {
                let receivers = self.previous_members.as_slice();
                send_joins(self.id, self.joined, self.previous, receivers, out)
            }
            Role::Installing => self.send_log(out),
            Role::Active => self.send_missing(out),
        }
    }

    // Sends each lagging member the command that it lacks next, and Commit to all. Returns true if
    // no message was lost.
    fn send_missing(&self, out: &mut Vec<Effect<M::Command, M::Output>>) -> bool
        ensures { Sends out.old.items out.new.items
            (appends_after M.Output self.now.state.id self.now.state.joined self.now.state.log
            self.now.state.progress ++ message_to_followed M.Output self.now.state.id
            (Body.Commit self.now.state.joined self.now.state.committed) self.now.state.progress)
            result }
    {
        let after = send_after::<M>(
            self.alloc,
            self.id,
            self.joined,
            &self.log,
            &self.progress,
            out,
        );
        let commits = send_commits(self.id, self.joined, self.committed, &self.progress, out);
        after & commits
    }

    /// Sends Install to the members that lack the log or, if there is none, Activate to the master.
    /// Returns true if no message was lost.
    pub(super) fn send_log(&self, out: &mut Vec<Effect<M::Command, M::Output>>) -> bool
        ensures { Sends out.old.items out.new.items
            (install_effects M.Output self.now.state self.now.state.lacking) result }
    {
        if self.lacking.is_empty() {
            let body = Body::Activate(self.joined);
            let from = self.id;
            return send(out, MASTER, Message { from, body });
        }
        send_installs::<M>(
            self.alloc,
            self.id,
            self.joined,
            &self.log,
            &self.lacking,
            out,
        )
    }
}
