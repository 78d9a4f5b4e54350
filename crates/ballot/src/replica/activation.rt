// Handling Activated: a new primary becomes active.

ghost use Rattle.std.specs.Prelude.{◌≡◌, ◌⊎◌, ◌++◌, true, false, ◌-◌, ◌<◌};
ghost use Rattle.std.specs.Prelude.{◌≤◌, length, IfOk, OnOk, OnErr};
ghost use Rattle.ballot_base.specs.Sends.{Sends};
ghost use Rattle.ballot.specs.Inside.{ActivationOrLost, PlainStepOrLost};
ghost use Rattle.ballot_base.specs.Activation.{may_begin, on_activated};
ghost use Rattle.ballot_base.specs.Logs.{Log, places, popped, pushed};
ghost use Rattle.ballot_base.specs.Replica.{others, progress_at};
ghost use Rattle.ballot_base.specs.Service.{commit};
ghost use Rattle.ballot_base.specs.StepOutcome.{message_to_followed};
ghost use Rattle.ballot_base.specs.Losses.{halted};
ghost use Rattle.ballot_base.specs.Application.{applied_to};
ghost use Rattle.lists.specs.Lists.{IsPrefixOf};

use super::Replica;
use ballot_base::{
    Body, Effect, MAX_PLACES, Progress, Role, apply_dropping, least_held, progress_of_others,
    send_appends,
};
use machine::{Halted, Machine, Memory};
use std::mem;

impl<M: Machine> Replica<M> {
    /// Handles Activated: applies the log, drops the outputs, and appends the start command of the
    /// ballot. Without memory for the start the message is lost. If a place cannot be applied the
    /// replica stops, and undoes what it did.
    pub(super) fn on_activated(
        &mut self,
        ballot: u64,
        out: &mut Vec<Effect<M::Command, M::Output>>,
    ) -> bool
        requires { self.old.state.stopped ≡ false }
        ensures step { PlainStepOrLost M.rules self.old (on_activated M.rules self.old.state ballot)
            result self.new out.old.items out.new.items }
        ensures stops { self.new.state.stopped ≡ true → out.new.items ≡ out.old.items }
    {
        if !self.may_begin(ballot) {
            return true;
        }
        let committed = self.committed;
        let Ok(progress) = self.add_start(ballot) else {
            return false;
        };
        match self.become_active(progress) {
            Ok(waiting) => self.begin(committed, waiting, out),
            Err(_) => {
                self.take_back_start();
                false
            }
        }
    }

    // Removes the start again, because memory ran out.
    fn take_back_start(&mut self)
        requires after { self.old.state.committed < places self.old.state.log }
        ensures { self.new ≡ record self.old {
          state = record self.old.state { log = popped self.old.state.log };
        } }
    {
        self.log.pop();
    }

    // Appends the start of a ballot to the log. Returns a progress for each other member, at the
    // length before it. On an error nothing has changed.
    fn add_start(&mut self, ballot: u64) -> Result<Vec<Progress>, Memory>
        ensures progress { IfOk result (λ progress. progress.items ≡
            progress_at (places self.old.state.log)
            (others self.old.state.id self.old.state.members)) }
        ensures state { OnOk result (self.new ≡ record self.old {
          state = record self.old.state {
            log = pushed self.old.state.log (M.rules.start_of ballot);
          };
        }) }
        ensures err { OnErr result (self.new ≡ self.old) }
    {
        let held = self.log.places();
        let members = self.members.as_slice();
        let progress = progress_of_others(self.alloc, held, self.id, members)?;
        self.log.push(M::start(ballot))?;
        Ok(progress)
    }

    // Applies all places except the start, and becomes active with this progress. Returns the
    // earlier progress. On an error the replica has stopped.
    fn become_active(&mut self, progress: Vec<Progress>) -> Result<Vec<Progress>, Halted>
        requires running { self.old.state.stopped ≡ false }
        requires after { self.old.state.committed < places self.old.state.log }
        ensures earlier { IfOk result (λ waiting. waiting.items ≡ self.old.state.progress) }
        ensures state { OnOk result (self.new ≡ record self.old {
          state = record (applied_to M.rules self.old.state (places self.old.state.log - 1)) {
            role = Role.Active;
            progress = progress.items;
          };
        }) }
        ensures stops { OnErr result (self.new ≡ record self.old {
          state = halted M.rules self.old.state;
        }) }
    {
        let held = self.log.places() - 1;
        let from = self.committed;
        match apply_dropping(self.alloc, &mut self.machine, &self.log, from, held) {
            Ok(()) => {
                self.committed = held;
                self.role = Role::Active;
                Ok(mem::replace(&mut self.progress, progress))
            }
            Err(halted) => {
                self.stopped = true;
                Err(halted)
            }
        }
    }

    // Sends the start to the other members, as an active primary, and commits what all hold.
    // Returns true if nothing was lost. If the replica stops, it is Installing again, with this
    // applied length and this progress.
    fn begin(
        &mut self,
        committed: u64,
        waiting: Vec<Progress>,
        out: &mut Vec<Effect<M::Command, M::Output>>,
    ) -> bool
        requires running { self.old.state.stopped ≡ false }
        requires some { 0 < length self.old.state.log.rest }
        requires applied { self.old.state.log.base ≤ committed }
        requires after { committed < places self.old.state.log }
        ensures { ActivationOrLost M.rules self.old result self.new out.old.items out.new.items
            ⊎ ((result ≡ false) × (out.new.items ≡ out.old.items) × (self.new ≡ record self.old {
              state = record self.old.state {
                log = popped self.old.state.log;
                committed = committed;
                role = Role.Installing;
                progress = waiting.items;
                stopped = true;
                machine = M.rules.opening;
              };
            })) }
    {
        let before = out.len();
        match self.send_start(out) {
            Ok(sent) => sent,
            Err(_) => {
                self.log.pop();
                self.committed = committed;
                self.role = Role::Installing;
                self.progress = waiting;
                out.truncate(before);
                false
            }
        }
    }

    // Sends the start to the other members, and commits what all hold. Returns true if no message
    // was lost. On an error the replica has stopped, and some outputs may have been appended to
    // `out`.
    fn send_start(&mut self, out: &mut Vec<Effect<M::Command, M::Output>>) -> Result<bool, Halted>
        requires running { self.old.state.stopped ≡ false }
        requires some { 0 < length self.old.state.log.rest }
        ensures state { OnOk result
            (self.new ≡ record self.old {
              state = (commit M.rules self.old.state).state;
            }) }
        ensures effects { IfOk result (λ whole. (front : Log M.Command) (last : M.Command) →
            self.old.state.log ≡ pushed front last →
            Sends out.old.items out.new.items
            (message_to_followed M.Output self.old.state.id
            (Body.Append self.old.state.joined (places front) last) self.old.state.progress
            ++ (commit M.rules self.old.state).effects) whole) }
        ensures stops { OnErr result
            (self.new ≡ record self.old {
              state = halted M.rules self.old.state;
            }) }
        ensures err { OnErr result (IsPrefixOf out.old.items out.new.items) }
    {
        let rest = self.log.rest();
        let last = rest.len() - 1;
        let sent = send_appends::<M>(
            self.alloc,
            self.id,
            self.joined,
            self.log.base() + last as u64,
            &rest[last],
            &self.progress,
            out,
        );
        let held = least_held(self.log.places(), &self.progress);
        let committed = self.commit_at(held, out)?;
        Ok(sent & committed)
    }

    /// Returns true if an Activated takes effect: every member holds the log, and a place is left.
    pub(super) fn may_begin(&self, ballot: u64) -> bool
        ensures { result ≡ may_begin self.now.state ballot }
    {
        self.installs(ballot) && (self.lacking.is_empty() && self.log.places() < MAX_PLACES)
    }
}
