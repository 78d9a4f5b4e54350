// Proposing a command.

ghost use Rattle.std.specs.Prelude.{◌≡◌, ◌≤◌, ◌↔◌, ◌⊎◌, true, false, OnOk, OnErr};
ghost use Rattle.std.specs.Prelude.{IsErrOf, MatchResult};
ghost use Rattle.ballot.specs.Inside.{Lacks, MessagesOrLost};
ghost use Rattle.ballot.specs.Told.{StepTold};
ghost use Rattle.ballot_base.specs.Logs.{places};
ghost use Rattle.ballot_base.specs.Losses.{AppendedStepOrLost, StepMessagesOrLost, one_more};
ghost use Rattle.ballot_base.specs.Replica.{is_active};
ghost use Rattle.ballot_base.specs.Sends.{Sends};
ghost use Rattle.ballot_base.specs.Service.{added, max_places, proposed};
ghost use Rattle.ballot_base.specs.StepOutcome.{message_to_followed};

use super::Replica;
use ballot_base::errors::ProposeError;
use ballot_base::{Body, Effect, MAX_PLACES, counted, least_held, send_appends};
use machine::Machine;

impl<M: Machine> Replica<M> {
    /// Proposes a command: appends it to the log of an active primary. Its outputs are returned,
    /// with its place, once every member is known to hold it: by this call for a sole member,
    /// otherwise by a later one. A message for which memory runs out is lost.
    pub fn propose(
        &mut self,
        command: M::Command,
        out: &mut Vec<Effect<M::Command, M::Output>>,
    ) -> Result<(), ProposeError>
        // The protocol's step, or one in which memory ran out and that was counted.
        ensures step { self.old.state.stopped ≡ false →
            AppendedStepOrLost M.rules self.old (proposed M.rules self.old.state command)
            self.new out.old.items out.new.items }
        ensures done { OnOk result
            (StepMessagesOrLost self.old (added M.rules self.old.state command)
            self.new out.old.items out.new.items) }

        // When each refusal comes. Only running out of memory may happen at any time.
        ensures halted { IsErrOf result ProposeError.Halted ↔ (self.new.state.stopped ≡ true) }
        ensures not_active { IsErrOf result ProposeError.NotActive
            ↔ ((self.old.state.stopped ≡ false) × (is_active self.old.state.role ≡ false)) }
        ensures full { IsErrOf result ProposeError.LogFull
            ↔ ((self.old.state.stopped ≡ false) ×
            (is_active self.old.state.role ≡ true) ×
            (max_places ≤ places self.old.state.log)) }

        // What stays.
        ensures memory { IsErrOf result ProposeError.Memory →
            self.new ≡ record self.old { losses = one_more self.old.losses } }
        ensures same { (self.old.state.stopped ≡ true)
            ⊎ (IsErrOf result ProposeError.NotActive ⊎ IsErrOf result ProposeError.LogFull) →
            self.new ≡ self.old }
        ensures err { OnErr result (out.new.items ≡ out.old.items) }
    {
        self.append(command, out).0
    }

    /// Proposes a command as [`Replica::propose`] does. Returns its answer, and true if nothing was
    /// lost; a loss is counted.
    pub fn append(
        &mut self,
        command: M::Command,
        out: &mut Vec<Effect<M::Command, M::Output>>,
    ) -> (Result<(), ProposeError>, bool)
        ensures step { self.old.state.stopped ≡ false →
            StepTold M.rules self.old (proposed M.rules self.old.state command) result.1
            self.new out.old.items out.new.items }
        ensures done { OnOk result.0
            (StepMessagesOrLost self.old (added M.rules self.old.state command)
            self.new out.old.items out.new.items) }
        ensures halted { IsErrOf result.0 ProposeError.Halted ↔ (self.new.state.stopped ≡ true) }
        ensures not_active { IsErrOf result.0 ProposeError.NotActive
            ↔ ((self.old.state.stopped ≡ false) × (is_active self.old.state.role ≡ false)) }
        ensures full { IsErrOf result.0 ProposeError.LogFull
            ↔ ((self.old.state.stopped ≡ false) ×
            (is_active self.old.state.role ≡ true) ×
            (max_places ≤ places self.old.state.log)) }
        ensures memory { IsErrOf result.0 ProposeError.Memory → (result.1 ≡ false)
            × (self.new ≡ record self.old { losses = one_more self.old.losses }) }
        ensures same { (self.old.state.stopped ≡ true)
            ⊎ (IsErrOf result.0 ProposeError.NotActive ⊎ IsErrOf result.0 ProposeError.LogFull) →
            (result.1 ≡ true) × (self.new ≡ self.old) }
        ensures err { OnErr result.0 (out.new.items ≡ out.old.items) }
    {
        if self.stopped {
            return (Err(ProposeError::Halted), true);
        }
        if !self.role.is_active() {
            return (Err(ProposeError::NotActive), true);
        }
        if self.log.places() >= MAX_PLACES {
            return (Err(ProposeError::LogFull), true);
        }
        match self.add(command, out) {
            Ok(whole) => {
                self.losses = counted(self.losses, whole);
                (Ok(()), whole)
            }
            Err(error) => {
                self.losses = counted(self.losses, false);
                (Err(error), false)
            }
        }
    }

    // Appends a command to the log, sends it to the other members and commits what all hold.
    // Returns true if no message was lost, and counts no loss. A call that fails takes back the
    // command and its messages; after `Halted` the replica has stopped.
    fn add(
        &mut self,
        command: M::Command,
        out: &mut Vec<Effect<M::Command, M::Output>>,
    ) -> Result<bool, ProposeError>
        requires { self.old.state.stopped ≡ false }
        ensures outcome { MatchResult result
            (λ whole. MessagesOrLost self.old (added M.rules self.old.state command) whole
            self.new out.old.items out.new.items)
            (λ error. Lacks M.rules error self.old self.new) }
        ensures err { OnErr result (out.new.items ≡ out.old.items) }
    {
        let before = out.len();
        let sent = self.send_next(&command, out);
        let Ok(()) = self.log.push(command) else {
            out.truncate(before);
            return Err(ProposeError::Memory);
        };
        let held = least_held(self.log.places(), &self.progress);
        match self.commit_at(held, out) {
            Ok(commits_sent) => Ok(sent & commits_sent),
            Err(_) => {
                self.log.pop();
                out.truncate(before);
                Err(ProposeError::Halted)
            }
        }
    }

    // Sends Append with the command of the next place to the other members. Returns true if no
    // message was lost.
    fn send_next(&self, command: &M::Command, out: &mut Vec<Effect<M::Command, M::Output>>) -> bool
        ensures { Sends out.old.items out.new.items
            (message_to_followed M.Output self.now.state.id
            (Body.Append self.now.state.joined (places self.now.state.log) command.now)
            self.now.state.progress) result }
    {
        let place = self.log.places();
        send_appends::<M>(
            self.alloc,
            self.id,
            self.joined,
            place,
            command,
            &self.progress,
            out,
        )
    }
}
