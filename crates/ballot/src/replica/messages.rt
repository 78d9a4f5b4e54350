// Handling the messages of other nodes.

ghost use Rattle.std.specs.Prelude.{◌≡◌, ◌↔◌, true, false, [], ◌∷◌, OnErr, IsErr};
ghost use Rattle.ballot.specs.Inside.{AppliesMore, CommitsMore, PlainStepOrLost, ReadingStepOrLost};
ghost use Rattle.ballot.specs.Told.{StepTold};
ghost use Rattle.ballot_base.specs.Sends.{Sends};
ghost use Rattle.ballot_base.specs.Losses.{AppendedStepOrLost, SendsAndAddsNothing, one_more};
ghost use Rattle.ballot_base.specs.StepOutcome.{message_to};
ghost use Rattle.ballot_base.specs.Unread.{is_unread};
ghost use Rattle.ballot_base.specs.Protocol.{received, replica_step};
ghost use Rattle.ballot_base.specs.Protocol.Input.{Receives};
ghost use Rattle.ballot_base.specs.Service.{follows, leads, on_append, on_commit, on_held};

use super::Replica;
use ballot_base::{
    Body, Effect, Message, append_next, apply_dropping, counted, least_raised, raise, send,
};
use machine::{Halted, Machine};

impl<M: Machine> Replica<M> {
    /// Handles a message of another node. A message whose effect on the log finds no memory is
    /// lost. Fails with `Halted` exactly if the replica has stopped, before or in this call.
    pub fn on(
        &mut self,
        message: Message<M::Command>,
        out: &mut Vec<Effect<M::Command, M::Output>>,
    ) -> Result<(), Halted>
        // The protocol's step, or one in which something was lost and that was counted.
        ensures step { self.old.state.stopped ≡ false →
            AppendedStepOrLost M.rules self.old
            (replica_step M.rules self.old.state (Receives message))
            self.new out.old.items out.new.items }
        // A message that sends, adds and applies nothing never runs out of memory, unless a
        // snapshot has to be read.
        ensures quiet { self.old.state.stopped ≡ false →
            SendsAndAddsNothing self.old.state
            (replica_step M.rules self.old.state (Receives message)) →
            is_unread M.rules self.old.state message.body ≡ false →
            self.new ≡ record self.old {
              state = (replica_step M.rules self.old.state (Receives message)).state;
            } }
        // A message whose snapshot has to be read and does not thaw counts as lost.
        ensures unread { self.old.state.stopped ≡ false →
            is_unread M.rules self.old.state message.body ≡ true →
            self.new ≡ record self.old { losses = one_more self.old.losses } }

        ensures halted { IsErr result ↔ (self.new.state.stopped ≡ true) }
        // It halts only in a step that applies commands.
        ensures applies { IsErr result → self.old.state.stopped ≡ false →
            AppliesMore message.body self.old
            (replica_step M.rules self.old.state (Receives message)) }
        ensures stopped { self.old.state.stopped ≡ true → self.new ≡ self.old }
        ensures err { OnErr result (out.new.items ≡ out.old.items) }
    {
        self.deliver(message, out);
        if self.stopped { Err(Halted) } else { Ok(()) }
    }

    /// Handles a message as [`Replica::on`] does. Returns true if nothing was lost; a loss is
    /// counted.
    pub fn deliver(
        &mut self,
        message: Message<M::Command>,
        out: &mut Vec<Effect<M::Command, M::Output>>,
    ) -> bool
        ensures step { self.old.state.stopped ≡ false →
            StepTold M.rules self.old
            (replica_step M.rules self.old.state (Receives message)) result
            self.new out.old.items out.new.items }
        ensures quiet { self.old.state.stopped ≡ false →
            SendsAndAddsNothing self.old.state
            (replica_step M.rules self.old.state (Receives message)) →
            is_unread M.rules self.old.state message.body ≡ false → result ≡ true }
        ensures unread { self.old.state.stopped ≡ false →
            is_unread M.rules self.old.state message.body ≡ true →
            self.new ≡ record self.old { losses = one_more self.old.losses } }
        ensures stopped { self.old.state.stopped ≡ true →
            (result ≡ true) × (self.new ≡ self.old) × (out.new.items ≡ out.old.items) }
        ensures stops { self.new.state.stopped ≡ true → out.new.items ≡ out.old.items }
        ensures applies { self.new.state.stopped ≡ true → self.old.state.stopped ≡ false →
            AppliesMore message.body self.old
            (replica_step M.rules self.old.state (Receives message)) }
    {
        if self.stopped {
            return true;
        }
        let whole = self.on_body(message.from, message.body, out);
        self.losses = counted(self.losses, whole);
        whole
    }

    // Handles a message by its kind. Returns true if nothing was lost, and counts no loss; the same
    // holds for the calls for each kind.
    fn on_body(
        &mut self,
        from: u8,
        body: Body<M::Command>,
        out: &mut Vec<Effect<M::Command, M::Output>>,
    ) -> bool
        requires { self.old.state.stopped ≡ false }
        ensures step { ReadingStepOrLost M.rules self.old
            (received M.rules self.old.state from body)
            (is_unread M.rules self.old.state body) result self.new out.old.items out.new.items }
        ensures unread { is_unread M.rules self.old.state body ≡ true →
            (result ≡ false) × (self.new ≡ self.old) }
        ensures stops { self.new.state.stopped ≡ true → out.new.items ≡ out.old.items }
        ensures applies { self.new.state.stopped ≡ true →
            AppliesMore body self.old (received M.rules self.old.state from body) }
    {
        match body {
            Body::NewBallot(ballot, members, previous, previous_members) => {
                self.on_new_ballot(ballot, members, previous, previous_members, out)
            }
            Body::Join(ballot, previous) => self.on_join(from, ballot, previous, out),
            Body::State(ballot, log) => self.on_state(ballot, log, out),
            Body::Install(ballot, log) => self.on_install(from, ballot, log, out),
            Body::Installed(ballot, _) => self.on_installed(from, ballot, out),
            Body::Activate(_) => true,
            Body::Activated(ballot) => self.on_activated(ballot, out),
            Body::Superseded(ballot) => {
                self.on_superseded(ballot);
                true
            }
            Body::Append(ballot, place, command) => {
                self.on_append(from, ballot, place, command, out)
            }
            Body::Held(ballot, held) => self.on_held(from, ballot, held, out),
            Body::Commit(ballot, held) => self.on_commit(ballot, held),
        }
    }

    // Handles Append: a backup appends the next place, and answers with Held.
    fn on_append(
        &mut self,
        from: u8,
        ballot: u64,
        place: u64,
        command: M::Command,
        out: &mut Vec<Effect<M::Command, M::Output>>,
    ) -> bool
        ensures step { PlainStepOrLost M.rules self.old
            (on_append M.Output self.old.state from ballot place command) result self.new
            out.old.items out.new.items }
        ensures runs { self.new.state.stopped ≡ self.old.state.stopped }
    {
        if !self.follows(ballot) {
            return true;
        }
        if place > self.log.places() {
            return true;
        }
        if !append_next(&mut self.log, place, command) {
            return false;
        }
        let body = Body::Held(ballot, self.log.places());
        self.send_one(from, body, out)
    }

    /// Sends one message. Returns false if memory runs out.
    pub(super) fn send_one(
        &self,
        receiver: u8,
        body: Body<M::Command>,
        out: &mut Vec<Effect<M::Command, M::Output>>,
    ) -> bool
        ensures { Sends out.old.items out.new.items
            (message_to M.Output self.now.state.id body receiver ∷ []) result }
    {
        let from = self.id;
        send(out, receiver, Message { from, body })
    }

    // Handles Held: the primary raises the member's progress, and commits what all members hold.
    fn on_held(
        &mut self,
        from: u8,
        ballot: u64,
        held: u64,
        out: &mut Vec<Effect<M::Command, M::Output>>,
    ) -> bool
        requires { self.old.state.stopped ≡ false }
        ensures step { PlainStepOrLost M.rules self.old
            (on_held M.rules self.old.state from ballot held) result
            self.new out.old.items out.new.items }
        ensures stops { self.new.state.stopped ≡ true → out.new.items ≡ out.old.items }
        ensures commits { self.new.state.stopped ≡ true →
            CommitsMore self.old (on_held M.rules self.old.state from ballot held) }
    {
        if !self.leads(ballot) {
            return true;
        }
        let before = out.len();
        let least = least_raised(self.log.places(), from, held, &self.progress);
        match self.commit_at(least, out) {
            Ok(commits_sent) => {
                raise(from, held, &mut self.progress);
                commits_sent
            }
            Err(_) => {
                out.truncate(before);
                false
            }
        }
    }

    // Handles Commit: a backup applies what every member holds, and drops the outputs, which only
    // the primary returns.
    fn on_commit(&mut self, ballot: u64, held: u64) -> bool
        requires { self.old.state.stopped ≡ false }
        ensures step { PlainStepOrLost M.rules self.old
            (on_commit M.rules self.old.state ballot held) result self.new [] [] }
        ensures commits { self.new.state.stopped ≡ true →
            CommitsMore self.old (on_commit M.rules self.old.state ballot held) }
    {
        if !self.follows(ballot) {
            return true;
        }
        if held > self.log.places() {
            return true;
        }
        if held <= self.committed {
            return true;
        }
        let from = self.committed;
        match apply_dropping(self.alloc, &mut self.machine, &self.log, from, held) {
            Ok(()) => {
                self.committed = held;
                true
            }
            Err(_) => {
                self.stopped = true;
                false
            }
        }
    }

    /// Returns true if this is a backup that holds the log of the ballot.
    pub(super) fn follows(&self, ballot: u64) -> bool
        ensures { result ≡ follows self.now.state ballot }
    {
        (self.joined == ballot && self.held_in == ballot) && self.role.is_backup()
    }

    /// Returns true if this is the active primary of the ballot.
    pub(super) fn leads(&self, ballot: u64) -> bool
        ensures { result ≡ leads self.now.state ballot }
    {
        self.joined == ballot && self.role.is_active()
    }
}
