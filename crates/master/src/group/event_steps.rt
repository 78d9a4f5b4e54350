// The event handlers of a group.

ghost use Rattle.std.specs.Prelude.{◌≡◌, ◌<◌, ◌↔◌, true, false, None, Some, slice_get, OnOk};
ghost use Rattle.std.specs.Prelude.{OnErr, IsErr};
ghost use Rattle.ballot_base.specs.declared.message.Body.TheVariants.{Activate};
ghost use Rattle.ballot_base.specs.Compaction.{can_cut};
ghost use Rattle.ballot_base.specs.Replica.{ReplicaState};
ghost use Rattle.lists.specs.Lists.{In};
ghost use Rattle.agreement.specs.cut_logs.Masters.{activated, assigned};
ghost use Rattle.agreement.specs.MasterState.{refusal};
ghost use Rattle.master.specs.Exact.{event_outcome};
ghost use Rattle.master.specs.Outcomes.{cut_outcome};
ghost use Rattle.master.specs.Inside.Losses.{GroupCutOrLost, GroupMasterStepOrLost};
ghost use Rattle.master.specs.Steps.{GroupEventOrLost, GroupTakesNoMemory, done_exactly};

use super::Group;
use crate::acknowledged::follow_ballot;
use crate::copies::{config_of, copy_of};
use crate::cut_places::record;
use crate::event::{Event, Idle};
use crate::inputs::{Input, counted};
use crate::messages_sent::{activation_answer, asks_for, send};
use ballot_base::{Body, Config, MAX_PLACES, Members};
use machine::{Machine, Memory};

impl<M: Machine> Group<M> {
    /// Proposes a command to an active primary. Fails with [`Idle`] at any other node and for a
    /// full log.
    pub(super) fn propose(&mut self, node: u8, command: &M::Command) -> Result<(), Idle>
        ensures step { GroupEventOrLost M.rules self.old (Event.Propose node command.now) self.new }
        ensures idle { IsErr result ↔
            (event_outcome M.rules self.old.moment (Event.Propose node command.now) ≡ None) }
        ensures same { OnErr result (self.new ≡ self.old) }
        ensures quiet { GroupTakesNoMemory
            M.rules self.old.moment (Event.Propose node command.now) →
            self.new ≡ done_exactly M.rules self.old (Event.Propose node command.now) }
    {
        let Some(at) = self.running(node) else {
            return Err(Idle);
        };
        let status = self.nodes[at].status();
        if !status.role.is_active() || status.held >= MAX_PLACES {
            return Err(Idle);
        }
        match M::copy(self.alloc, command) {
            Ok(command) => self.take_input(at, Input::Proposed(command)),
            Err(_) => self.count_loss(),
        }
        Ok(())
    }

    /// Asks the master to assign a ballot to a configuration. Fails with [`Idle`] if it refuses.
    pub(super) fn assign(&mut self, config: &Config) -> Result<(), Idle>
        ensures step { GroupEventOrLost M.rules self.old (Event.Assign config.now) self.new }
        ensures idle { IsErr result ↔
            (event_outcome M.rules self.old.moment (Event.Assign config.now) ≡ None) }
        ensures same { OnErr result (self.new ≡ self.old) }
        ensures quiet { GroupTakesNoMemory M.rules self.old.moment (Event.Assign config.now) →
            self.new ≡ done_exactly M.rules self.old (Event.Assign config.now) }
    {
        if !self.master.can_assign(config) {
            return Err(Idle);
        }
        match self.give(config) {
            Ok(()) => {}
            Err(_) => self.count_loss(),
        }
        Ok(())
    }

    // Assigns a ballot, and sends NewBallot to its primary. Fails only if memory runs out.
    fn give(&mut self, config: &Config) -> Result<(), Memory>
        requires { refusal self.old.moment.master config.now ≡ None }
        ensures ok { OnOk result (GroupMasterStepOrLost self.old
            (assigned M.Command self.old.moment.master config.now) self.new) }
        ensures err { OnErr result (self.new ≡ self.old) }
    {
        let given = config_of(self.alloc, config)?;
        let members = Members::from_slice(self.alloc, config.members.as_slice())?;
        let (previous, previous_members) = self.master.active();
        let previous_members = Members::from_slice(self.alloc, previous_members)?;
        let ballot = self.master.give(given);
        self.next.begin(ballot);
        let body = Body::NewBallot(ballot, members, previous, previous_members);
        let kept = send(&mut self.sent, config.primary, body);
        self.losses = counted(self.losses, kept, true);
        Ok(())
    }

    /// Delivers message `number` to its receiver. Fails with [`Idle`] if no such message was sent
    /// or the receiver does not run.
    pub(super) fn deliver(&mut self, number: u64) -> Result<(), Idle>
        ensures step { GroupEventOrLost M.rules self.old (Event.Deliver number) self.new }
        ensures idle { IsErr result ↔
            (event_outcome M.rules self.old.moment (Event.Deliver number) ≡ None) }
        ensures same { OnErr result (self.new ≡ self.old) }
        ensures quiet { GroupTakesNoMemory M.rules self.old.moment (Event.Deliver number) →
            self.new ≡ done_exactly M.rules self.old (Event.Deliver number) }
    {
        let Some((receiver, message)) = self.sent.get(number as usize) else {
            return Err(Idle);
        };
        if *receiver == 0 {
            let from = message.from;
            match asks_for(message) {
                Some(ballot) => self.answer(from, ballot),
                None => {}
            }
            return Ok(());
        }
        let Some(at) = self.running(*receiver) else {
            return Err(Idle);
        };
        if !self.heeds(at, message) {
            return Ok(());
        }
        match copy_of::<M>(self.alloc, message) {
            Ok(message) => self.take_input(at, Input::Received(message)),
            Err(_) => self.count_loss(),
        }
        Ok(())
    }

    // Answers an Activate, as the master.
    fn answer(&mut self, from: u8, ballot: u64)
        requires { In (0, record { from = from; body = Activate ballot })
            self.old.moment.world.sent }
        ensures { GroupMasterStepOrLost self.old
            (activated M.Command self.old.moment.master ballot from
            self.old.moment.master.waiting) self.new }
    {
        let (before, _) = self.master.active();
        let activation = self.master.activate(ballot);
        let (after, _) = self.master.active();
        follow_ballot(&mut self.told, &mut self.next, before, after);
        let kept = send(&mut self.sent, from, activation_answer(activation, ballot));
        self.losses = counted(self.losses, kept, true);
    }

    /// Ticks a node, which retransmits what others may have missed. Fails with [`Idle`] if it does
    /// not run.
    pub(super) fn tick(&mut self, node: u8) -> Result<(), Idle>
        ensures step { GroupEventOrLost M.rules self.old (Event.Tick node) self.new }
        ensures idle { IsErr result ↔
            (event_outcome M.rules self.old.moment (Event.Tick node) ≡ None) }
        ensures same { OnErr result (self.new ≡ self.old) }
        ensures quiet { GroupTakesNoMemory M.rules self.old.moment (Event.Tick node) →
            self.new ≡ done_exactly M.rules self.old (Event.Tick node) }
    {
        let Some(at) = self.running(node) else {
            return Err(Idle);
        };
        if !self.nodes[at].speaks() {
            return Ok(());
        }
        self.take_input(at, Input::Ticked);
        Ok(())
    }

    /// Cuts a node's log. Fails with [`Idle`] if the node does not run or has nothing to cut.
    pub(super) fn cut(&mut self, node: u8) -> Result<(), Idle>
        ensures step { GroupEventOrLost M.rules self.old (Event.Cut node) self.new }
        ensures idle { IsErr result ↔ (event_outcome M.rules self.old.moment (Event.Cut node)
            ≡ None) }
        ensures same { OnErr result (self.new ≡ self.old) }
        ensures quiet { GroupTakesNoMemory M.rules self.old.moment (Event.Cut node) →
            self.new ≡ done_exactly M.rules self.old (Event.Cut node) }
    {
        let Some(at) = self.running(node) else {
            return Err(Idle);
        };
        if !self.nodes[at].can_cut() {
            return Err(Idle);
        }
        self.cut_at(at);
        Ok(())
    }

    // Cuts the log of a node that has something to cut, after the dropped places were recorded.
    fn cut_at(&mut self, at: usize)
        requires { (replica : ReplicaState M M.Command) ×
            (slice_get self.old.moment.world.nodes at ≡ Some replica) ×
            (can_cut replica ≡ true) }
        ensures { (replica : ReplicaState M M.Command) →
            slice_get self.old.moment.world.nodes at ≡ Some replica →
            GroupCutOrLost M.rules self.old (cut_outcome M.rules at replica) self.new }
    {
        let before = self.archive.len();
        let replica = &self.nodes[at];
        let (base, _) = replica.snapshot();
        let committed = replica.status().committed;
        let Ok(()) = record::<M>(
            self.alloc,
            &mut self.archive,
            base,
            committed,
            replica.rest(),
        ) else {
            self.archive.truncate(before);
            self.losses = counted(self.losses, false, true);
            return;
        };
        let replica = &mut self.nodes[at];
        if replica.cut() {
            return;
        }
        self.archive.truncate(before);
        self.losses = counted(self.losses, false, true);
    }

    /// Stops a node for good. Fails with [`Idle`] if it does not run.
    pub(super) fn crash(&mut self, node: u8) -> Result<(), Idle>
        ensures step { GroupEventOrLost M.rules self.old (Event.Crash node) self.new }
        ensures idle { IsErr result ↔
            (event_outcome M.rules self.old.moment (Event.Crash node) ≡ None) }
        ensures same { OnErr result (self.new ≡ self.old) }
        ensures quiet { GroupTakesNoMemory M.rules self.old.moment (Event.Crash node) →
            self.new ≡ done_exactly M.rules self.old (Event.Crash node) }
    {
        let Some(at) = self.running(node) else {
            return Err(Idle);
        };
        let replica = &mut self.nodes[at];
        replica.stop();
        Ok(())
    }
}
