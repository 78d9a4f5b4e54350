// The master, whose answers are messages.
//
// Each answer is an event of the run, so its message was sent by the master when it leaves here.

ghost use Rattle.std.specs.Prelude.{◌≡◌, ◌≤◌, ◌+◌, None, Some, true, false, IfOk, IsErrOf, OnErr, OnOk};
ghost use Rattle.agreement.specs.MasterState.{refusal};
ghost use Rattle.agreement.specs.MasterState.AssignRefusal.{bad_members, ballots_spent};
ghost use Rattle.agreement.specs.cut_logs.Masters.{assigned};
ghost use Rattle.ballot_base.specs.LawfulConfig.{is_lawful, max_node};
ghost use Rattle.broker_spec.specs.declared.command.Command.{Command};
ghost use Rattle.post.specs.outbox.Given.{IsMasterNumber};
ghost use Rattle.post.specs.outbox.MasterAnswers.{MayGet, answer_to, master_after_outcome, message_if, message_of};

use crate::outbox::order_error::OrderError;
use ballot_base::Config;
use master::AssignError;
use run_history::{MasterOnRecord, RunNaming, SentMessage};
use std::alloc::Global;
use std::marker::Model;
use std::sync::Wait;

/// A message of the master with its receiver's number, which it sent in the run. Only a
/// [`MessagingMaster`] makes one. It cannot be dropped: it ends in its receiver's outbox, or is lost
/// if no node has the number.
pub struct Answer<H: RunNaming> {
    sent: SentMessage<H>,
}

impl<H: RunNaming> Model for Answer<H> {
    ghost use Rattle.post.specs.outbox.Given.{Addressed};

    ghost Value = { Addressed };

    ghost view = { λ answer. answer.sent };
}

impl<H: RunNaming> Answer<H> {
    /// Returns the number of its receiver.
    pub fn receiver(&self) -> u8
        ensures { result ≡ self.now.receiver }
    {
        self.sent.receiver()
    }

    /// Returns the message: for an outbox, or to drop it if no node has the receiver's number.
    pub fn into_sent(self) -> SentMessage<H>
        ensures { result ≡ self }
    {
        let Answer { sent } = self;
        sent
    }
}

/// The master of a run, whose answers are messages. Whatever calls come, each change of its state is
/// an event of the run.
#[derive(Drop)]
pub struct MessagingMaster<H: RunNaming> {
    master: MasterOnRecord<H>,
}

impl<H: RunNaming> Model for MessagingMaster<H> {
    ghost use Rattle.std.specs.Prelude.{◌≡◌, ◌≤◌};
    ghost use Rattle.ballot_base.specs.LawfulConfig.{max_node};
    ghost use Rattle.agreement.specs.MasterState.{MasterState};

    ghost Value = { MasterState };

    ghost view = { λ messaging. messaging.master.state };

    ghost invariant = { λ messaging. (1 ≤ messaging.master.state.given)
        × (messaging.master.state.greatest ≡ max_node) };
}

impl<H: RunNaming> MessagingMaster<H> {
    /// Returns the master of a run, which has given the first ballot, and whose members have numbers
    /// up to 15.
    pub fn new(master: MasterOnRecord<H>) -> MessagingMaster<H>
        requires given { 1 ≤ master.state.given }
        requires numbers { master.state.greatest ≡ max_node }
        ensures { result ≡ master.state }
    {
        MessagingMaster { master }
    }

    /// Returns the master as the run has it on record.
    pub fn into_record(self) -> MasterOnRecord<H>
        ensures { result.state ≡ self }
    {
        let MessagingMaster { master } = self;
        master
    }

    /// Assigns the next ballot to a configuration. Returns the ballot, and the message to its
    /// primary.
    pub fn assign<R: Wait>(
        &mut self,
        rt: &R,
        alloc: Global,
        config: Config,
    ) -> Result<(u64, Answer<H>), OrderError>
        ensures ballot { IfOk result (λ given. given.0 ≡ self.old.given + 1) }
        ensures given { IfOk result (λ given. MayGet config given.0) }
        ensures answer { IfOk result (λ given.
            given.1 ≡ message_of (assigned Command self.old config)) }
        ensures state { OnOk result (self.new ≡ (assigned Command self.old config).state) }
        ensures taken { OnOk result (refusal self.old config ≡ None) }
        ensures bad { IsErrOf result (OrderError.Refused AssignError.BadMembers)
            → refusal self.old config ≡ Some bad_members }
        ensures spent { IsErrOf result (OrderError.Refused AssignError.BallotsSpent)
            → refusal self.old config ≡ Some ballots_spent }
        ensures unlawful { IsErrOf result (OrderError.Refused AssignError.BadMembers)
            → is_lawful max_node config.members config.primary ≡ false }
        ensures lawful { IsErrOf result (OrderError.Refused AssignError.BallotsSpent)
            → is_lawful max_node config.members config.primary ≡ true }

        // If it is refused, or memory runs out, nothing changes.
        ensures same { OnErr result (self.new ≡ self.old) }
    {
        let is_granted = self.master.can_assign(&config);
        if !config.is_lawful() {
            return Err(OrderError::Refused(AssignError::BadMembers));
        }
        if !is_granted {
            return Err(OrderError::Refused(AssignError::BallotsSpent));
        }
        let (ballot, sent) = self.master.assign(rt, alloc, config)?;
        Ok((ballot, Answer { sent }))
    }

    /// Returns the answer to a node's message, if it asks for the activation of a ballot and gets
    /// one.
    pub fn answer<R: Wait>(&mut self, rt: &R, asked: SentMessage<H>) -> Option<Answer<H>>
        requires { IsMasterNumber asked.receiver }
        ensures answer { result
            ≡ message_if (answer_to self.old asked.message.from asked.message.body) }
        ensures state { self.new
            ≡ master_after_outcome self.old
            (answer_to self.old asked.message.from asked.message.body) }
    {
        match self.master.answer(rt, asked) {
            Some(sent) => Some(Answer { sent }),
            None => None,
        }
    }
}
