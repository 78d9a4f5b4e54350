// The master with what it knows of the log.
//
// The invariant: by that prefix of the log the master has just this state, and just as many events
// as it counted. There is one master: a run has one word for it.

ghost use Rattle.std.specs.Prelude.{◌≡◌, ◌+◌, ◌↔◌, true, false, None, IfOk, OnErr, OnOk};
ghost use mathlib.Core.List.{IsPrefix};
ghost use Rattle.agreement.specs.MasterState.{refusal};
ghost use Rattle.agreement.specs.cut_logs.Masters.{activated, assigned};
ghost use Rattle.ballot_base.specs.StepOutcome.{master};
ghost use Rattle.ballot_base.specs.declared.message.Body.TheVariants.{Activate};
ghost use Rattle.broker_spec.specs.declared.command.Command.{Command};
ghost use Rattle.lists.specs.Lists.{In};
ghost use Rattle.run_history.specs.declared.event.MasterAct.TheVariants.{Answers, Assigns};
ghost use Rattle.run_history.specs.Ends.{IsMasterSettled};
ghost use Rattle.run_history.specs.History.{IsMasterOf};
ghost use Rattle.run_history.specs.Log.{master_in, sent_in};
ghost use Rattle.run_history.specs.Masters.{Answered, MasterDid, message_of};
ghost use Rattle.run_history.specs.Rules.{word_of};

use crate::event::RunEvent;
use crate::naming::RunNaming;
use crate::node_on_record::EVENT_LIMIT;
use crate::rule::RunRule;
use crate::seen_run::SeenRun;
use crate::sent_message::SentMessage;
use crate::told;
use crate::told::Told;
use crate::waiting::{wait_unless_below, wait_unless_equal};
use ballot_base::{Body, Config, MASTER, Members, Message};
use logbook::Word;
use master::{Master, activation_answer};
use std::alloc::Global;
use std::marker::Model;
use std::snapshot::Snapshot;
use std::sync::Wait;
use world_base::Memory;

/// The master whose steps are events of the run.
#[derive(Drop)]
pub struct MasterOnRecord<H: RunNaming> {
    state: Master,
    word: Word<RunEvent, u64, RunRule>,
    // How many events it has; the word has the same number.
    count: u64,
    seen: SeenRun<H>,
}

impl<H: RunNaming> Model for MasterOnRecord<H> {
    ghost use Rattle.std.specs.Prelude.{◌≡◌, false};
    ghost use Rattle.run_history.specs.History.{IsMasterOf};
    ghost use Rattle.run_history.specs.Masters.{MasterView};
    ghost use Rattle.run_history.specs.Rules.{word_of};

    ghost Value = { MasterView };

    ghost view = { λ recorded. record { state = recorded.state; log = recorded.seen } };

    ghost invariant = { λ recorded. (recorded.word ≡ word_of H.book 0)
        × IsMasterOf H.config recorded.seen recorded.state recorded.count
        × (H.linked ≡ false) };
}

impl<H: RunNaming> MasterOnRecord<H> {
    /// Returns a master without events.
    pub(crate) fn new(
        state: Master,
        word: Word<RunEvent, u64, RunRule>,
        seen: SeenRun<H>,
    ) -> MasterOnRecord<H>
        requires word { word ≡ word_of H.book 0 }
        requires master { IsMasterOf H.config seen state 0 }
        requires own { H.linked ≡ false }
        ensures { result ≡ record { state = state; log = seen } }
    {
        MasterOnRecord {
            state,
            word,
            count: 0,
            seen,
        }
    }

    /// Returns the prefix of the log that it knows.
    pub fn seen(&self) -> SeenRun<H>
        ensures { result ≡ self.now.log }
    {
        self.seen.again()
    }

    /// Proves that all nodes are in this program, as their master is.
    pub fn has_all_nodes(&self)
        ensures { H.linked ≡ false }
    {
        let _state = &self.state;
    }

    /// Proves that by the log the master has the state that it has.
    pub fn is_of_run(&self)
        ensures { master_in H.config self.now.log ≡ self.now.state }
    {
        let _state = &self.state;
    }

    /// Proves that by `mark`, which has all that the master knows, it has the state that it has and
    /// no further events. Waits for ever if the log has further events of the master.
    pub fn settle<R: Wait>(&self, rt: &R, mark: &SeenRun<H>)
        requires { IsPrefix self.now.log mark.now }
        ensures { IsMasterSettled H.config mark.now self.now }
    {
        let mut later = mark.again();
        let count = later.look(&self.word);
        wait_unless_equal(rt, count, self.count);
    }

    /// Returns true if [`MasterOnRecord::assign`] takes this configuration: a ballot may have it,
    /// and not all ballots were assigned.
    pub fn can_assign(&self, config: &Config) -> bool
        ensures { (result ≡ true) ↔ (refusal self.now.state config.now ≡ None) }
    {
        self.state.can_assign(config)
    }

    /// Assigns the next ballot to a configuration, as an event of the run. Returns the ballot, and
    /// the message to its primary.
    pub fn assign<R: Wait>(
        &mut self,
        rt: &R,
        alloc: Global,
        config: Config,
    ) -> Result<(u64, SentMessage<H>), Memory>
        requires { refusal self.old.state config ≡ None }
        ensures ballot { IfOk result (λ given. given.0 ≡ self.old.state.given + 1) }
        ensures message { IfOk result (λ given. given.1
            ≡ message_of (assigned Command self.old.state config)) }
        ensures did { OnOk result (MasterDid self.old (Assigns config)
            (assigned Command self.old.state config) self.new) }

        // Running out of memory changes nothing, and is no event.
        ensures same { OnErr result (self.new ≡ self.old) }
    {
        wait_unless_below(rt, self.count, EVENT_LIMIT);
        let members = Members::from_slice(alloc, config.members.as_slice())?;
        let (previous, of_previous) = self.state.active();
        let previous_members = Members::from_slice(alloc, of_previous)?;
        let assigned = Snapshot::of(&config);
        let receiver = config.primary;
        let Ok(ballot) = self.state.assign(config.members, receiver) else {
            unreachable!()
        };
        let body = Body::NewBallot(ballot, members, previous, previous_members);
        let message = Message { from: MASTER, body };
        let told = Told::Assigned(told::Assigned {
            config: assigned,
            after: Snapshot::of(&self.state),
            receiver,
            message: Snapshot::of(&message),
        });
        let mut seen = self.seen.again();
        seen.add_or_wait(rt, &self.word, self.count, &told);
        let sent = SentMessage::new(receiver, message, seen.again());
        self.count += 1;
        self.seen = seen;
        Ok((ballot, sent))
    }

    /// Answers a message that was sent to the master, as an event of the run, if it asks for the
    /// activation of a ballot. Any other message changes nothing, and is no event.
    pub fn answer<R: Wait>(&mut self, rt: &R, asked: SentMessage<H>) -> Option<SentMessage<H>>
        requires { asked.receiver ≡ master }
        ensures { Answered self.old asked.message.from asked.message.body result self.new }
    {
        let (_receiver, message, known) = asked.into_parts();
        let Message { from, body } = message;
        match body {
            Body::Activate(ballot) => Some(self.activate(rt, from, ballot, &known)),
            _ => None,
        }
    }

    fn activate<R: Wait>(
        &mut self,
        rt: &R,
        from: u8,
        ballot: u64,
        known: &SeenRun<H>,
    ) -> SentMessage<H>
        requires { In (master, record { from = from; body = Activate ballot })
            (sent_in known.now) }
        ensures message { result
            ≡ message_of (activated Command self.old.state ballot from self.old.state.waiting) }
        ensures did { MasterDid self.old (Answers from ballot)
            (activated Command self.old.state ballot from self.old.state.waiting) self.new }
    {
        wait_unless_below(rt, self.count, EVENT_LIMIT);
        let mut seen = self.seen.again();
        seen.learn(known);
        let body = activation_answer(self.state.activate(ballot), ballot);
        let message = Message { from: MASTER, body };
        let told = Told::Answered(told::Answered {
            from,
            ballot,
            after: Snapshot::of(&self.state),
            message: Snapshot::of(&message),
        });
        seen.add_or_wait(rt, &self.word, self.count, &told);
        let sent = SentMessage::new(from, message, seen.again());
        self.count += 1;
        self.seen = seen;
        sent
    }
}
