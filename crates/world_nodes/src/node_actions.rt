// Steps of nodes and of their master.

ghost use Rattle.std.specs.Prelude.{◌≡◌, ◌+◌, ◌-◌, ◌↔◌, ◌≤◌, true, false, None, Some, length, slice_get, IfSome, OnOk, OnErr, IsErr};
ghost use Rattle.ballot_base.specs.declared.message.Body.TheVariants.{Activate};
ghost use Rattle.ballot_base.specs.Compaction.{can_cut};
ghost use Rattle.ballot_base.specs.Losses.{one_more};
ghost use Rattle.lists.specs.Lists.{In};
ghost use Rattle.agreement.specs.MasterState.{refusal};
ghost use Rattle.headline.specs.node_moves.Moves.NodeCall.{takes};
ghost use Rattle.world_nodes.specs.ExactSteps.{NodeDoesCall, MessageArrives, CutsExactly, TakesExactly};
ghost use Rattle.world_nodes.specs.RunningNodes.{running};
ghost use Rattle.world_nodes.specs.Quiet.{ComesUnheeded, RestsAt};
ghost use Rattle.world_nodes.specs.Steps.{DeliveryOrLost, MasterAnswerOrLost, NewBallotOrLost, NodeCutOrLost, NodeItemOrLost, NodesLoseNothing, nodes_with_loss};
ghost use Rattle.world_nodes.specs.GroupSteps.{GroupDeliveryOrLost, MasterGoes, NodeCallOrLost};
ghost use Rattle.world_base.specs.node_core.Core.{CountedCore};
ghost use Rattle.world_nodes.specs.Inside.{IsPassedOver, RunsAt, ItemWasSent};

use crate::node_steps::{cut_back, pass_over, step_node};
use crate::nodes::Nodes;
use ballot_base::{Body, Config, Members, Message};
use broker::BrokerMachine;
use broker_spec::Command;
use machine::Memory;
use master::{Idle, activation_answer, config_of, counted, record, send};
use world_base::node_core::Item;

impl Nodes {
    /// Feeds an item to a node. Fails with `Idle` if the node is unknown or has stopped.
    pub(crate) fn act(&mut self, node: u8, item: Item) -> Result<(), Idle>
        requires { ItemWasSent node item self.old.sent }
        ensures lossy { OnOk result (NodeItemOrLost node item self.old self.new) }
        ensures exact { NodesLoseNothing self.old self.new →
            OnOk result (TakesExactly node item self.old self.new) }
        ensures acts { OnOk result (NodeDoesCall (node - 1) (takes item) self.old self.new) }
        ensures quiet { RestsAt node item self.old →
            OnOk result (TakesExactly node item self.old self.new) }
        ensures rises { self.old.losses ≤ self.new.losses }
        ensures idle { IsErr result ↔ (running self.old.nodes node ≡ None) }
        ensures same { OnErr result (self.new ≡ self.old) }
    {
        let Some(at) = self.running(node) else {
            return Err(Idle);
        };
        let core = &mut self.nodes[at];
        let from = self.sent.len();
        let whole = step_node(self.alloc, core, item, &mut self.sent);
        self.counters.count_from(&self.sent, from);
        self.losses = counted(self.losses, whole, true);
        Ok(())
    }

    /// Drops message `number` at the node at index `at`, which ignores it. The message is not
    /// copied.
    pub(crate) fn pass_over(&mut self, at: usize, number: usize)
        requires { IsPassedOver at number self.old }
        ensures lossy { DeliveryOrLost (slice_get self.old.sent number) self.old self.new }
        ensures exact { NodesLoseNothing self.old self.new →
            MessageArrives (slice_get self.old.sent number) self.old self.new }
        ensures acts { GroupDeliveryOrLost (slice_get self.old.sent number) self.old self.new }
        ensures quiet { ComesUnheeded (slice_get self.old.sent number) self.old →
            MessageArrives (slice_get self.old.sent number) self.old self.new }
        ensures rises { self.old.losses ≤ self.new.losses }
    {
        let core = &mut self.nodes[at];
        let from = self.sent.len();
        let whole = pass_over(self.alloc, core, number, &mut self.sent);
        self.counters.count_from(&self.sent, from);
        self.losses = counted(self.losses, whole, true);
    }

    /// Cuts the log of a node that has something to cut, after recording what it applied. If the
    /// log was not cut, the record is as before.
    pub(crate) fn cut_at(&mut self, at: usize)
        requires { (core : CountedCore) × (slice_get self.old.nodes at ≡ Some core)
            × (can_cut core.core.replica.state ≡ true) }
        ensures lossy { NodeCutOrLost (at + 1) self.old self.new }
        ensures exact { NodesLoseNothing self.old self.new →
            CutsExactly (at + 1) self.old self.new }
        ensures acts { NodeCallOrLost at (takes Item.Cut) self.old self.new }
        ensures rises { self.old.losses ≤ self.new.losses }
    {
        let before = self.archive.len();
        let core = &self.nodes[at];
        let (base, _) = core.snapshot();
        let committed = core.status().committed;
        let Ok(()) = record::<BrokerMachine>(
            self.alloc,
            &mut self.archive,
            base,
            committed,
            core.rest(),
        ) else {
            self.archive.truncate(before);
            self.losses = counted(self.losses, false, true);
            return;
        };
        let core = &mut self.nodes[at];
        let from = self.sent.len();
        let whole = step_node(self.alloc, core, Item::Cut, &mut self.sent);
        let was_cut = core.snapshot().0 > base;
        cut_back(&mut self.archive, before, was_cut);
        self.counters.count_from(&self.sent, from);
        self.losses = counted(self.losses, whole, true);
    }

    /// Returns a message with its receiver; `None` if it was not sent.
    pub(crate) fn message(&self, number: u64) -> Option<&(u8, Message<Command>)>
        ensures some { IfSome result (λ found. slice_get self.now.sent number ≡ Some found.now) }
        ensures none { result ≡ None → slice_get self.now.sent number ≡ None }
    {
        self.sent.get(number as usize)
    }

    /// Returns the index of a node that exists and runs; `None` for any other.
    pub(crate) fn running(&self, node: u8) -> Option<usize>
        ensures some { IfSome result (λ at. RunsAt self.now.nodes node at) }
        ensures none { result ≡ None → running self.now.nodes node ≡ None }
    {
        if node == 0 || node as usize > self.nodes.len() {
            return None;
        }
        let at = node as usize - 1;
        if self.nodes[at].status().stopped {
            return None;
        }
        Some(at)
    }

    /// Assigns a ballot, and sends NewBallot to its primary. Fails with `Memory` if memory ran out
    /// before the ballot was assigned.
    pub(crate) fn give(&mut self, config: &Config) -> Result<(), Memory>
        requires { refusal self.old.master config.now ≡ None }
        ensures lossy { OnOk result (NewBallotOrLost config.now self.old self.new) }
        ensures acts { OnOk result (MasterGoes self.old self.new) }
        ensures rises { self.old.losses ≤ self.new.losses }
        ensures err { OnErr result (self.new ≡ self.old) }
    {
        let given = config_of(self.alloc, config)?;
        let members = Members::from_slice(self.alloc, config.members.as_slice())?;
        let (previous, previous_members) = self.master.active();
        let previous_members = Members::from_slice(self.alloc, previous_members)?;
        let Ok(ballot) = self.master.assign(given.members, given.primary) else {
            unreachable!()
        };
        self.counters.begin(ballot);
        let body = Body::NewBallot(ballot, members, previous, previous_members);
        let kept = send(&mut self.sent, config.primary, body);
        self.losses = counted(self.losses, kept, true);
        Ok(())
    }

    /// Answers an Activate, as the master.
    pub(crate) fn answer(&mut self, from: u8, ballot: u64)
        requires { In (0, record { from = from; body = Activate ballot }) self.old.sent }
        ensures lossy { MasterAnswerOrLost from (Activate ballot) self.old self.new }
        ensures acts { MasterGoes self.old self.new }
        ensures rises { self.old.losses ≤ self.new.losses }
    {
        let (before, _) = self.master.active();
        let activation = self.master.activate(ballot);
        let (after, _) = self.master.active();
        self.counters.follow_ballot(before, after);
        let kept = send(&mut self.sent, from, activation_answer(activation, ballot));
        self.losses = counted(self.losses, kept, true);
    }

    /// Counts a loss: memory ran out, and nothing happened.
    pub(crate) fn count_loss(&mut self)
        ensures lost { self.new ≡ nodes_with_loss self.old }
        ensures rises { self.old.losses ≤ self.new.losses }
    {
        self.losses = counted(self.losses, false, true);
    }
}
