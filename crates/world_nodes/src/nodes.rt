// Nodes and their master, with every message ever sent.
//
// A message is never removed from `sent`, so events may deliver it late, again or never.
//
// The invariant says that a history of the model leads to this state, and that `counters` agree
// with the messages. What the replicas returned before is in no field, so a contract speaks of
// every group of the model that corresponds to the state, and the agreed list is one that all of
// them have. It is found by the counters, without searching messages.
//
// Each call is a step of that group, exact or with a loss that `losses` counts once. What needs no
// memory is done exactly: a message that its receiver ignores is not even copied.

ghost use Rattle.std.specs.Prelude.{◌≡◌, ◌≤◌, ◌-◌, ◌↔◌, ◌++◌, true, false, None, Some, length, slice_get, IfOk, IfSome, OnOk, OnErr, IsErr, IsErrOf};
ghost use Rattle.ballot_base.specs.LawfulConfig.{max_node};
ghost use Rattle.ballot_base.specs.Losses.{one_more};
ghost use Rattle.agreement.specs.MasterState.{refusal};
ghost use Rattle.agreement.specs.World.{can_open};
ghost use Rattle.headline.specs.node_group.Group.{Group, opening_group};
ghost use Rattle.headline.specs.node_moves.Moves.NodeCall.{takes};
ghost use Rattle.world_nodes.specs.Nodes.{NodesState, NodesStandFor};
ghost use Rattle.world_nodes.specs.ExactSteps.{NodeDoesCall, AnswersFor, MessageArrives, ComesToNobody, CutsExactly, HandsOutExactly, HandsOver, TakesExactly, after_giving};
ghost use Rattle.world_nodes.specs.RunningNodes.{cutting, is_running, numbered_node, proposing, running};
ghost use Rattle.world_nodes.specs.Quiet.{ComesUnheeded, RestsAt, WaitsAtNone};
ghost use Rattle.world_nodes.specs.Steps.{DeliveryOrLost, NewBallotOrLost, NodeCutOrLost, NodeExpelOrLost, NodeItemOrLost, NodesLoseNothing};
ghost use Rattle.world_nodes.specs.HandingOver.{HandoverOrLost};
ghost use Rattle.world_nodes.specs.GroupSteps.{GroupDeliveryOrLost, MasterStepOrLost, NodeCallOrLost};

use crate::counters::Counters;
use ballot_base::errors::OpeningError;
use ballot_base::{Config, Message};
use broker::BrokerMachine;
use broker_spec::Command;
use master::{Idle, Master, asks_for, can_open, copy_of};
use packet_base::ClientId;
use std::alloc::Global;
use std::marker::Model;
use world_base::node_connections::{Handed, Piece, Port};
use world_base::node_core::{Item, NodeCore};

/// Nodes with their clients' connections, their master, and every message ever sent: each may
/// arrive late, again or never. Nodes are numbered from 1, messages from 0 in the order of sending.
pub struct Nodes {
    /// The allocator of copies of messages and of what calls return.
    pub(crate) alloc: Global,
    /// Assigns ballots to configurations.
    pub(crate) master: Master,
    /// Node n + 1 is at index n.
    pub(crate) nodes: Vec<NodeCore>,
    /// The messages, each with the number of its receiver.
    pub(crate) sent: Vec<(u8, Message<Command>)>,
    /// The places below the bases of all logs.
    pub(crate) archive: Vec<Command>,
    /// What these messages acknowledge.
    pub(crate) counters: Counters,
    /// How many steps lost something (saturates at 2^64 - 1).
    pub(crate) losses: u64,
}

impl Drop for Nodes {
    fn drop(self) {
        let Nodes {
            alloc: _,
            master: _master,
            nodes: _nodes,
            sent: _sent,
            archive: _archive,
            counters: _counters,
            losses: _,
        } = self;
    }
}

impl Model for Nodes {
    ghost use Rattle.world_nodes.specs.Inside.{HaveCounted};
    ghost use Rattle.world_nodes.specs.Nodes.{NodesState};

    ghost Value = { NodesState };

    ghost view = { λ state.
        record {
          master = state.master;
          nodes = state.nodes.items;
          sent = state.sent.items;
          archive = state.archive.items;
          losses = state.losses;
        } };

    // A history of the model leads to this state, and the counters agree with the messages.
    ghost invariant = { λ state.
        HaveCounted (record {
          master = state.master;
          nodes = state.nodes.items;
          sent = state.sent.items;
          archive = state.archive.items;
          losses = state.losses;
        }) state.counters.told state.counters.next };
}

impl Nodes {
    /// Opens nodes 1 to `nodes` in ballot 1. Fails with [`OpeningError::BadMembers`] for more than
    /// 15 nodes, for a configuration that no ballot may have, and for a member above `nodes`.
    pub fn opening(alloc: Global, nodes: u8, config: Config) -> Result<Nodes, OpeningError>
        ensures opens { IfOk result (λ opened.
            NodesStandFor (opening_group max_node nodes config) opened) }
        ensures losses { IfOk result (λ opened. opened.losses ≡ 0) }
        ensures can { OnOk result (can_open max_node nodes config ≡ true) }
        ensures bad { IsErrOf result OpeningError.BadMembers
            ↔ (can_open max_node nodes config ≡ false) }
    {
        if !can_open(nodes, &config) {
            return Err(OpeningError::BadMembers);
        }
        let mut opened = Vec::new(alloc);
        for at in 0..nodes {
            opened.push(NodeCore::new(alloc, at + 1, &config)?)?;
        }
        let counters = Counters::new(alloc)?;
        let Ok(master) = Master::new(config.members, config.primary) else {
            return Err(OpeningError::BadMembers);
        };
        Ok(Nodes {
            alloc,
            master,
            nodes: opened,
            sent: Vec::new(alloc),
            archive: Vec::new(alloc),
            counters,
            losses: 0,
        })
    }

    /// Asks the master to assign the next ballot to a configuration. Idle if it refuses: for
    /// members or a primary that no ballot may have, and after the last ballot.
    pub fn assign(&mut self, config: &Config) -> Result<(), Idle>
        ensures lossy { OnOk result (NewBallotOrLost config.now self.old self.new) }
        ensures exact { NodesLoseNothing self.old self.new →
            OnOk result (self.new ≡ after_giving config.now self.old) }
        ensures acts { OnOk result (MasterStepOrLost self.old self.new) }
        ensures rises { self.old.losses ≤ self.new.losses }
        ensures idle { IsErr result ↔ (refusal self.old.master config.now ≡ None → ⊥) }
        ensures same { OnErr result (self.new ≡ self.old) }
    {
        if !self.master.can_assign(config) {
            return Err(Idle);
        }
        if self.give(config).is_err() {
            self.count_loss();
        }
        Ok(())
    }

    /// Delivers message `number` to its receiver. Idle if no such message was sent, or its receiver
    /// is unknown or has stopped. A message that its receiver ignores takes no memory.
    pub fn deliver(&mut self, number: u64) -> Result<(), Idle>
        ensures lossy { OnOk result
            (DeliveryOrLost (slice_get self.old.sent number) self.old self.new) }
        ensures exact { NodesLoseNothing self.old self.new →
            OnOk result (MessageArrives (slice_get self.old.sent number) self.old self.new) }
        ensures acts { OnOk result
            (GroupDeliveryOrLost (slice_get self.old.sent number) self.old self.new) }
        ensures quiet { ComesUnheeded (slice_get self.old.sent number) self.old →
            OnOk result (MessageArrives (slice_get self.old.sent number) self.old self.new) }
        ensures rises { self.old.losses ≤ self.new.losses }
        ensures idle { IsErr result ↔ ComesToNobody (slice_get self.old.sent number) self.old }
        ensures same { OnErr result (self.new ≡ self.old) }
    {
        let Some((receiver, message)) = self.message(number) else {
            return Err(Idle);
        };
        let receiver = *receiver;
        if receiver == 0 {
            let from = message.from;
            if let Some(ballot) = asks_for(message) {
                self.answer(from, ballot);
            }
            return Ok(());
        }
        let Some(at) = self.running(receiver) else {
            return Err(Idle);
        };
        if !self.nodes[at].heeds(message) {
            self.pass_over(at, number as usize);
            return Ok(());
        }
        let Ok(message) = copy_of::<BrokerMachine>(self.alloc, message) else {
            self.count_loss();
            return Ok(());
        };
        self.act(receiver, Item::Peer(message))
    }

    /// Ticks a node, which retransmits what others may have missed. Idle if it is unknown or has
    /// stopped.
    pub fn tick(&mut self, node: u8) -> Result<(), Idle>
        ensures lossy { OnOk result (NodeItemOrLost node (Item.Tick 0) self.old self.new) }
        ensures exact { NodesLoseNothing self.old self.new →
            OnOk result (TakesExactly node (Item.Tick 0) self.old self.new) }
        ensures acts { OnOk result
            (NodeDoesCall (node - 1) (takes (Item.Tick 0)) self.old self.new) }
        ensures quiet { RestsAt node (Item.Tick 0) self.old →
            OnOk result (TakesExactly node (Item.Tick 0) self.old self.new) }
        ensures rises { self.old.losses ≤ self.new.losses }
        ensures idle { IsErr result ↔ (running self.old.nodes node ≡ None) }
        ensures same { OnErr result (self.new ≡ self.old) }
    {
        self.act(node, Item::Tick(0))
    }

    /// Cuts a node's log, after recording the places that it drops. Idle if the node is unknown or
    /// has stopped, or has applied nothing since its last cut.
    pub fn cut(&mut self, node: u8) -> Result<(), Idle>
        ensures lossy { OnOk result (NodeCutOrLost node self.old self.new) }
        ensures exact { NodesLoseNothing self.old self.new →
            OnOk result (CutsExactly node self.old self.new) }
        ensures acts { OnOk result (NodeCallOrLost (node - 1) (takes Item.Cut) self.old self.new) }
        ensures rises { self.old.losses ≤ self.new.losses }
        ensures idle { IsErr result ↔ (cutting self.old.nodes node ≡ None) }
        ensures same { OnErr result (self.new ≡ self.old) }
    {
        let Some(at) = self.running(node) else {
            return Err(Idle);
        };
        if !self.nodes[at].can_cut() {
            return Err(Idle);
        }
        self.cut_at(at);
        Ok(())
    }

    /// Proposes an Expel of a client at a node. Idle if the node is unknown or has stopped, does
    /// not serve clients, or has a full log.
    pub fn expel(&mut self, node: u8, client: &ClientId) -> Result<(), Idle>
        ensures lossy { OnOk result (NodeExpelOrLost client.now node self.old self.new) }
        ensures exact { NodesLoseNothing self.old self.new →
            OnOk result (TakesExactly node (Item.Expel client.now) self.old self.new) }
        ensures acts { OnOk result
            (NodeCallOrLost (node - 1) (takes (Item.Expel client.now)) self.old self.new) }
        ensures rises { self.old.losses ≤ self.new.losses }
        ensures idle { IsErr result ↔ (proposing self.old.nodes node ≡ None) }
        ensures same { OnErr result (self.new ≡ self.old) }
    {
        let Some(at) = self.running(node) else {
            return Err(Idle);
        };
        if !self.nodes[at].has_room() {
            return Err(Idle);
        }
        match client.clone() {
            Ok(client) => self.act(node, Item::Expel(client)),
            Err(_) => {
                self.count_loss();
                Ok(())
            }
        }
    }

    /// Stops a node for good. Idle if it is unknown or has stopped.
    pub fn crash(&mut self, node: u8) -> Result<(), Idle>
        ensures lossy { OnOk result (NodeItemOrLost node Item.Crash self.old self.new) }
        ensures exact { NodesLoseNothing self.old self.new →
            OnOk result (TakesExactly node Item.Crash self.old self.new) }
        ensures acts { OnOk result (NodeDoesCall (node - 1) (takes Item.Crash) self.old self.new) }
        ensures quiet { RestsAt node Item.Crash self.old →
            OnOk result (TakesExactly node Item.Crash self.old self.new) }
        ensures rises { self.old.losses ≤ self.new.losses }
        ensures idle { IsErr result ↔ (running self.old.nodes node ≡ None) }
        ensures same { OnErr result (self.new ≡ self.old) }
    {
        self.act(node, Item::Crash)
    }

    /// Opens a stream at a node; `now` is the time. Idle if the node is unknown or has stopped.
    pub fn open_stream(&mut self, node: u8, port: Port, now: u64) -> Result<(), Idle>
        ensures lossy { OnOk result (NodeItemOrLost node (Item.Opened port now) self.old self.new) }
        ensures exact { NodesLoseNothing self.old self.new →
            OnOk result (TakesExactly node (Item.Opened port now) self.old self.new) }
        ensures acts { OnOk result
            (NodeDoesCall (node - 1) (takes (Item.Opened port now)) self.old self.new) }
        ensures quiet { RestsAt node (Item.Opened port now) self.old →
            OnOk result (TakesExactly node (Item.Opened port now) self.old self.new) }
        ensures rises { self.old.losses ≤ self.new.losses }
        ensures idle { IsErr result ↔ (running self.old.nodes node ≡ None) }
        ensures same { OnErr result (self.new ≡ self.old) }
    {
        self.act(node, Item::Opened(port, now))
    }

    /// Feeds bytes to a stream of a node, at time 0. Idle if the node is unknown or has stopped.
    pub fn give_bytes(&mut self, node: u8, port: Port, piece: Piece) -> Result<(), Idle>
        ensures lossy { OnOk result
            (NodeItemOrLost node (Item.Bytes port piece 0) self.old self.new) }
        ensures exact { NodesLoseNothing self.old self.new →
            OnOk result (TakesExactly node (Item.Bytes port piece 0) self.old self.new) }
        ensures acts { OnOk result
            (NodeDoesCall (node - 1) (takes (Item.Bytes port piece 0)) self.old self.new) }
        ensures quiet { RestsAt node (Item.Bytes port piece 0) self.old →
            OnOk result (TakesExactly node (Item.Bytes port piece 0) self.old self.new) }
        ensures rises { self.old.losses ≤ self.new.losses }
        ensures idle { IsErr result ↔ (running self.old.nodes node ≡ None) }
        ensures same { OnErr result (self.new ≡ self.old) }
    {
        self.act(node, Item::Bytes(port, piece, 0))
    }

    /// Ends a stream at a node. Idle if the node is unknown or has stopped.
    pub fn end_stream(&mut self, node: u8, port: Port) -> Result<(), Idle>
        ensures lossy { OnOk result (NodeItemOrLost node (Item.Ended port) self.old self.new) }
        ensures exact { NodesLoseNothing self.old self.new →
            OnOk result (TakesExactly node (Item.Ended port) self.old self.new) }
        ensures acts { OnOk result
            (NodeDoesCall (node - 1) (takes (Item.Ended port)) self.old self.new) }
        ensures quiet { RestsAt node (Item.Ended port) self.old →
            OnOk result (TakesExactly node (Item.Ended port) self.old self.new) }
        ensures rises { self.old.losses ≤ self.new.losses }
        ensures idle { IsErr result ↔ (running self.old.nodes node ≡ None) }
        ensures same { OnErr result (self.new ≡ self.old) }
    {
        self.act(node, Item::Ended(port))
    }

    /// Appends the pending output of a node's port to `out`, and returns whether more may come.
    /// Idle if the node is unknown. If memory runs out, nothing is appended, more may come, and the
    /// step is counted; without pending output it never does.
    pub fn hand_over(&mut self, node: u8, port: Port, out: &mut Vec<u8>) -> Result<Handed, Idle>
        ensures exact { NodesLoseNothing self.old self.new →
            OnOk result (HandsOutExactly node port self.old self.new) }
        ensures bytes { NodesLoseNothing self.old self.new →
            OnOk result (HandsOver node port self.old out.old.items out.new.items) }
        ensures answer { NodesLoseNothing self.old self.new →
            IfOk result (λ handed. AnswersFor node port self.old handed) }
        ensures lossy { IfOk result (λ handed.
            HandoverOrLost node port self.old self.new out.old.items out.new.items handed) }
        ensures quiet { WaitsAtNone node port self.old →
            OnOk result (HandsOutExactly node port self.old self.new) }
        ensures rises { self.old.losses ≤ self.new.losses }
        ensures idle { IsErr result ↔ (numbered_node self.old.nodes node ≡ None) }
        ensures same { OnErr result ((self.new ≡ self.old) × (out.new.items ≡ out.old.items)) }
    {
        if node == 0 || node as usize > self.nodes.len() {
            return Err(Idle);
        }
        let core = &mut self.nodes[node as usize - 1];
        match core.outgoing(port, out) {
            Ok(handed) => Ok(handed),
            Err(_) => {
                self.count_loss();
                Ok(Handed::Open)
            }
        }
    }

    /// Returns how many messages were sent.
    pub fn messages(&self) -> u64
        ensures { result ≡ length self.now.sent }
    {
        self.sent.len() as u64
    }

    /// Returns all messages that were sent, each with its receiver: message number n is at index n.
    /// Node 0 is the master.
    pub fn sent(&self) -> &[(u8, Message<Command>)]
        ensures { result.now ≡ self.now.sent }
    {
        self.sent.as_slice()
    }

    /// Returns a node, if it exists.
    pub fn node(&self, node: u8) -> Option<&NodeCore>
        ensures some { IfSome result (λ core. numbered_node self.now.nodes node ≡ Some core.now) }
        ensures none { result ≡ None → numbered_node self.now.nodes node ≡ None }
    {
        if node == 0 {
            return None;
        }
        self.nodes.get(node as usize - 1)
    }

    /// Returns true if a node exists and has not stopped.
    pub fn is_running(&self, node: u8) -> bool
        ensures exact { result ≡ is_running self.now.nodes node }
        ensures stopped { (result ≡ false) ↔ (running self.now.nodes node ≡ None) }
    {
        match self.node(node) {
            Some(core) => !core.status().stopped,
            None => false,
        }
    }

    /// Returns how many steps lost something because memory ran out (saturates at 2^64 - 1).
    pub fn losses(&self) -> u64
        ensures { result ≡ self.now.losses }
    {
        self.losses
    }
}
