// The events of a run, in order of the log. But for the opening they exist in proofs alone: no
// value of them is made.

use ballot_base::{Config, Effect, Message};
use broker_spec::{Command, Output};
use master::Master;
use std::collections::LinkedList;
use world_base::{Item, NodeCore, Port};

/// The opening of a group: how many nodes it has, the configuration of ballot 1, and whether all of
/// its nodes are in this program.
#[derive(Drop)]
pub struct OpenedGroup {
    /// Nodes 1 to this number open.
    pub nodes: u8,
    /// The members and the primary of ballot 1.
    pub config: Config,
    /// Whether links bring messages of other programs, where the master is then, too.
    pub linked: bool,
}

/// What a node does in one event.
pub enum NodeAct {
    /// It steps on an item.
    Takes(Item),
    /// It hands over the pending output of a port.
    HandsOver(Port),
}

/// An event of a node. No value of it is made.
pub struct NodeEvent {
    /// The index of the node, which is its number less 1.
    pub node: u8,
    /// What it does.
    pub act: NodeAct,
    /// The node after the event.
    pub after: NodeCore,
    /// The effects of the step, in order.
    pub given: LinkedList<Effect<Command, Output>>,
}

/// What the master does in one event.
pub enum MasterAct {
    /// It assigns the next ballot to a configuration.
    Assigns(Config),
    /// It answers the node of this number, which asks for the activation of a ballot.
    Answers(u8, u64),
}

/// An event of the master, which sends one message. No value of it is made.
pub struct MasterEvent {
    /// What it does.
    pub act: MasterAct,
    /// The master after the event.
    pub after: Master,
    /// The number of the node to which the message is sent.
    pub receiver: u8,
    /// The message.
    pub message: Message<Command>,
}

/// A message that a link brought. No value of it is made.
pub struct BroughtMessage {
    /// The number of the node to which it is sent.
    pub receiver: u8,
    /// The message.
    pub message: Message<Command>,
}

/// An event of a run. No value of it is made.
pub enum RunEvent {
    /// The group opens.
    Opens(OpenedGroup),
    /// A node steps on an item, or hands over the output of a port.
    ByNode(NodeEvent),
    /// The master assigns a ballot, or answers a node.
    ByMaster(MasterEvent),
    /// A link brings a message of another program.
    ByLink(BroughtMessage),
}
