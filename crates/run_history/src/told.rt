// What is told of an event that is added. Snapshots have no bytes, and stay in one function.

use ballot_base::{Config, Effect, Message};
use broker_spec::{Command, Output};
use master::Master;
use std::snapshot::Snapshot;
use world_base::{Item, NodeCore, Port};

/// A step of a node on an item. Of the effects, those from `before` on are of this step.
#[derive(Drop)]
pub struct Taken {
    pub node: u8,
    pub item: Snapshot<Item>,
    pub after: Snapshot<NodeCore>,
    pub before: usize,
    pub effects: Snapshot<Vec<Effect<Command, Output>>>,
}

/// A hand-over of a node.
#[derive(Drop)]
pub struct HandedOver {
    pub node: u8,
    pub port: Port,
    pub after: Snapshot<NodeCore>,
}

/// An assignment of the master.
#[derive(Drop)]
pub struct Assigned {
    pub config: Snapshot<Config>,
    pub after: Snapshot<Master>,
    pub receiver: u8,
    pub message: Snapshot<Message<Command>>,
}

/// An answer of the master to a node.
#[derive(Drop)]
pub struct Answered {
    pub from: u8,
    pub ballot: u64,
    pub after: Snapshot<Master>,
    pub message: Snapshot<Message<Command>>,
}

/// A message that a link brought.
#[derive(Drop)]
pub struct Brought {
    pub receiver: u8,
    pub message: Snapshot<Message<Command>>,
}

/// What is told of an event.
#[derive(Drop)]
pub enum Told {
    Taken(Taken),
    HandedOver(HandedOver),
    Assigned(Assigned),
    Answered(Answered),
    Brought(Brought),
}
