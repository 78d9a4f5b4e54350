// The step of one node: bytes of clients, messages of nodes and times go in, bytes and messages
// come out.

use crate::bytes::{ACCEPTED, CONNECT_A, CONNECT_B, PUBLISH, PUBREC, SUBACK, SUBSCRIBE};
use crate::names::Names;
use anyhow::Result;
use std::alloc::Global;
use world::{Body, Config, Handed, Item, Members, Message, NodeCore, Piece, Port};

/// The connection of client `a`.
const A: Port = Port(1);

/// The connection of client `b`.
const B: Port = Port(2);

/// Opens node 1, the sole member of ballot 1, and takes each kind of item.
pub fn run(alloc: Global, names: &mut Names) -> Result<()> {
    let config = config_of(alloc, 1)?;
    let mut node = NodeCore::new(alloc, 1, &config)?;
    names.uses("NodeCore", node.status().serves());
    let served = serve(alloc, &mut node, names);
    drop(node);
    served
}

/// Returns a configuration with this node as its only member.
pub fn config_of(alloc: Global, member: u8) -> Result<Config> {
    let members = Members::from_slice(alloc, &[member])?;
    Ok(Config {
        members,
        primary: member,
    })
}

// Takes items in the order in which they may come.
fn serve(alloc: Global, node: &mut NodeCore, names: &mut Names) -> Result<()> {
    connect_a(alloc, node, names)?;
    publish(alloc, node, names)?;
    end(alloc, node, names);
    Ok(())
}

// Returns true if a step of the node sends nothing to other nodes.
fn takes(alloc: Global, node: &mut NodeCore, item: Item) -> bool {
    let mut effects = Vec::new(alloc);
    node.step(item, &mut effects);
    effects.is_empty()
}

// Returns true if these are the bytes that the node hands over for an open connection.
fn hands_over(alloc: Global, node: &mut NodeCore, port: Port, bytes: &[u8]) -> bool {
    let mut out = Vec::new(alloc);
    node.outgoing(port, &mut out) == Ok(Handed::Open) && out.as_slice() == bytes
}

// Lets bytes arrive, and returns true if the node answers them so.
fn answers(
    alloc: Global,
    node: &mut NodeCore,
    port: Port,
    bytes: &[u8],
    answer: &[u8],
) -> Result<bool> {
    let piece = Piece::from_slice(alloc, bytes)?;
    let is_taken = takes(alloc, node, Item::Bytes(port, piece, 0));
    Ok(is_taken && hands_over(alloc, node, port, answer))
}

// A connection is opened, and client `a` connects.
fn connect_a(alloc: Global, node: &mut NodeCore, names: &mut Names) -> Result<()> {
    names.uses("Item::Opened", takes(alloc, node, Item::Opened(A, 0)));
    let piece = Piece::from_slice(alloc, CONNECT_A)?;
    names.uses("Piece", piece.as_slice() == CONNECT_A);
    names.uses("Item::Bytes", takes(alloc, node, Item::Bytes(A, piece, 0)));
    names.uses("NodeCore::outgoing", hands_over(alloc, node, A, ACCEPTED));
    names.uses("NodeCore::status", node.status().committed == 1);
    Ok(())
}

// Client `b` connects on another connection, and subscribes. What `a` publishes then goes to `b`.
fn publish(alloc: Global, node: &mut NodeCore, names: &mut Names) -> Result<()> {
    names.uses("Port", takes(alloc, node, Item::Opened(B, 0)));
    let is_connected = answers(alloc, node, B, CONNECT_B, ACCEPTED)?;
    let is_subscribed = answers(alloc, node, B, SUBSCRIBE, SUBACK)?;
    let is_published = answers(alloc, node, A, PUBLISH, PUBREC)?;
    let is_right = is_connected && is_subscribed && is_published;
    names.uses("NodeCore::step", is_right);
    names.uses("Handed::Open", hands_over(alloc, node, B, PUBLISH));
    Ok(())
}

// Time passes, a message comes that changes nothing, a connection ends, and the node crashes.
fn end(alloc: Global, node: &mut NodeCore, names: &mut Names) {
    names.uses("Item::Tick", takes(alloc, node, Item::Tick(1_000)));
    let message = Message {
        from: 2,
        body: Body::Held(1, 1),
    };
    names.uses("Item::Peer", takes(alloc, node, Item::Peer(message)));
    names.uses("Item::Ended", takes(alloc, node, Item::Ended(B)));
    let mut out = Vec::new(alloc);
    let is_right = node.outgoing(B, &mut out) == Ok(Handed::Closed);
    names.uses("Handed::Closed", is_right);
    names.uses("NodeCore::losses", node.losses() == 0);
    let is_right = takes(alloc, node, Item::Crash) && node.status().stopped;
    names.uses("Item::Crash", is_right);
}
