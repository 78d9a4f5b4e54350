// What is done with a node and its lanes.

use super::came::{Came, sent_if};
use super::meeting::Meeting;
use super::together::{take_both_states, take_one};
use machine::Memory;
use mailbox::Lane;
use node::{Node, NodeNaming, NodeState};
use run_history::{RunNaming, SeenRun, SentItem};
use std::alloc::Global;
use std::sync::Wait;
use std::thread::Threads;
use std::time::Clock;
use world_base::node_connections::{Handed, Piece, Port};
use world_base::node_core::Item;

/// The connection of the rows.
const PORT: Port = Port(1);

/// CONNACK 0 without a session present (MQTT 3.2).
const CONNACK: &[u8] = &[0x20, 0x02, 0x00, 0x00];

/// What is done with a node, or asked of it. A lane is meant by its index.
#[derive(Clone, Copy, Debug, PartialEq, Eq)]
pub(super) enum NodeAct {
    /// A lane sends that the connection is opened.
    Open(usize),
    /// A lane sends these bytes of the connection.
    Bytes(usize, &'static [u8]),
    /// A lane sends a tick of this time.
    Tick(usize, u64),
    /// An item is taken.
    Take,
    /// How many items of a lane were taken.
    Meet(usize),
    /// How many commands the node holds.
    Held,
    /// What is handed over for the connection.
    HandOver,
    /// Whether the CONNECT is answered, or one loss is counted in its place.
    Answer,
}

/// What is done with two nodes.
#[derive(Clone, Copy, Debug, PartialEq, Eq)]
pub(super) enum Act {
    /// With node 1 and its lanes.
    One(NodeAct),
    /// With node 2 and its lane.
    Two(NodeAct),
    /// Node 1 meets the lane of node 2.
    OneMeetsTwo,
    /// Node 2 meets the first lane of node 1.
    TwoMeetsOne,
    /// Each takes this many items, in a thread of its own.
    TakeBoth(u64),
}

/// Does an act with two nodes, and returns what came of it.
pub(super) fn perform_with<H, J, R>(
    rt: &R,
    alloc: Global,
    (first, lanes): (
        &Node<'_, H, J, NodeState<H, J>, Meeting>,
        &mut [Lane<SentItem<H>, J>],
    ),
    (second, others): (
        &Node<'_, H, J, NodeState<H, J>, Meeting>,
        &mut [Lane<SentItem<H>, J>],
    ),
    seen: &SeenRun<H>,
    act: Act,
) -> Came
where
    H: RunNaming + Send + Sync,
    J: NodeNaming + Send + Sync,
    R: Threads + Wait + Clock + Sync,
{
    match act {
        Act::One(act) => perform(rt, alloc, first, lanes, seen, act),
        Act::Two(act) => perform(rt, alloc, second, others, seen, act),
        Act::OneMeetsTwo => Came::Met(met(&mut first.lock(rt), others, 0)),
        Act::TwoMeetsOne => Came::Met(met(&mut second.lock(rt), lanes, 0)),
        Act::TakeBoth(count) => Came::Both(take_both_states(rt, alloc, first, second, count)),
    }
}

// Does an act with a node. It is locked while a lane sends, so a lane that waited for the lock would
// wait for ever.
fn perform<H, J, R>(
    rt: &R,
    alloc: Global,
    node: &Node<'_, H, J, NodeState<H, J>, Meeting>,
    lanes: &mut [Lane<SentItem<H>, J>],
    seen: &SeenRun<H>,
    act: NodeAct,
) -> Came
where
    H: RunNaming,
    J: NodeNaming,
    R: Wait + Clock,
{
    match act {
        NodeAct::Take => take_one(rt, alloc, node),
        _ => perform_locked(rt, alloc, &mut node.lock(rt), lanes, seen, act),
    }
}

fn perform_locked<H: RunNaming, J: NodeNaming, R: Wait>(
    rt: &R,
    alloc: Global,
    state: &mut NodeState<H, J>,
    lanes: &mut [Lane<SentItem<H>, J>],
    seen: &SeenRun<H>,
    act: NodeAct,
) -> Came {
    match act {
        NodeAct::Open(index) => sent_if(send(rt, seen, lanes, index, Item::Opened(PORT, 0))),
        NodeAct::Bytes(index, bytes) => sent_if(send_bytes(rt, alloc, seen, lanes, index, bytes)),
        NodeAct::Tick(index, now) => sent_if(send(rt, seen, lanes, index, Item::Tick(now))),
        NodeAct::Take => Came::Nothing,
        NodeAct::Meet(index) => Came::Met(met(state, lanes, index)),
        NodeAct::Held => Came::Held(state.status().held),
        NodeAct::HandOver => hand_over(rt, alloc, state),
        NodeAct::Answer => Came::Answered(is_answered(rt, alloc, state)),
    }
}

// Sends an item by a lane, and returns whether it was sent.
fn send<H: RunNaming, J: NodeNaming, R: Wait>(
    rt: &R,
    seen: &SeenRun<H>,
    lanes: &mut [Lane<SentItem<H>, J>],
    index: usize,
    item: Item,
) -> bool {
    match lanes.get_mut(index) {
        Some(lane) => {
            let receipt = lane.receipt();
            let sent = SentItem::from_outside(rt, lane.number(), item, seen.again());
            match lane.send(rt, sent, receipt) {
                Ok(()) => true,
                Err(back) => {
                    drop(back);
                    false
                }
            }
        }
        None => {
            drop(item);
            false
        }
    }
}

// Returns true if a lane sends bytes of the connection.
fn send_bytes<H: RunNaming, J: NodeNaming, R: Wait>(
    rt: &R,
    alloc: Global,
    seen: &SeenRun<H>,
    lanes: &mut [Lane<SentItem<H>, J>],
    index: usize,
    bytes: &[u8],
) -> bool {
    match piece_of(alloc, bytes) {
        Some(piece) => send(rt, seen, lanes, index, Item::Bytes(PORT, piece, 0)),
        None => false,
    }
}

// Returns bytes as a piece, at the second try if memory was refused at the first.
fn piece_of(alloc: Global, bytes: &[u8]) -> Option<Piece> {
    match Piece::from_slice(alloc, bytes) {
        Ok(piece) => Some(piece),
        Err(_) => Piece::from_slice(alloc, bytes).ok(),
    }
}

// Returns how many items of a lane were taken, if the numbers say that it is a lane of the node's
// inbox.
fn met<H: RunNaming, J: NodeNaming>(
    state: &mut NodeState<H, J>,
    lanes: &mut [Lane<SentItem<H>, J>],
    index: usize,
) -> Option<u64> {
    let lane = lanes.get_mut(index)?;
    if lane.number() == state.number() {
        Some(state.meet(lane))
    } else {
        None
    }
}

// Takes the bytes that a node queued for the connection.
fn hand_over<H: RunNaming, J: NodeNaming, R: Wait>(
    rt: &R,
    alloc: Global,
    state: &mut NodeState<H, J>,
) -> Came {
    let mut out = Vec::new(alloc);
    let handed = state.outgoing(rt, PORT, &mut out).ok();
    let mut front = [0; 4];
    for (to, byte) in front.iter_mut().zip(out.as_slice()) {
        *to = *byte;
    }
    Came::HandedOver(handed, out.len(), front)
}

// Takes out what is there for the connection. If memory runs out, nothing has changed, and it is
// done again.
fn look<H: RunNaming, J: NodeNaming, R: Wait>(
    rt: &R,
    state: &mut NodeState<H, J>,
    out: &mut Vec<u8>,
) -> Result<Handed, Memory> {
    match state.outgoing(rt, PORT, out) {
        Err(_) if out.is_empty() => state.outgoing(rt, PORT, out),
        handed => handed,
    }
}

// Returns true if the CONNECT is answered, or one loss is counted. A connection that is open has
// its answer.
fn is_answered<H: RunNaming, J: NodeNaming, R: Wait>(
    rt: &R,
    alloc: Global,
    state: &mut NodeState<H, J>,
) -> bool {
    let mut out = Vec::new(alloc);
    let is_whole = match look(rt, state, &mut out) {
        Ok(Handed::Open) => out.as_slice() == CONNACK,
        Ok(_) => state.losses() == 1 && CONNACK.starts_with(out.as_slice()),
        Err(_) => false,
    };
    is_whole && state.losses() <= 1
}
