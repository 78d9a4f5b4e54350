// Memory that is refused while a session goes over to another node by a snapshot.
// `tools/refused-memory` lets each allocation of a test fail in turn; in the gate none fails.

use ballot_base::{Body, Config, Effect, MAX_NUMBER, Members, Message};
use broker_spec::{Command, Output};
use std::alloc::Global;
use world_base::node_connections::{Piece, Port};
use world_base::node_core::{Item, NodeCore};

// What a node hands out to others.
type Effects = Vec<Effect<Command, Output>>;

// CONNECT of client `a` with keep alive 0 and CleanSession 0 (MQTT 3.1).
const CONNECT: &[u8] = &[
    0x10, 0x0D, 0x00, 0x04, 0x4D, 0x51, 0x54, 0x54, 0x04, 0x00, 0x00, 0x00, 0x00, 0x01, 0x61,
];

// CONNACK 0 without and with a session present (MQTT 3.2).
const ACCEPTED: &[u8] = &[0x20, 0x02, 0x00, 0x00];

const PRESENT: &[u8] = &[0x20, 0x02, 0x01, 0x00];

// Returns this node in ballot 1 with these members, whose primary is node 1. Numbers of nodes go
// up to 254.
fn node_of(alloc: Global, number: u8, members: &[u8]) -> Option<NodeCore> {
    let config = Config {
        members: Members::from_slice(alloc, members).ok()?,
        primary: 1,
    };
    match number {
        1..=MAX_NUMBER => NodeCore::up_to(alloc, MAX_NUMBER, number, &config).ok(),
        _ => None,
    }
}

// Takes an item, and returns what is handed out to other nodes.
fn take(alloc: Global, node: &mut NodeCore, item: Item) -> Effects {
    let mut effects = Vec::new(alloc);
    node.step(item, &mut effects);
    effects
}

// Takes bytes that come on a port: what is handed out to other nodes, if there is memory for them.
fn bring(
    alloc: Global,
    node: &mut NodeCore,
    port: u64,
    bytes: &[u8],
    time: u64,
) -> Option<Effects> {
    let piece = Piece::from_slice(alloc, bytes).ok()?;
    Some(take(alloc, node, Item::Bytes(Port(port), piece, time)))
}

// Delivers a message of another node, or of the master, 0.
fn tell(alloc: Global, node: &mut NodeCore, from: u8, body: Body<Command>) -> Effects {
    take(alloc, node, Item::Peer(Message { from, body }))
}

// Delivers the messages that were sent to the node's number. Returns what it sends then.
fn give(alloc: Global, node: &mut NodeCore, number: u8, effects: Effects) -> Effects {
    let mut answers = Vec::new(alloc);
    for effect in effects {
        match effect {
            Effect::To(receiver, message) if receiver == number => {
                node.step(Item::Peer(message), &mut answers);
            }
            _ => {}
        }
    }
    answers
}

// Returns the master's word on ballot 2 with these members, after ballot 1 of node 1.
fn ballot_2(alloc: Global, members: &[u8]) -> Option<Body<Command>> {
    let members = Members::from_slice(alloc, members).ok()?;
    let before = Members::from_slice(alloc, &[1]).ok()?;
    Some(Body::NewBallot(2, members, 1, before))
}

// Returns true if the one message asks the master to activate ballot 2.
fn asks_for_2(effects: &Effects) -> bool {
    let [Effect::To(0, message)] = effects.as_slice() else {
        return false;
    };
    matches!(&message.body, Body::Activate(2))
}

// Delivers node 2's appends to node 1, and its answer to node 2, which commits.
fn commit(alloc: Global, one: &mut NodeCore, two: &mut NodeCore, appended: Effects) {
    let held = give(alloc, one, 1, appended);
    let committed = give(alloc, two, 2, held);
    give(alloc, one, 1, committed);
}

// Continues ballot 2 of nodes 1 and 2 until nothing is said any more. What found no memory is said
// again when time passes.
fn settle(alloc: Global, one: &mut NodeCore, two: &mut NodeCore) {
    for round in 0..16 {
        let said = take(alloc, two, Item::Tick(round));
        let asked = asks_for_2(&said);
        let answers = give(alloc, one, 1, said);
        let said = give(alloc, two, 2, answers);
        let answers = give(alloc, one, 1, said);
        give(alloc, two, 2, answers);
        if asked {
            tell(alloc, two, 0, Body::Activated(2));
        }
    }
}

// Connects client `a` by port 1. What finds no memory before it comes is done again.
fn connect(alloc: Global, node: &mut NodeCore) -> Effects {
    take(alloc, node, Item::Opened(Port(1), 0));
    for _ in 0..2 {
        if let Some(appended) = bring(alloc, node, 1, CONNECT, 0) {
            return appended;
        }
    }
    Vec::new(alloc)
}

// Returns what is handed over for port 1.
fn handed(alloc: Global, node: &mut NodeCore) -> Vec<u8> {
    let mut out = Vec::new(alloc);
    for _ in 0..2 {
        if node.outgoing(Port(1), &mut out).is_ok() {
            return out;
        }
    }
    out
}

// How many losses both nodes counted, and how many bytes were handed over.
type Came = (u64, usize);

// Returns what came, if client `a` does not find its session at node 2; or, if a loss was counted,
// finds another than a session, no session, or no node that serves.
fn came_instead_of_session(alloc: Global, one: &mut NodeCore, two: &mut NodeCore) -> Option<Came> {
    let appended = connect(alloc, two);
    commit(alloc, one, two, appended);
    settle(alloc, one, two);
    let out = handed(alloc, two);
    let losses = one.losses().saturating_add(two.losses());
    let is_well = match losses {
        0 => out.as_slice() == PRESENT,
        1 => out.is_empty() || out.as_slice() == ACCEPTED || out.as_slice() == PRESENT,
        _ => false,
    };
    if is_well {
        None
    } else {
        Some((losses, out.len()))
    }
}

// Returns the result of moving a session by a snapshot, if the move fails although no allocation is
// refused, or if more than one step counts a loss.
fn came_instead_of_move(alloc: Global, one: &mut NodeCore, two: &mut NodeCore) -> Option<Came> {
    connect(alloc, one);
    for _ in 0..2 {
        take(alloc, one, Item::Cut);
    }
    let Some(ballot) = ballot_2(alloc, &[1, 2]) else {
        return None;
    };
    tell(alloc, two, 0, ballot);
    settle(alloc, one, two);
    came_instead_of_session(alloc, one, two)
}

// Returns what came, if it does not give its snapshot to a fresh second node, and no refusal is
// counted. If memory runs out for a node nothing is asked of the other.
fn came_instead_with(alloc: Global, one: &mut NodeCore) -> Option<Came> {
    match node_of(alloc, 2, &[1]) {
        Some(mut two) => came_instead_of_move(alloc, one, &mut two),
        None => None,
    }
}

// Returns what came, if a fresh first node does not give its snapshot to a second one, and does not
// count the refusal.
fn came_instead_of_fresh(alloc: Global) -> Option<Came> {
    match node_of(alloc, 1, &[1]) {
        Some(mut one) => came_instead_with(alloc, &mut one),
        None => None,
    }
}

// For `tools/refused-memory`, which lets each allocation fail in turn.
#[test]
fn a_refused_snapshot_is_counted(rt: HostRuntime) {
    assert_eq!(rt; came_instead_of_fresh(rt.alloc()), None);
}
