// A primary of a ballot that is over.

use crate::worlds::world_rows::{
    Action, Agreed, Fault, NOTHING, PRESENT_AND_PUBLISH, PUBREC, Row, Said, Sent, Session, Table,
    UNOPENED, fault_at, fault_in, is_right, opened,
};
use std::alloc::Global;
use world::World;

// What is agreed at the end. The PUBREC of the subscriber, which only the stale primary holds, is
// not.
const AFTER: &[Said] = &[
    Said::Connect("b"),
    Said::Packet,
    Said::Connect("a"),
    Said::Packet,
    Said::Start(2),
    Said::Connect("b"),
];

/// The events of the script `stale_primary` of the folder `examples`, with what waits on
/// connections. The subscriber's PUBREC comes to a primary that another member replaces, and is
/// lost with it. No PUBREL goes down on any connection, and the subscriber accepts each publication
/// once. Messages are counted by the rules at `Row`. Ballot 2 has a sole member: its five messages
/// are NewBallot, two Joins, a State and Activate, and Activated is the sixth. The tick of node 1
/// sends the Append that holds the PUBREC, and a Commit.
pub const STALE: &[Row] = &[
    Row::Does(Action::Open("b", 1), Sent(0), Agreed(0)),
    Row::Does(Action::Up(1), Sent(1), Agreed(0)),
    Row::Does(Action::Deliver(0), Sent(2), Agreed(1)),
    Row::Does(Action::Deliver(1), Sent(3), Agreed(1)),
    Row::Does(Action::Down(1), Sent(3), Agreed(1)),
    Row::Does(Action::Subscribe("b"), Sent(3), Agreed(1)),
    Row::Does(Action::Up(1), Sent(4), Agreed(1)),
    Row::Does(Action::Deliver(3), Sent(5), Agreed(2)),
    Row::Does(Action::Deliver(4), Sent(6), Agreed(2)),
    Row::Does(Action::Open("a", 1), Sent(6), Agreed(2)),
    Row::Does(Action::Up(2), Sent(7), Agreed(2)),
    Row::Does(Action::Deliver(6), Sent(8), Agreed(3)),
    Row::Does(Action::Deliver(7), Sent(9), Agreed(3)),
    Row::Does(Action::Down(2), Sent(9), Agreed(3)),
    Row::Does(Action::Publish("a"), Sent(9), Agreed(3)),
    Row::Does(Action::Up(2), Sent(10), Agreed(3)),
    Row::Does(Action::Deliver(9), Sent(11), Agreed(4)),
    Row::Does(Action::Deliver(10), Sent(12), Agreed(4)),
    Row::Took("b", 0, Session(0)),
    Row::Does(Action::Down(1), Sent(12), Agreed(4)),
    Row::Took("b", 1, Session(1)),
    Row::Does(Action::Up(1), Sent(13), Agreed(4)),
    Row::Does(Action::Assign(&[2], 2), Sent(14), Agreed(4)),
    Row::Does(Action::Deliver(13), Sent(16), Agreed(4)),
    Row::Does(Action::Deliver(15), Sent(17), Agreed(4)),
    Row::Does(Action::Deliver(16), Sent(18), Agreed(4)),
    Row::Does(Action::Deliver(17), Sent(19), Agreed(4)),
    Row::Does(Action::Deliver(18), Sent(19), Agreed(5)),
    Row::Does(Action::Tick(1), Sent(21), Agreed(5)),
    Row::Does(Action::Deliver(19), Sent(21), Agreed(5)),
    Row::Does(Action::Abandon("b"), Sent(21), Agreed(5)),
    Row::Does(Action::Open("b", 2), Sent(21), Agreed(5)),
    Row::Does(Action::Up(3), Sent(21), Agreed(6)),
    Row::HasDown(1, NOTHING),
    Row::HasDown(2, PUBREC),
    Row::HasDown(3, PRESENT_AND_PUBLISH),
    Row::Does(Action::Down(3), Sent(21), Agreed(6)),
    Row::Took("b", 1, Session(1)),
    Row::Active(2),
    Row::Agrees(AFTER),
];

const TABLES: &[Table] = &[("stale", 2, &[1, 2], STALE)];

#[test]
fn a_stale_primary_is_not_heard(rt: HostRuntime) {
    assert_eq!(rt; fault_in(rt.alloc(), TABLES), None);
}

// Returns true if a PUBREL (MQTT 3.6) begins at some byte.
fn has_pubrel(bytes: &[u8]) -> bool {
    bytes
        .iter()
        .zip(bytes.iter().skip(1))
        .any(|(first, second)| (*first, *second) == (0x62, 0x02))
}

// Returns true if none waits to come down on a connection.
fn is_free_of_pubrel(world: &World) -> bool {
    (1..4u64).all(|connection| !has_pubrel(world.down(connection)))
}

// Returns the first row that does not hold, or after which one waits, and what the world shows
// then.
fn first_fault(alloc: Global, world: &mut World) -> Option<(&'static str, Fault)> {
    for (at, row) in STALE.iter().enumerate() {
        if !is_right(alloc, world, row) {
            return Some(("the row does not hold", fault_at(alloc, world, at, row)));
        }
        if !is_free_of_pubrel(world) {
            return Some(("a PUBREL waits", fault_at(alloc, world, at, row)));
        }
    }
    None
}

// Returns the first such row of a fresh world.
fn first_fault_of_fresh(alloc: Global) -> Option<(&'static str, Fault)> {
    match opened(alloc, 2, &[1, 2]) {
        Some(mut world) => {
            let fault = first_fault(alloc, &mut world);
            drop(world);
            fault
        }
        None => Some(("no world opens", UNOPENED)),
    }
}

#[test]
fn no_pubrel_is_ever_on_its_way_down(rt: HostRuntime) {
    assert_eq!(rt; first_fault_of_fresh(rt.alloc()), None);
}
