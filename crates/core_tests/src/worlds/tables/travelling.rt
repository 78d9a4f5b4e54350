// Nodes that cut their logs.

use crate::worlds::world_rows::{Action, Agreed, PRESENT, Row, Said, Sent, Table, fault_in};

// What is agreed before and after the other member takes over.
const BEFORE: &[Said] = &[Said::Connect("a")];

const AFTER: &[Said] = &[Said::Connect("a"), Said::Start(2), Said::Connect("a")];

/// The events of the script `snapshot_travels` of the folder `examples`. A sole member cuts its
/// log, and has nothing to cut then. Another member takes over, to which its snapshot comes, and
/// finds the client's session in it.
pub const TRAVELLED: &[Row] = &[
    Row::Does(Action::Open("a", 1), Sent(0), Agreed(0)),
    Row::Does(Action::Up(1), Sent(0), Agreed(1)),
    Row::Does(Action::Down(1), Sent(0), Agreed(1)),
    Row::Agrees(BEFORE),
    Row::Does(Action::Cut(1), Sent(0), Agreed(1)),
    Row::Agrees(BEFORE),
    Row::Idle(Action::Cut(1)),
    Row::Does(Action::Assign(&[1, 2], 2), Sent(1), Agreed(1)),
    Row::Does(Action::Deliver(0), Sent(2), Agreed(1)),
    Row::Does(Action::Deliver(1), Sent(3), Agreed(1)),
    Row::Does(Action::Deliver(2), Sent(4), Agreed(1)),
    Row::Does(Action::Deliver(3), Sent(5), Agreed(1)),
    Row::Does(Action::Deliver(4), Sent(6), Agreed(1)),
    Row::Does(Action::Deliver(5), Sent(7), Agreed(1)),
    Row::Does(Action::Deliver(6), Sent(8), Agreed(1)),
    Row::Does(Action::Deliver(7), Sent(9), Agreed(2)),
    Row::Does(Action::Deliver(8), Sent(10), Agreed(2)),
    Row::Does(Action::Abandon("a"), Sent(10), Agreed(2)),
    Row::Does(Action::Open("a", 2), Sent(10), Agreed(2)),
    Row::Does(Action::Up(2), Sent(11), Agreed(2)),
    Row::Does(Action::Deliver(10), Sent(12), Agreed(3)),
    Row::Does(Action::Deliver(11), Sent(13), Agreed(3)),
    Row::HasDown(2, PRESENT),
    Row::Does(Action::Down(2), Sent(13), Agreed(3)),
    Row::Active(2),
    Row::Agrees(AFTER),
];

// A cut is idle if the node is unknown, has applied nothing since its last cut, or has crashed.
const IDLE: &[Row] = &[
    Row::Idle(Action::Cut(0)),
    Row::Idle(Action::Cut(1)),
    Row::Idle(Action::Cut(3)),
    Row::Does(Action::Open("a", 1), Sent(0), Agreed(0)),
    Row::Does(Action::Up(1), Sent(1), Agreed(0)),
    Row::Idle(Action::Cut(1)),
    Row::Does(Action::Deliver(0), Sent(2), Agreed(1)),
    Row::Idle(Action::Cut(1)),
    Row::Idle(Action::Cut(2)),
    Row::Does(Action::Deliver(1), Sent(3), Agreed(1)),
    Row::Idle(Action::Cut(2)),
    Row::Does(Action::Deliver(2), Sent(3), Agreed(1)),
    Row::Does(Action::Cut(2), Sent(3), Agreed(1)),
    Row::Idle(Action::Cut(2)),
    Row::Does(Action::Crash(1), Sent(3), Agreed(1)),
    Row::Idle(Action::Cut(1)),
    Row::Agrees(BEFORE),
];

const TABLES: &[Table] = &[
    ("travelled", 2, &[1], TRAVELLED),
    ("idle", 2, &[1, 2], IDLE),
];

#[test]
fn snapshots_travel(rt: HostRuntime) {
    assert_eq!(rt; fault_in(rt.alloc(), TABLES), None);
}
