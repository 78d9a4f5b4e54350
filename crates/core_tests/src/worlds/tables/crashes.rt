// A primary that crashes.

use crate::worlds::world_rows::{
    Action, Agreed, CONNECT_A, CONNECT_B, NOTHING, PRESENT, PRESENT_AND_PUBLISH, PUBLISH_AGAIN,
    PUBREC, PUBREL, Row, Said, Sent, Session, Table, fault_in,
};

// What is agreed while the primary holds a publication that its backup does not hold yet: both
// CONNECTs, and the SUBSCRIBE between them.
const BEFORE: &[Said] = &[Said::Connect("b"), Said::Packet, Said::Connect("a")];

// What is agreed at the end: the publication, the backup's ballot, both CONNECTs, and the
// publication sent again.
const AFTER: &[Said] = &[
    Said::Connect("b"),
    Said::Packet,
    Said::Connect("a"),
    Said::Packet,
    Said::Start(2),
    Said::Connect("a"),
    Said::Packet,
    Said::Connect("b"),
];

/// The events of the script `primary_crashes` of the folder `examples`, and idle ones among them,
/// with all that waits on connections 3 and 4. The primary holds a publication that its backup
/// holds too, and crashes before it answers. The backup takes over as sole member: the publisher
/// sends its PUBLISH again, with DUP, and is answered, and the subscriber accepts it once.
pub const CRASHED: &[Row] = &[
    Row::Does(Action::Open("b", 1), Sent(0), Agreed(0)),
    Row::Does(Action::Up(1), Sent(1), Agreed(0)),
    Row::Does(Action::Deliver(0), Sent(2), Agreed(1)),
    Row::Does(Action::Deliver(1), Sent(3), Agreed(1)),
    Row::Does(Action::Down(1), Sent(3), Agreed(1)),
    Row::Does(Action::Subscribe("b"), Sent(3), Agreed(1)),
    Row::Does(Action::Up(1), Sent(4), Agreed(1)),
    Row::Does(Action::Deliver(3), Sent(5), Agreed(2)),
    Row::Does(Action::Deliver(4), Sent(6), Agreed(2)),
    Row::Does(Action::Open("a", 1), Sent(6), Agreed(2)),
    Row::Does(Action::Up(2), Sent(7), Agreed(2)),
    Row::Does(Action::Deliver(6), Sent(8), Agreed(3)),
    Row::Does(Action::Deliver(7), Sent(9), Agreed(3)),
    Row::Does(Action::Down(2), Sent(9), Agreed(3)),
    Row::Does(Action::Publish("a"), Sent(9), Agreed(3)),
    Row::Does(Action::Up(2), Sent(10), Agreed(3)),
    Row::Agrees(BEFORE),
    Row::HasDown(2, NOTHING),
    Row::Does(Action::Deliver(9), Sent(11), Agreed(4)),
    Row::HasDown(2, NOTHING),
    Row::Does(Action::Crash(1), Sent(11), Agreed(4)),
    Row::Idle(Action::Crash(1)),
    Row::Idle(Action::Tick(1)),
    Row::Idle(Action::Deliver(10)),
    Row::Does(Action::Assign(&[2], 2), Sent(12), Agreed(4)),
    Row::Active(1),
    Row::Does(Action::Deliver(11), Sent(14), Agreed(4)),
    Row::Does(Action::Deliver(13), Sent(15), Agreed(4)),
    Row::Does(Action::Deliver(14), Sent(16), Agreed(4)),
    Row::Does(Action::Deliver(15), Sent(17), Agreed(4)),
    Row::Active(2),
    Row::Does(Action::Deliver(16), Sent(17), Agreed(5)),
    Row::Does(Action::Abandon("a"), Sent(17), Agreed(5)),
    Row::Idle(Action::Open("a", 1)),
    Row::HasUp(3, NOTHING),
    Row::Does(Action::Open("a", 2), Sent(17), Agreed(5)),
    Row::HasUp(3, CONNECT_A),
    Row::HasDown(3, NOTHING),
    Row::Does(Action::Up(3), Sent(17), Agreed(6)),
    Row::HasUp(3, NOTHING),
    Row::HasDown(3, PRESENT),
    Row::Does(Action::Down(3), Sent(17), Agreed(6)),
    Row::HasUp(3, PUBLISH_AGAIN),
    Row::HasDown(3, NOTHING),
    Row::Does(Action::Up(3), Sent(17), Agreed(7)),
    Row::HasUp(3, NOTHING),
    Row::HasDown(3, PUBREC),
    Row::Does(Action::Down(3), Sent(17), Agreed(7)),
    Row::HasUp(3, PUBREL),
    Row::HasDown(3, NOTHING),
    Row::Does(Action::Abandon("b"), Sent(17), Agreed(7)),
    Row::HasUp(4, NOTHING),
    Row::Does(Action::Open("b", 2), Sent(17), Agreed(7)),
    Row::HasUp(4, CONNECT_B),
    Row::HasDown(4, NOTHING),
    Row::Does(Action::Up(4), Sent(17), Agreed(8)),
    Row::HasUp(4, NOTHING),
    Row::HasDown(4, PRESENT_AND_PUBLISH),
    Row::Took("b", 0, Session(0)),
    Row::Does(Action::Down(4), Sent(17), Agreed(8)),
    Row::Took("b", 1, Session(1)),
    Row::HasUp(4, PUBREC),
    Row::HasDown(4, NOTHING),
    Row::HasUp(3, PUBREL),
    Row::HasDown(3, NOTHING),
    Row::Agrees(AFTER),
];

// After a crash of the sole member nothing can happen on its connections.
const NOBODY: &[Row] = &[
    Row::Does(Action::Open("a", 1), Sent(0), Agreed(0)),
    Row::Does(Action::Crash(1), Sent(0), Agreed(0)),
    Row::Idle(Action::Up(1)),
    Row::Idle(Action::Notice(1)),
    Row::Does(Action::Abandon("a"), Sent(0), Agreed(0)),
    Row::Idle(Action::Open("a", 1)),
    Row::Idle(Action::Assign(&[2], 1)),
    Row::Idle(Action::Assign(&[], 1)),
    Row::Does(Action::Assign(&[2], 2), Sent(1), Agreed(0)),
    Row::Does(Action::Deliver(0), Sent(2), Agreed(0)),
    Row::Idle(Action::Deliver(1)),
    Row::Active(1),
];

const CRASHES: &[Table] = &[("crashed", 2, &[1, 2], CRASHED)];

#[test]
fn a_backup_takes_over_from_a_crashed_primary(rt: HostRuntime) {
    assert_eq!(rt; fault_in(rt.alloc(), CRASHES), None);
}

const NOBODYS: &[Table] = &[("nobody", 2, &[1], NOBODY)];

#[test]
fn nothing_happens_at_a_crashed_sole_member(rt: HostRuntime) {
    assert_eq!(rt; fault_in(rt.alloc(), NOBODYS), None);
}
