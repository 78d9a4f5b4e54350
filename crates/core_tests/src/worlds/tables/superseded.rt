// A ballot that waits for its activation when the next one is given.

use crate::worlds::world_rows::{
    ABSENT, Action, Agreed, CONNECT_A, NOTHING, Row, Said, Sent, Session, Table, fault_in,
};

const AFTER: &[Said] = &[Said::Start(3), Said::Connect("a")];

/// The events of the script `ballot_is_superseded` of the folder `examples`. The primary of ballot
/// 2 asks for its activation by message 5, and is refused by message 7, since ballot 3 was given
/// meanwhile. A client finds only that of ballot 3.
pub const SUPERSEDED: &[Row] = &[
    Row::Does(Action::Assign(&[1, 2], 2), Sent(1), Agreed(0)),
    Row::Does(Action::Deliver(0), Sent(2), Agreed(0)),
    Row::Does(Action::Deliver(1), Sent(3), Agreed(0)),
    Row::Does(Action::Deliver(2), Sent(4), Agreed(0)),
    Row::Does(Action::Deliver(3), Sent(5), Agreed(0)),
    Row::Does(Action::Deliver(4), Sent(6), Agreed(0)),
    Row::Does(Action::Assign(&[3], 3), Sent(7), Agreed(0)),
    Row::Does(Action::Deliver(5), Sent(8), Agreed(0)),
    Row::Active(1),
    Row::Does(Action::Deliver(7), Sent(8), Agreed(0)),
    Row::Does(Action::Deliver(6), Sent(9), Agreed(0)),
    Row::Does(Action::Deliver(8), Sent(10), Agreed(0)),
    Row::Does(Action::Deliver(9), Sent(11), Agreed(0)),
    Row::Active(1),
    Row::Does(Action::Deliver(10), Sent(12), Agreed(0)),
    Row::Active(3),
    Row::Does(Action::Deliver(11), Sent(12), Agreed(1)),
    Row::Agrees(&[Said::Start(3)]),
    Row::Idle(Action::Open("a", 1)),
    Row::Idle(Action::Open("a", 2)),
    Row::Does(Action::Open("a", 3), Sent(12), Agreed(1)),
    Row::HasUp(1, CONNECT_A),
    Row::HasDown(1, NOTHING),
    Row::Does(Action::Up(1), Sent(12), Agreed(2)),
    Row::HasUp(1, NOTHING),
    Row::HasDown(1, ABSENT),
    Row::Does(Action::Down(1), Sent(12), Agreed(2)),
    Row::HasDown(1, NOTHING),
    Row::Took("a", 0, Session(0)),
    Row::Active(3),
    Row::Agrees(AFTER),
];

const TABLES: &[Table] = &[("superseded", 3, &[1], SUPERSEDED)];

#[test]
fn a_ballot_is_superseded(rt: HostRuntime) {
    assert_eq!(rt; fault_in(rt.alloc(), TABLES), None);
}
