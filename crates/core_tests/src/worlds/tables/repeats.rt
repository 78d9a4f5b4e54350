// Messages that come again, or in another order.

use crate::worlds::world_rows::{
    ABSENT, Action, Agreed, CONNECT_A, NOTHING, Row, Sent, Table, fault_in,
};

// A CONNECT is answered once the backup holds it. Then the Commit comes again, the Held, and the
// Append, which is held again; an Append that is already there adds nothing.
const REPEATED: &[Row] = &[
    Row::Does(Action::Open("a", 1), Sent(0), Agreed(0)),
    Row::HasUp(1, CONNECT_A),
    Row::Does(Action::Up(1), Sent(1), Agreed(0)),
    Row::HasDown(1, NOTHING),
    Row::Idle(Action::Deliver(1)),
    Row::Does(Action::Deliver(0), Sent(2), Agreed(1)),
    Row::HasDown(1, NOTHING),
    Row::Does(Action::Deliver(1), Sent(3), Agreed(1)),
    Row::HasDown(1, ABSENT),
    Row::Does(Action::Down(1), Sent(3), Agreed(1)),
    Row::Does(Action::Deliver(2), Sent(3), Agreed(1)),
    Row::Does(Action::Deliver(1), Sent(3), Agreed(1)),
    Row::Does(Action::Deliver(0), Sent(4), Agreed(1)),
    Row::HasDown(1, NOTHING),
    Row::Idle(Action::Down(1)),
    Row::Idle(Action::Deliver(4)),
    Row::Active(1),
];

// What a tick sends again is a message of its own.
const TICKED: &[Row] = &[
    Row::Does(Action::Open("a", 1), Sent(0), Agreed(0)),
    Row::Does(Action::Up(1), Sent(1), Agreed(0)),
    Row::Does(Action::Tick(1), Sent(3), Agreed(0)),
    Row::Does(Action::Tick(2), Sent(3), Agreed(0)),
    Row::Idle(Action::Tick(3)),
    Row::Idle(Action::Tick(0)),
    Row::Does(Action::Deliver(1), Sent(4), Agreed(1)),
    Row::Does(Action::Deliver(3), Sent(5), Agreed(1)),
    Row::HasDown(1, ABSENT),
    Row::Does(Action::Deliver(0), Sent(6), Agreed(1)),
    Row::Does(Action::Deliver(5), Sent(6), Agreed(1)),
    Row::HasDown(1, ABSENT),
];

const TABLES: &[Table] = &[
    ("repeated", 2, &[1, 2], REPEATED),
    ("ticked", 2, &[1, 2], TICKED),
];

#[test]
fn messages_come_again(rt: HostRuntime) {
    assert_eq!(rt; fault_in(rt.alloc(), TABLES), None);
}
