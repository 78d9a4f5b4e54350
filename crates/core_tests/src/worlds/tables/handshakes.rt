// A publication at QoS 2 from one client to another, byte by byte.

use crate::worlds::world_rows::{
    Action, Agreed, NOTHING, PUBLISH, PUBREC, PUBREL, Row, Sent, Session, Table, fault_in,
};

// A subscription of `b`, a publication of `a`, and both handshakes to their ends. One node sends no
// messages.
const WHOLE: &[Row] = &[
    Row::Idle(Action::Subscribe("b")),
    Row::Idle(Action::Open("c", 1)),
    Row::Idle(Action::Open("b", 2)),
    Row::Idle(Action::Open("b", 0)),
    Row::Does(Action::Open("b", 1), Sent(0), Agreed(0)),
    Row::Does(Action::Up(1), Sent(0), Agreed(1)),
    Row::Does(Action::Down(1), Sent(0), Agreed(1)),
    Row::Does(Action::Subscribe("b"), Sent(0), Agreed(1)),
    Row::HasUp(1, b"\x82\x08\x00\x01\x00\x03t/#\x02"),
    Row::Does(Action::Up(1), Sent(0), Agreed(2)),
    Row::HasDown(1, b"\x90\x03\x00\x01\x02"),
    Row::Does(Action::Down(1), Sent(0), Agreed(2)),
    Row::Does(Action::Open("a", 1), Sent(0), Agreed(2)),
    Row::Does(Action::Up(2), Sent(0), Agreed(3)),
    Row::Does(Action::Down(2), Sent(0), Agreed(3)),
    Row::Does(Action::Publish("a"), Sent(0), Agreed(3)),
    Row::HasUp(2, PUBLISH),
    Row::Does(Action::Up(2), Sent(0), Agreed(4)),
    Row::HasDown(2, PUBREC),
    Row::HasDown(1, PUBLISH),
    Row::Does(Action::Down(2), Sent(0), Agreed(4)),
    Row::HasUp(2, PUBREL),
    Row::Does(Action::Up(2), Sent(0), Agreed(5)),
    Row::HasDown(2, b"\x70\x02\x00\x01"),
    Row::Does(Action::Down(2), Sent(0), Agreed(5)),
    Row::Took("b", 0, Session(0)),
    Row::Does(Action::DownSome(1, 9), Sent(0), Agreed(5)),
    Row::Took("b", 0, Session(0)),
    Row::Does(Action::DownSome(1, 1), Sent(0), Agreed(5)),
    Row::Took("b", 1, Session(1)),
    Row::Took("a", 0, Session(0)),
    Row::HasUp(1, PUBREC),
    Row::Does(Action::Up(1), Sent(0), Agreed(6)),
    Row::HasDown(1, PUBREL),
    Row::Does(Action::Down(1), Sent(0), Agreed(6)),
    Row::Does(Action::Up(1), Sent(0), Agreed(7)),
    Row::HasDown(1, NOTHING),
    Row::Took("b", 1, Session(1)),
];

const TABLES: &[Table] = &[("whole", 1, &[1], WHOLE)];

#[test]
fn a_publication_reaches_the_subscriber(rt: HostRuntime) {
    assert_eq!(rt; fault_in(rt.alloc(), TABLES), None);
}
