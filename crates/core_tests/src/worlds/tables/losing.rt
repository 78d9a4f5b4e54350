// Connections that are lost and ended, at one end and at the other.

use crate::worlds::world_rows::{
    ABSENT, Action, Agreed, CONNECT_A, NOTHING, PRESENT, PUBLISH, PUBREC, Row, Sent, Table,
    fault_in,
};

// A client abandons its connection before it gets the CONNACK. What it published meanwhile is sent
// on the next connection, where its session is found. Each end is closed once. In all tables one
// node sends no messages.
const ABANDONED: &[Row] = &[
    Row::Idle(Action::Abandon("a")),
    Row::Idle(Action::Up(1)),
    Row::Does(Action::Open("a", 1), Sent(0), Agreed(0)),
    Row::Idle(Action::Open("a", 1)),
    Row::Does(Action::UpSome(1, 14), Sent(0), Agreed(0)),
    Row::Idle(Action::UpSome(1, 2)),
    Row::Idle(Action::UpSome(1, 0)),
    Row::Does(Action::UpSome(1, 1), Sent(0), Agreed(1)),
    Row::HasDown(1, ABSENT),
    Row::Does(Action::Publish("a"), Sent(0), Agreed(1)),
    Row::HasUp(1, NOTHING),
    Row::Does(Action::Abandon("a"), Sent(0), Agreed(1)),
    Row::Idle(Action::Abandon("a")),
    Row::Idle(Action::Down(1)),
    Row::Does(Action::Notice(1), Sent(0), Agreed(2)),
    Row::Idle(Action::Notice(1)),
    Row::Does(Action::Open("a", 1), Sent(0), Agreed(2)),
    Row::HasUp(2, CONNECT_A),
    Row::Does(Action::Up(2), Sent(0), Agreed(3)),
    Row::HasDown(2, PRESENT),
    Row::Does(Action::Down(2), Sent(0), Agreed(3)),
    Row::HasUp(2, PUBLISH),
    Row::Does(Action::Up(2), Sent(0), Agreed(4)),
    Row::HasDown(2, PUBREC),
    Row::Idle(Action::Notice(3)),
];

// A client leaves: its DISCONNECT still goes up, and the node closes its end.
const LEFT: &[Row] = &[
    Row::Idle(Action::Disconnect("a")),
    Row::Does(Action::Open("a", 1), Sent(0), Agreed(0)),
    Row::Does(Action::Up(1), Sent(0), Agreed(1)),
    Row::Does(Action::DownSome(1, 3), Sent(0), Agreed(1)),
    Row::Does(Action::DownSome(1, 1), Sent(0), Agreed(1)),
    Row::Does(Action::Disconnect("a"), Sent(0), Agreed(1)),
    Row::HasUp(1, b"\xE0\x00"),
    Row::Does(Action::Up(1), Sent(0), Agreed(2)),
    Row::Idle(Action::Notice(1)),
    Row::Idle(Action::Disconnect("a")),
];

// A second connection of a client closes the first one at the node.
const TAKEN_OVER: &[Row] = &[
    Row::Does(Action::Open("a", 1), Sent(0), Agreed(0)),
    Row::Does(Action::Up(1), Sent(0), Agreed(1)),
    Row::Does(Action::Abandon("a"), Sent(0), Agreed(1)),
    Row::Does(Action::Open("a", 1), Sent(0), Agreed(1)),
    Row::Does(Action::Up(2), Sent(0), Agreed(2)),
    Row::HasDown(2, PRESENT),
    Row::Idle(Action::Notice(1)),
    Row::Does(Action::Down(2), Sent(0), Agreed(2)),
];

const TABLES: &[Table] = &[
    ("abandoned", 1, &[1], ABANDONED),
    ("left", 1, &[1], LEFT),
    ("taken over", 1, &[1], TAKEN_OVER),
];

#[test]
fn lost_connections_close_and_sessions_stay(rt: HostRuntime) {
    assert_eq!(rt; fault_in(rt.alloc(), TABLES), None);
}
