// An administrator ends a client's session.

use crate::worlds::world_rows::{
    ABSENT, Action, Agreed, Row, Said, Sent, Session, Table, fault_in,
};

// SUBACK of QoS 2 (MQTT 3.9), and the PUBLISH of `x` about `t/1` at QoS 2 with identifier 1 (3.3).
const GRANTED_AND_SENT: &[u8] = b"\x90\x03\x00\x01\x02\x34\x08\x00\x03t/1\x00\x01x";

const AGREED: &[Said] = &[
    Said::Connect("b"),
    Said::Packet,
    Said::Connect("a"),
    Said::Packet,
    Said::Expel("b"),
    Said::Packet,
    Said::Expel("b"),
    Said::Connect("b"),
    Said::Packet,
    Said::Packet,
];

/// The events of the script `client_is_expelled` of the folder `examples`. The session of b ends
/// while it is connected, and once more while it has none. What is published then is sent to no
/// client. When b comes back there is no session, and it subscribes in its second one.
pub const EXPELLED: &[Row] = &[
    Row::Does(Action::Open("b", 1), Sent(0), Agreed(0)),
    Row::Does(Action::Up(1), Sent(0), Agreed(1)),
    Row::Does(Action::Down(1), Sent(0), Agreed(1)),
    Row::Does(Action::Subscribe("b"), Sent(0), Agreed(1)),
    Row::Does(Action::Up(1), Sent(0), Agreed(2)),
    Row::Does(Action::Open("a", 1), Sent(0), Agreed(2)),
    Row::Does(Action::Up(2), Sent(0), Agreed(3)),
    Row::Does(Action::Down(2), Sent(0), Agreed(3)),
    Row::Does(Action::Publish("a"), Sent(0), Agreed(3)),
    Row::Does(Action::Up(2), Sent(0), Agreed(4)),
    Row::HasDown(1, GRANTED_AND_SENT),
    Row::Does(Action::Expel("b", 1), Sent(0), Agreed(5)),
    Row::Does(Action::Publish("a"), Sent(0), Agreed(5)),
    Row::Does(Action::Up(2), Sent(0), Agreed(6)),
    Row::HasDown(1, GRANTED_AND_SENT),
    Row::Does(Action::Down(1), Sent(0), Agreed(6)),
    Row::Took("b", 1, Session(1)),
    Row::Idle(Action::Up(1)),
    Row::Does(Action::Expel("b", 1), Sent(0), Agreed(7)),
    Row::Does(Action::Abandon("b"), Sent(0), Agreed(7)),
    Row::Does(Action::Open("b", 1), Sent(0), Agreed(7)),
    Row::Does(Action::Up(3), Sent(0), Agreed(8)),
    Row::HasDown(3, ABSENT),
    Row::Does(Action::Down(3), Sent(0), Agreed(8)),
    Row::Took("b", 1, Session(1)),
    Row::Does(Action::Subscribe("b"), Sent(0), Agreed(8)),
    Row::Does(Action::Up(3), Sent(0), Agreed(9)),
    Row::Does(Action::Publish("a"), Sent(0), Agreed(9)),
    Row::Does(Action::Up(2), Sent(0), Agreed(10)),
    Row::Does(Action::Down(3), Sent(0), Agreed(10)),
    Row::Took("b", 2, Session(2)),
    Row::Agrees(AGREED),
];

// It is idle if there is no such client, or if the node is unknown, a backup, or has crashed.
const IDLE: &[Row] = &[
    Row::Idle(Action::Expel("c", 1)),
    Row::Idle(Action::Expel("a", 0)),
    Row::Idle(Action::Expel("a", 2)),
    Row::Idle(Action::Expel("a", 3)),
    Row::Does(Action::Expel("a", 1), Sent(1), Agreed(0)),
    Row::Does(Action::Deliver(0), Sent(2), Agreed(1)),
    Row::Does(Action::Deliver(1), Sent(3), Agreed(1)),
    Row::Agrees(&[Said::Expel("a")]),
    Row::Does(Action::Crash(1), Sent(3), Agreed(1)),
    Row::Idle(Action::Expel("a", 1)),
];

const TABLES: &[Table] = &[("expelled", 1, &[1], EXPELLED), ("idle", 2, &[1, 2], IDLE)];

#[test]
fn sessions_are_ended(rt: HostRuntime) {
    assert_eq!(rt; fault_in(rt.alloc(), TABLES), None);
}
