// A client with its pipes: what goes in at one end of a pipe and comes out at the other, as MQTT
// 3.1.1 spells it.

mod row;

use crate::worlds::piped::row::Row::{
    Abandon, Accepted, CannotDisconnect, CannotSubscribe, Connected, Count, Disconnect, Down,
    IsOpen, Kept, Leads, Open, Publish, Sent, Subscribe, Unsubscribe, Up, UpSome, Violates,
};
use crate::worlds::piped::row::{Row, fault_of};

// CONNECT of client `a` with CleanSession 0 and keep alive 0 (MQTT 3.1).
const CONNECT: &[u8] = &[
    0x10, 0x0D, 0x00, 0x04, 0x4D, 0x51, 0x54, 0x54, 0x04, 0x00, 0x00, 0x00, 0x00, 0x01, 0x61,
];

// CONNACK 0 without a session present, and with one (MQTT 3.2).
const ACCEPTED: &[u8] = &[0x20, 0x02, 0x00, 0x00];

const PRESENT: &[u8] = &[0x20, 0x02, 0x01, 0x00];

// PUBLISH of `x` on `t/1` at QoS 2 with identifier 1, for the first time and again (MQTT 3.3).
const PUBLISH: &[u8] = &[0x34, 0x08, 0x00, 0x03, 0x74, 0x2F, 0x31, 0x00, 0x01, 0x78];

const REPEAT: &[u8] = &[0x3C, 0x08, 0x00, 0x03, 0x74, 0x2F, 0x31, 0x00, 0x01, 0x78];

// SUBSCRIBE to `t/#` at QoS 2, and UNSUBSCRIBE (MQTT 3.8, 3.10).
const SUBSCRIBE: &[u8] = &[0x82, 0x08, 0x00, 0x01, 0x00, 0x03, 0x74, 0x2F, 0x23, 0x02];

const UNSUBSCRIBE: &[u8] = &[0xA2, 0x07, 0x00, 0x01, 0x00, 0x03, 0x74, 0x2F, 0x23];

// SUBACK, and a PUBLISH with identifier 5.
const SUBACK_AND_PUBLISH: &[u8] = &[
    0x90, 0x03, 0x00, 0x01, 0x02, 0x34, 0x08, 0x00, 0x03, 0x74, 0x2F, 0x31, 0x00, 0x05, 0x79,
];

// The client publishes at QoS 2, to the handshake's end (MQTT 4.3).
const A_PUBLICATION_GOES_UP: &[Row<'static>] = &[
    Open(0, 1),
    Up(0, CONNECT),
    Down(ACCEPTED, 3),
    Connected,
    Publish,
    Up(0, PUBLISH),
    Down(&[0x50, 0x02, 0x00, 0x01], 1),
    Up(0, &[0x62, 0x02, 0x00, 0x01]),
    Kept(1),
    Down(&[0x70, 0x02, 0x00, 0x01], 4),
    Kept(0),
];

// It is sent a publication at QoS 2, to the handshake's end. SUBACK and PUBLISH come in pieces that
// end elsewhere than the packets.
const A_PUBLICATION_COMES_DOWN: &[Row<'static>] = &[
    Open(0, 1),
    Up(0, CONNECT),
    Down(ACCEPTED, 3),
    Connected,
    Subscribe,
    Up(0, SUBSCRIBE),
    Down(SUBACK_AND_PUBLISH, 8),
    Accepted(1),
    Up(0, &[0x50, 0x02, 0x00, 0x05]),
    Down(&[0x62, 0x02, 0x00, 0x05], 2),
    Up(0, &[0x70, 0x02, 0x00, 0x05]),
    Unsubscribe,
    Up(0, UNSUBSCRIBE),
];

// A connection is lost while a PUBLISH waits on it, which still comes, in two pieces. A second
// connection leads to another node, and the PUBLISH is sent again on it.
const A_SECOND_CONNECTION_LEADS_ELSEWHERE: &[Row<'static>] = &[
    Open(0, 1),
    Up(0, CONNECT),
    Down(ACCEPTED, 4),
    Publish,
    Abandon,
    IsOpen(false),
    Open(1, 7),
    Count(2),
    Leads(0, 0, 1),
    Leads(1, 1, 7),
    UpSome(0, PUBLISH, 6),
    Up(0, &[0x31, 0x00, 0x01, 0x78]),
    Up(1, CONNECT),
    Down(PRESENT, 4),
    Up(1, REPEAT),
];

// DISCONNECT is the last packet that goes up. After it a client has no connection.
const LEAVING_IS_THE_LAST: &[Row<'static>] = &[
    Open(0, 1),
    Up(0, CONNECT),
    Down(ACCEPTED, 4),
    Disconnect,
    IsOpen(false),
    Up(0, &[0xE0, 0x00]),
    CannotDisconnect,
    CannotSubscribe,
];

// A second CONNACK ends the connection.
const A_VIOLATION_ENDS_THE_CONNECTION: &[Row<'static>] = &[
    Open(0, 1),
    Down(ACCEPTED, 4),
    Sent(ACCEPTED),
    Count(1),
    Violates(4),
    IsOpen(false),
];

const TABLES: &[(&str, &[Row<'static>])] = &[
    ("up", A_PUBLICATION_GOES_UP),
    ("down", A_PUBLICATION_COMES_DOWN),
    ("second connection", A_SECOND_CONNECTION_LEADS_ELSEWHERE),
    ("leaving", LEAVING_IS_THE_LAST),
    ("violation", A_VIOLATION_ENDS_THE_CONNECTION),
];

#[test]
fn a_client_with_its_pipes_does_as_its_rows_say(rt: HostRuntime) {
    for (name, rows) in TABLES {
        assert_eq!(rt; fault_of(rt.alloc(), rows), None, "{name}");
    }
}
