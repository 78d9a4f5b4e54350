// Publishers over servers in memory.

use super::servers::*;
use packet_base::{QoS, RefusalCode};
use std::alloc::Global;
use std::cell::RefCell;
use std::test::Fail;
use user_client::{Denial, Publisher, UserClientError};

fn publish(alloc: Global, qos: QoS, servers: &mut Scripted<'_>) -> Result<(), UserClientError> {
    let mut publisher = Publisher::new(alloc, "a", "t/1", qos, false, "x")?;
    publisher.run(servers, 3)
}

// Publishes at this QoS over these connections. Returns what differs from the wanted run: how it
// ends, how often it waited, or what is written.
fn fault_of_publishing(
    alloc: Global,
    qos: QoS,
    connections: &[Pieces],
    written: &[&[u8]],
    ended: Result<(), UserClientError>,
    pauses: u32,
) -> Option<Fault> {
    fault_within(alloc, qos, usize::MAX, connections, written, ended, pauses)
}

// Returns the same if the first connection takes no more than `room` bytes.
fn fault_within(
    alloc: Global,
    qos: QoS,
    room: usize,
    connections: &[Pieces],
    written: &[&[u8]],
    ended: Result<(), UserClientError>,
    pauses: u32,
) -> Option<Fault> {
    let log = RefCell::new(Vec::new(alloc));
    let mut servers = Scripted::new(connections, room, &log);
    let end = publish(alloc, qos, &mut servers);
    if end != ended {
        return Some(Fault::End(end));
    }
    if servers.pauses != pauses {
        return Some(Fault::Pauses(servers.pauses));
    }
    first_fault_of_packets(log.into_inner().as_slice(), written)
}

#[test]
fn a_publication_is_answered(rt: HostRuntime) {
    let pieces: &[Pieces] = &[&[CONNACK, PUBREC, PUBCOMP]];
    let written: &[&[u8]] = &[CONNECT, PUBLISH, PUBREL, DISCONNECT];
    let fault = fault_of_publishing(rt.alloc(), QoS::ExactlyOnce, pieces, written, Ok(()), 0);
    assert_eq!(rt; fault, None);
    let pieces: &[Pieces] = &[&[CONNACK]];
    let written: &[&[u8]] = &[CONNECT, PUBLISH_ONCE, DISCONNECT];
    let fault = fault_of_publishing(rt.alloc(), QoS::AtMostOnce, pieces, written, Ok(()), 0);
    assert_eq!(rt; fault, None);
}

// A connection that is lost before PUBREC, and one on which the server continues.
#[test]
fn a_publication_is_sent_again(rt: HostRuntime) {
    let pieces: &[Pieces] = &[&[CONNACK], &[SESSION_PRESENT, PUBREC, PUBCOMP]];
    let written: &[&[u8]] = &[CONNECT, PUBLISH, CONNECT, PUBLISH_AGAIN, PUBREL, DISCONNECT];
    let fault = fault_of_publishing(rt.alloc(), QoS::ExactlyOnce, pieces, written, Ok(()), 1);
    assert_eq!(rt; fault, None);
}

#[test]
fn a_publication_is_given_up(rt: HostRuntime) {
    let lost = Err(UserClientError::Lost);
    let fault = fault_of_publishing(rt.alloc(), QoS::AtLeastOnce, &[], &[], lost, 2);
    assert_eq!(rt; fault, None);
    let present = Err(UserClientError::SessionPresent);
    let pieces: &[Pieces] = &[&[SESSION_PRESENT]];
    let fault = fault_of_publishing(rt.alloc(), QoS::ExactlyOnce, pieces, &[CONNECT], present, 0);
    assert_eq!(rt; fault, None);
    let pieces: &[Pieces] = &[&[CONNACK], &[CONNACK]];
    let written: &[&[u8]] = &[CONNECT, PUBLISH, CONNECT];
    let session_lost = Err(UserClientError::SessionLost);
    let fault = fault_of_publishing(
        rt.alloc(),
        QoS::ExactlyOnce,
        pieces,
        written,
        session_lost,
        1,
    );
    assert_eq!(rt; fault, None);
}

// What a server sends on its first connection, and why it then denies the client a connection for
// good.
const DENIALS: &[(Pieces, RefusalCode)] = &[
    (&[WRONG_PROTOCOL], RefusalCode::ProtocolVersion),
    (&[WRONG_IDENTIFIER], RefusalCode::IdentifierRejected),
    (&[WRONG_PASSWORD], RefusalCode::BadUserNameOrPassword),
    (&[NOT_AUTHORIZED], RefusalCode::NotAuthorized),
    (&[&[0x20, 2], &[0, 5]], RefusalCode::NotAuthorized),
];

// A refused connection is not tried again, but a server that is unavailable is.
#[test]
fn a_refused_connection_ends_a_publisher(rt: HostRuntime) {
    for (pieces, code) in DENIALS {
        let denied = Err(UserClientError::Denied(Denial::Connack(*code)));
        let connections = &[*pieces, &[CONNACK, PUBACK]];
        let written: &[&[u8]] = &[CONNECT];
        let fault = fault_of_publishing(
            rt.alloc(),
            QoS::AtLeastOnce,
            connections,
            written,
            denied,
            0,
        );
        assert_eq!(rt; fault, None, "{code}");
    }
    let pieces: &[Pieces] = &[&[UNAVAILABLE], &[CONNACK, PUBACK]];
    let written: &[&[u8]] = &[CONNECT, CONNECT, PUBLISH_ANSWERED, DISCONNECT];
    let fault = fault_of_publishing(rt.alloc(), QoS::AtLeastOnce, pieces, written, Ok(()), 1);
    assert_eq!(rt; fault, None);
    let pieces: &[Pieces] = &[&[UNAVAILABLE], &[UNAVAILABLE]];
    let lost = Err(UserClientError::Lost);
    let written: &[&[u8]] = &[CONNECT, CONNECT];
    let fault = fault_of_publishing(rt.alloc(), QoS::AtLeastOnce, pieces, written, lost, 2);
    assert_eq!(rt; fault, None);
}

// What is acknowledged is done, also if the DISCONNECT cannot be written: nothing is published
// twice.
#[test]
fn an_acknowledged_publication_is_done(rt: HostRuntime) {
    let alloc = rt.alloc();
    let pieces: &[Pieces] = &[&[CONNACK, PUBREC, PUBCOMP], &[SESSION_PRESENT]];
    let written: &[&[u8]] = &[CONNECT, PUBLISH, PUBREL];
    let room = CONNECT.len() + PUBLISH.len() + PUBREL.len();
    let fault = fault_within(alloc, QoS::ExactlyOnce, room, pieces, written, Ok(()), 0);
    assert_eq!(rt; fault, None);
    let pieces: &[Pieces] = &[&[CONNACK, PUBACK], &[SESSION_PRESENT]];
    let written: &[&[u8]] = &[CONNECT, PUBLISH_ANSWERED];
    let room = CONNECT.len() + PUBLISH_ANSWERED.len();
    let fault = fault_within(alloc, QoS::AtLeastOnce, room, pieces, written, Ok(()), 0);
    assert_eq!(rt; fault, None);
}

// Bytes that are no packet, in the piece of the last answer.
#[test]
fn what_comes_after_the_last_answer_does_not_matter(rt: HostRuntime) {
    let pieces: &[Pieces] = &[&[CONNACK, PUBACK_AND_NONSENSE], &[SESSION_PRESENT]];
    let written: &[&[u8]] = &[CONNECT, PUBLISH_ANSWERED];
    let fault = fault_of_publishing(rt.alloc(), QoS::AtLeastOnce, pieces, written, Ok(()), 0);
    assert_eq!(rt; fault, None);
}

// At QoS 0 a publication is done once its bytes are written, and not before.
#[test]
fn a_publication_at_qos_0_is_written(rt: HostRuntime) {
    let alloc = rt.alloc();
    let pieces: &[Pieces] = &[&[CONNACK], &[CONNACK]];
    let lost = Err(UserClientError::SessionLost);
    let room = CONNECT.len();
    let written: &[&[u8]] = &[CONNECT, CONNECT];
    let fault = fault_within(alloc, QoS::AtMostOnce, room, pieces, written, lost, 1);
    assert_eq!(rt; fault, None);
    let pieces: &[Pieces] = &[&[CONNACK], &[SESSION_PRESENT]];
    let written: &[&[u8]] = &[CONNECT, CONNECT, PUBLISH_ONCE, DISCONNECT];
    let fault = fault_within(alloc, QoS::AtMostOnce, room, pieces, written, Ok(()), 1);
    assert_eq!(rt; fault, None);
    let room = CONNECT.len() + PUBLISH_ONCE.len();
    let written: &[&[u8]] = &[CONNECT, PUBLISH_ONCE];
    let fault = fault_within(alloc, QoS::AtMostOnce, room, pieces, written, Ok(()), 0);
    assert_eq!(rt; fault, None);
}

// An identifier and a topic, and the number with which they are refused (docs/MANUAL.md): an
// empty identifier, one with U+0000, and one of 65 bytes; then an empty topic, one with a wildcard,
// one with U+0000, and one of 33 levels. The identifier is looked at first.
const REFUSED: &[(&str, &str, u8)] = &[
    ("", "t", 6),
    ("a\0", "t", 5),
    (
        "aaaaaaaaaaaaaaaaaaaaaaaaaaaaaaaaaaaaaaaaaaaaaaaaaaaaaaaaaaaaaaaaa",
        "t",
        6,
    ),
    ("a", "", 8),
    ("a", "#", 8),
    ("a", "t\0", 5),
    ("a", "////////////////////////////////", 14),
    ("", "#", 6),
];

fn refusal_of(alloc: Global, id: &str, topic: &str) -> Option<UserClientError> {
    Publisher::new(alloc, id, topic, QoS::AtMostOnce, false, "x").err()
}

#[test]
fn words_of_a_publisher_are_refused(rt: HostRuntime) {
    for (id, topic, number) in REFUSED {
        let refusal = refusal_of(rt.alloc(), id, topic);
        let wanted = Some(UserClientError::Refused(*number));
        assert_eq!(rt; refusal, wanted, "{id:?}, {topic:?}");
    }
}

fn is_too_long(alloc: Global, message: &str, qos: QoS) -> bool {
    let refused = Publisher::new(alloc, "a", "t", qos, false, message).err();
    refused == Some(UserClientError::Refused(4))
}

// Two bytes of length, the topic's one byte, and one byte too many.
#[test]
fn a_long_message_is_refused(rt: HostRuntime) -> Result<(), Fail> {
    let bytes = Vec::from_elem(rt.alloc(), b'x', 1_048_570)?;
    let message = std::str::from_utf8(bytes.as_slice()).map_err(|_| Fail::from("no text"))?;
    for qos in [QoS::AtMostOnce, QoS::AtLeastOnce] {
        assert!(rt; is_too_long(rt.alloc(), message, qos), "{qos:?}");
    }
    Ok(())
}
