// Subscribers over servers in memory.

use super::servers::*;
use client_base::printed::print_text;
use packet_base::{QoS, RefusalCode};
use std::alloc::Global;
use std::cell::RefCell;
use std::test::Fail;
use user_client::{Denial, Subscriber, UserClientError};

fn subscribe(
    alloc: Global,
    count: u32,
    servers: &mut Scripted<'_>,
    output: &mut Vec<u8>,
) -> Result<(), UserClientError> {
    let mut subscriber = Subscriber::new(alloc, "a", "t/#", QoS::ExactlyOnce, count)?;
    subscriber.run(servers, output, 2)
}

// Waits for this many publications over these connections. Returns what differs from the wanted
// run: how it ends, what it prints, or what it writes.
fn fault_of_hearing(
    alloc: Global,
    count: u32,
    connections: &[Pieces],
    printed: &[u8],
    written: &[&[u8]],
) -> Option<Fault> {
    fault_within(alloc, count, usize::MAX, connections, printed, written)
}

// Returns the same if the first connection takes no more than `room` bytes.
fn fault_within(
    alloc: Global,
    count: u32,
    room: usize,
    connections: &[Pieces],
    printed: &[u8],
    written: &[&[u8]],
) -> Option<Fault> {
    let log = RefCell::new(Vec::new(alloc));
    let mut servers = Scripted::new(connections, room, &log);
    let mut output = Vec::new(alloc);
    let ended = subscribe(alloc, count, &mut servers, &mut output);
    if ended != Ok(()) {
        return Some(Fault::End(ended));
    }
    if output.as_slice() != printed {
        return Some(Fault::Printed(output.len()));
    }
    first_fault_of_packets(log.into_inner().as_slice(), written)
}

#[test]
fn publications_are_printed(rt: HostRuntime) {
    let pieces: &[Pieces] = &[&[CONNACK, SUBACK, PUBLISH, PUBLISH_ONCE]];
    let written: &[&[u8]] = &[CONNECT, SUBSCRIBE, PUBREC, DISCONNECT];
    let fault = fault_of_hearing(rt.alloc(), 2, pieces, b"2 0 t/1 x\n0 0 t/1 x\n", written);
    assert_eq!(rt; fault, None);
}

// What is printed is done, also if neither the last answer nor the DISCONNECT can be written.
#[test]
fn printed_publications_are_done(rt: HostRuntime) {
    let pieces: &[Pieces] = &[
        &[CONNACK, SUBACK, PUBLISH],
        &[SESSION_PRESENT, PUBLISH_AGAIN],
    ];
    let written: &[&[u8]] = &[CONNECT, SUBSCRIBE];
    let room = CONNECT.len() + SUBSCRIBE.len();
    let fault = fault_within(rt.alloc(), 1, room, pieces, b"2 0 t/1 x\n", written);
    assert_eq!(rt; fault, None);
}

// A subscription may be lost with its connection; one that has brought something is there.
#[test]
fn a_subscription_is_asked_for_again(rt: HostRuntime) {
    let pieces: &[Pieces] = &[&[CONNACK], &[SESSION_PRESENT, PUBLISH_ONCE]];
    let written: &[&[u8]] = &[CONNECT, SUBSCRIBE, CONNECT, SUBSCRIBE, DISCONNECT];
    let fault = fault_of_hearing(rt.alloc(), 1, pieces, b"0 0 t/1 x\n", written);
    assert_eq!(rt; fault, None);
    let pieces: &[Pieces] = &[&[CONNACK, PUBLISH_ONCE], &[SESSION_PRESENT, PUBLISH_ONCE]];
    let written: &[&[u8]] = &[CONNECT, SUBSCRIBE, CONNECT, DISCONNECT];
    let fault = fault_of_hearing(rt.alloc(), 2, pieces, b"0 0 t/1 x\n0 0 t/1 x\n", written);
    assert_eq!(rt; fault, None);
}

// A refused subscription ends the client, whether or not a publication came before.
#[test]
fn a_refused_subscription_ends_a_subscriber(rt: HostRuntime) {
    let denied = Some(Fault::End(Err(UserClientError::Denied(Denial::Suback))));
    let written: &[&[u8]] = &[CONNECT, SUBSCRIBE];
    let pieces: &[Pieces] = &[&[CONNACK, SUBACK_FAILURE]];
    let fault = fault_of_hearing(rt.alloc(), 1, pieces, b"", written);
    assert_eq!(rt; fault, denied);
    let pieces: &[Pieces] = &[&[CONNACK, PUBLISH_ONCE, SUBACK_FAILURE]];
    let fault = fault_of_hearing(rt.alloc(), 2, pieces, b"", written);
    assert_eq!(rt; fault, denied);
    let pieces: &[Pieces] = &[&[NOT_AUTHORIZED]];
    let refused = Denial::Connack(RefusalCode::NotAuthorized);
    let fault = fault_of_hearing(rt.alloc(), 1, pieces, b"", &[CONNECT]);
    assert_eq!(rt;
        fault,
        Some(Fault::End(Err(UserClientError::Denied(refused))))
    );
}

// An identifier and a filter, and the number with which they are refused (docs/MANUAL.md): an
// empty identifier, and one with U+0000; then an empty filter, one in which `#` is not the last
// level, one with U+0000, and one of 33 levels.
const REFUSED: &[(&str, &str, u8)] = &[
    ("", "t", 6),
    ("a\0", "t", 5),
    ("a", "", 9),
    ("a", "#/t", 9),
    ("a", "t\0", 5),
    ("a", "////////////////////////////////", 14),
];

fn refusal_of(alloc: Global, id: &str, filter: &str) -> Option<UserClientError> {
    Subscriber::new(alloc, id, filter, QoS::AtMostOnce, 1).err()
}

#[test]
fn words_of_a_subscriber_are_refused(rt: HostRuntime) {
    for (id, filter, number) in REFUSED {
        let refusal = refusal_of(rt.alloc(), id, filter);
        let wanted = Some(UserClientError::Refused(*number));
        assert_eq!(rt; refusal, wanted, "{id:?}, {filter:?}");
    }
}

#[test]
fn other_bytes_are_printed_by_their_digits(rt: HostRuntime) -> Result<(), Fail> {
    let mut line = Vec::new(rt.alloc());
    print_text(&[0x20, 0x21, b'\\', 0x7E, 0x7F, 0xAF, 0], &mut line)?;
    assert_eq!(rt; line.as_slice(), b"\\x20!\\x5c~\\x7f\\xaf\\x00".as_slice());
    Ok(())
}
