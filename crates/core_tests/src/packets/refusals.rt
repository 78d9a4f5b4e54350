// Refusals: their numbers, and what a user is told, as docs/MANUAL.md has them.

use crate::told::is_told;
use cutter::CutError;
use packet::{DecodeFault, EncodeFault};
use packet_base::RefusalCode;
use std::alloc::AllocError;
use topics::MalformedKind;

const KINDS: &[(MalformedKind, u8, &str)] = &[
    (MalformedKind::PacketType, 1, "reserved packet type"),
    (MalformedKind::Flags, 2, "flags of the fixed header"),
    (MalformedKind::Length, 3, "remaining length"),
    (MalformedKind::TooLarge, 4, "packet too large"),
    (MalformedKind::Text, 5, "text"),
    (MalformedKind::Identifier, 6, "identifier"),
    (MalformedKind::Qos, 7, "quality of service"),
    (MalformedKind::Topic, 8, "topic name"),
    (MalformedKind::Filter, 9, "topic filter"),
    (MalformedKind::Shape, 10, "shape of the packet"),
    (MalformedKind::Protocol, 11, "protocol"),
    (MalformedKind::Memory, 12, "out of memory"),
    (MalformedKind::TooDeep, 14, "too many levels"),
];

#[test]
fn kinds_have_their_numbers_and_texts(rt: HostRuntime) {
    for (kind, number, text) in KINDS {
        assert_eq!(rt; kind.number(), *number);
        assert!(rt; is_told(rt.alloc(), kind, text), "{kind:?}");
    }
    assert_eq!(rt; MalformedKind::from(AllocError), MalformedKind::Memory);
}

// The codes of MQTT 3.2.2.3, table 3.1.
const CODES: &[(RefusalCode, u8, &str)] = &[
    (
        RefusalCode::ProtocolVersion,
        1,
        "unacceptable protocol version",
    ),
    (RefusalCode::IdentifierRejected, 2, "identifier rejected"),
    (RefusalCode::ServerUnavailable, 3, "server unavailable"),
    (
        RefusalCode::BadUserNameOrPassword,
        4,
        "bad user name or password",
    ),
    (RefusalCode::NotAuthorized, 5, "not authorized"),
];

#[test]
fn codes_have_their_numbers_and_texts(rt: HostRuntime) {
    for (code, number, text) in CODES {
        assert_eq!(rt; code.number(), *number);
        assert!(rt; is_told(rt.alloc(), code, text), "{code:?}");
    }
}

const READING: DecodeFault = DecodeFault::Malformed(MalformedKind::Shape);

const REFUSED: DecodeFault = DecodeFault::Refused(RefusalCode::IdentifierRejected);

// Packet type 15 is reserved (MQTT 2.2.1).
const CUTTING: CutError = CutError::Decode(DecodeFault::Malformed(MalformedKind::PacketType));

#[test]
fn faults_have_their_texts(rt: HostRuntime) {
    let alloc = rt.alloc();
    assert!(rt; is_told(alloc, &READING, "malformed packet: shape of the packet"));
    assert!(rt; is_told(alloc, &REFUSED, "connection refused: identifier rejected"));
    assert!(rt; is_told(alloc, &EncodeFault::TooLarge, "packet too large"));
    assert!(rt; is_told(alloc, &EncodeFault::Memory, "out of memory"));
    assert!(rt; is_told(alloc, &CUTTING, "malformed packet: reserved packet type"));
    assert!(rt; is_told(alloc, &CutError::Memory, "out of memory"));
    assert!(rt; is_told(alloc, &CutError::Failed, "the stream has failed before"));
}

// A refused CONNECT has no number.
#[test]
fn faults_have_their_numbers(rt: HostRuntime) {
    assert_eq!(rt; (READING.number(), REFUSED.number()), (Some(10), None));
    let written = (EncodeFault::TooLarge.number(), EncodeFault::Memory.number());
    assert_eq!(rt; written, (4, 12));
    let cut = (
        CUTTING.number(),
        CutError::Memory.number(),
        CutError::Failed.number(),
    );
    assert_eq!(rt; cut, (Some(1), Some(12), Some(13)));
}
