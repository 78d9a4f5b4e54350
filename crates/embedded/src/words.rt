// Topic Names and Topic Filters, packets, and the packets of a stream of bytes.

use crate::bytes::{
    ACCEPTED, CONNECT_A, DISCONNECT, PUBCOMP, PUBLISH, PUBREC, PUBREL, SUBACK, SUBSCRIBE, UNSUBACK,
    UNSUBSCRIBE, is_spelled,
};
use crate::names::Names;
use anyhow::Result;
use cutter::{CutError, Cutter};
use packet::{ClientId, DecodeFault, EncodeFault, Packet, PacketId, QoS, Step, decode};
use std::alloc::Global;
use topics::{Filter, MalformedKind, TopicName, matches};

/// A packet of each type (MQTT 2.2.1).
const PACKETS: &[(&str, &[u8])] = &[
    ("CONNECT", CONNECT_A),
    ("CONNACK", ACCEPTED),
    ("PUBLISH", PUBLISH),
    ("PUBACK", &[0x40, 0x02, 0x00, 0x01]),
    ("PUBREC", PUBREC),
    ("PUBREL", PUBREL),
    ("PUBCOMP", PUBCOMP),
    ("SUBSCRIBE", SUBSCRIBE),
    ("SUBACK", SUBACK),
    ("UNSUBSCRIBE", UNSUBSCRIBE),
    ("UNSUBACK", UNSUBACK),
    ("PINGREQ", &[0xC0, 0x00]),
    ("PINGRESP", &[0xD0, 0x00]),
    ("DISCONNECT", DISCONNECT),
];

/// A packet type that is reserved (MQTT 2.2.1).
const RESERVED: &[u8] = &[0x00, 0x00];

/// CONNECT with protocol level 3, which is answered by CONNACK 1 (MQTT 3.1.2.2).
const LEVEL_3: &[u8] = &[
    0x10, 0x0D, 0x00, 0x04, 0x4D, 0x51, 0x54, 0x54, 0x03, 0x00, 0x00, 0x3C, 0x00, 0x01, 0x61,
];

/// Uses `topics`, `packet` and `cutter`.
pub fn run<R: Print>(rt: &R, alloc: Global) -> Result<()> {
    use_topics(alloc)?.print(rt)?;
    use_packet(alloc)?.print(rt)?;
    use_cutter(alloc).print(rt)
}

// Makes a topic and a filter, which match (MQTT 4.7.1.2).
fn use_topics(alloc: Global) -> Result<Names> {
    let mut names = Names::of("topics");
    let filter = Filter::new(alloc, "t/#")?;
    let topic = TopicName::new(alloc, "t")?;
    names.uses("TopicName", topic.as_str() == "t");
    names.uses("Filter", filter.as_str() == "t/#");
    names.uses("matches", matches(&filter, &topic));
    Ok(names)
}

// Makes parts of packets, reads packets and writes them.
fn use_packet(alloc: Global) -> Result<Names> {
    let mut names = Names::of("packet");
    names.uses("QoS", QoS::ExactlyOnce.number() == 2);
    names.uses("ClientId", ClientId::new(alloc, "a")?.as_str() == "a");
    names.uses("PacketId", PacketId::new(1).number() == 1);
    let are_right = PACKETS
        .iter()
        .all(|(name, bytes)| is_read_and_written(alloc, name, bytes));
    names.uses("Packet", are_right);
    names.uses("encode", are_right);
    names.uses("decode", refusal_of(alloc, RESERVED) == Some(1));
    names.uses("Step", refusal_of(alloc, &[0x10]).is_none());
    names.uses("DecodeFault", refusal_of(alloc, LEVEL_3) == Some(101));
    names.uses("EncodeFault", EncodeFault::TooLarge.number() == 4);
    Ok(names)
}

// Returns true if these bytes are a packet of this name, and are written for it.
fn is_read_and_written(alloc: Global, wanted: &str, bytes: &[u8]) -> bool {
    match decode(alloc, bytes) {
        Ok(Step::Whole(packet, length)) => {
            let is_right = name(&packet) == wanted
                && length == bytes.len()
                && is_spelled(alloc, &packet, bytes);
            drop(packet);
            is_right
        }
        Ok(Step::More) | Err(_) => false,
    }
}

// Returns the name of a packet, as MQTT has it.
fn name(packet: &Packet) -> &'static str {
    match packet {
        Packet::Connect(_) => "CONNECT",
        Packet::Connack(_) => "CONNACK",
        Packet::Publish(_) => "PUBLISH",
        Packet::Puback(_) => "PUBACK",
        Packet::Pubrec(_) => "PUBREC",
        Packet::Pubrel(_) => "PUBREL",
        Packet::Pubcomp(_) => "PUBCOMP",
        Packet::Subscribe(_) => "SUBSCRIBE",
        Packet::Suback(_) => "SUBACK",
        Packet::Unsubscribe(_) => "UNSUBSCRIBE",
        Packet::Unsuback(_) => "UNSUBACK",
        Packet::Pingreq => "PINGREQ",
        Packet::Pingresp => "PINGRESP",
        Packet::Disconnect => "DISCONNECT",
    }
}

// Returns the number of the refusal of these bytes, or 100 and the code of the CONNACK that answers
// them; `None` for a packet, and for less than one.
fn refusal_of(alloc: Global, bytes: &[u8]) -> Option<u8> {
    match decode(alloc, bytes) {
        Ok(step) => {
            drop(step);
            None
        }
        Err(DecodeFault::Malformed(kind)) => Some(kind.number()),
        Err(DecodeFault::Refused(code)) => Some(code.number().saturating_add(100)),
    }
}

// Makes a cutter, and lends it, so that it is dropped in one place.
fn use_cutter(alloc: Global) -> Names {
    let mut names = Names::of("cutter");
    let mut cutter = Cutter::new(alloc);
    names.uses("Cutter", cutter.len() == 0);
    cut(&mut cutter, &mut names);
    drop(cutter);
    names
}

// Reads PINGREQ, which comes in two pieces, and then a byte that begins no packet.
fn cut(cutter: &mut Cutter, names: &mut Names) {
    let is_fed = cutter.feed(&[0xC0]).is_ok() && gives_pingreq(cutter) == Ok(false);
    names.uses("Cutter::feed", is_fed && cutter.feed(&[0x00, 0x00]).is_ok());
    names.uses("Cutter::next", gives_pingreq(cutter) == Ok(true));
    let fault = CutError::Decode(DecodeFault::Malformed(MalformedKind::PacketType));
    let is_refused = gives_pingreq(cutter) == Err(fault);
    let is_right = is_refused && gives_pingreq(cutter) == Err(CutError::Failed);
    names.uses("CutError", is_right);
}

// Returns true if the next packet is PINGREQ, and false if it is another one or not whole yet.
fn gives_pingreq(cutter: &mut Cutter) -> Result<bool, CutError> {
    let next = cutter.next();
    let given = match &next {
        Ok(packet) => Ok(matches!(packet, Some(Packet::Pingreq))),
        Err(error) => Err(*error),
    };
    drop(next);
    given
}
