// Packets as bytes (MQTT 3).

use anyhow::{Result, bail};
use packet::{Packet, Step, decode, encode};
use std::alloc::Global;

/// CONNECT of client `a`, keep alive 60, CleanSession 0.
pub const CONNECT_A: &[u8] = &[
    0x10, 0x0D, 0x00, 0x04, 0x4D, 0x51, 0x54, 0x54, 0x04, 0x00, 0x00, 0x3C, 0x00, 0x01, 0x61,
];

/// The same of client `b`.
pub const CONNECT_B: &[u8] = &[
    0x10, 0x0D, 0x00, 0x04, 0x4D, 0x51, 0x54, 0x54, 0x04, 0x00, 0x00, 0x3C, 0x00, 0x01, 0x62,
];

/// CONNACK 0 without a session present.
pub const ACCEPTED: &[u8] = &[0x20, 0x02, 0x00, 0x00];

/// CONNACK 0 with a session present.
pub const PRESENT: &[u8] = &[0x20, 0x02, 0x01, 0x00];

/// SUBSCRIBE 1 to `t/#` at QoS 2.
pub const SUBSCRIBE: &[u8] = &[0x82, 0x08, 0x00, 0x01, 0x00, 0x03, 0x74, 0x2F, 0x23, 0x02];

/// SUBACK 1: granted at QoS 2.
pub const SUBACK: &[u8] = &[0x90, 0x03, 0x00, 0x01, 0x02];

/// PUBLISH 1 of `x` to `t/1` at QoS 2.
pub const PUBLISH: &[u8] = &[0x34, 0x08, 0x00, 0x03, 0x74, 0x2F, 0x31, 0x00, 0x01, 0x78];

/// PUBREC 1.
pub const PUBREC: &[u8] = &[0x50, 0x02, 0x00, 0x01];

/// PUBREL 1.
pub const PUBREL: &[u8] = &[0x62, 0x02, 0x00, 0x01];

/// PUBCOMP 1.
pub const PUBCOMP: &[u8] = &[0x70, 0x02, 0x00, 0x01];

/// UNSUBSCRIBE 1 from `t/#`.
pub const UNSUBSCRIBE: &[u8] = &[0xA2, 0x07, 0x00, 0x01, 0x00, 0x03, 0x74, 0x2F, 0x23];

/// UNSUBACK 1.
pub const UNSUBACK: &[u8] = &[0xB0, 0x02, 0x00, 0x01];

/// DISCONNECT.
pub const DISCONNECT: &[u8] = &[0xE0, 0x00];

/// Returns the packet of these bytes.
pub fn packet_of(alloc: Global, bytes: &[u8]) -> Result<Packet> {
    match decode(alloc, bytes)? {
        Step::Whole(packet, _) => Ok(packet),
        Step::More => bail!("less than a packet"),
    }
}

/// Returns true if these are the bytes of a packet.
pub fn is_spelled(alloc: Global, packet: &Packet, bytes: &[u8]) -> bool {
    let mut out = Vec::new(alloc);
    packet.has_no_empty_list() && encode(packet, &mut out).is_ok() && out.as_slice() == bytes
}

/// Returns true if these are the bytes of some packets, one by one.
pub fn are_spelled(alloc: Global, packets: &[Packet], wanted: &[&[u8]]) -> bool {
    packets.len() == wanted.len()
        && packets
            .iter()
            .zip(wanted)
            .all(|(packet, bytes)| is_spelled(alloc, packet, bytes))
}
