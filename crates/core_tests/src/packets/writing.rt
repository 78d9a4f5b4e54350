// Packets that are written after bytes that are there before.

use packet::*;
use std::alloc::Global;
use topics::TopicName;

// Writes the packet, or returns the number of the refusal, which is 0 for an empty list.
fn write(packet: &Packet, out: &mut Vec<u8>) -> Option<u8> {
    if !packet.has_no_empty_list() {
        return Some(0);
    }
    match encode(packet, out) {
        Ok(()) => None,
        Err(fault) => Some(fault.number()),
    }
}

// Returns a PUBLISH at QoS 0 on topic `t` with this payload, if there is memory.
fn publish(alloc: Global, payload: &[u8]) -> Option<Packet> {
    let topic = TopicName::new(alloc, "t").ok()?;
    let payload = Payload::new(alloc, payload).ok()?;
    Some(Packet::Publish(Publish {
        topic,
        delivery: Delivery::AtMostOnce,
        retain: false,
        payload,
    }))
}

// Returns a PUBLISH with a payload of as many sevens.
fn large(alloc: Global, count: usize) -> Option<Packet> {
    let payload = Vec::from_elem(alloc, 7u8, count).ok()?;
    publish(alloc, payload.as_slice())
}

// The number of the refusal, if there is one, and how many bytes there are then, of which the first
// two are 1 and 2; none if there was no memory for them.
type Came = Option<(Option<u8>, usize)>;

// Writes a packet after the bytes 1 and 2, and returns what came.
fn written_after_two(alloc: Global, packet: &Packet) -> Came {
    let mut out = Vec::new(alloc);
    out.extend_from_slice(&[1, 2]).ok()?;
    let refusal = write(packet, &mut out);
    match out.as_slice() {
        [1, 2, after @ ..] => Some((refusal, after.len() + 2)),
        _ => None,
    }
}

// Returns what came of a PUBLISH with a payload of as many sevens.
fn came_of_large(alloc: Global, count: usize) -> Came {
    match &large(alloc, count) {
        Some(packet) => written_after_two(alloc, packet),
        None => None,
    }
}

// 1,048,569 bytes of payload, the topic `t` and its length are 1,048,572 bytes, which is the limit.
// The first byte and the length of a packet are four more.
#[test]
fn what_is_there_before_stays(rt: HostRuntime) {
    assert_eq!(rt;
        came_of_large(rt.alloc(), 1_048_569),
        Some((None, 1_048_578))
    );
    assert_eq!(rt; came_of_large(rt.alloc(), 1_048_570), Some((Some(4), 2)));
}
