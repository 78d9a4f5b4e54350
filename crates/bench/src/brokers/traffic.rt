// The bytes of clients that publish to each other.

use anyhow::Result;
use packet_base::QoS;
use std::alloc::Global;

/// How many bytes a publication carries.
const PAYLOAD: [u8; 64] = [7; 64];

/// What every CONNECT holds after its length: protocol, level, no flags, no keep alive.
const PROTOCOL: [u8; 10] = [0x00, 0x04, 0x4D, 0x51, 0x54, 0x54, 0x04, 0x00, 0x00, 0x00];

/// Bytes that come on a port, whose client exchanges publications with that of another port.
#[derive(Drop)]
pub struct Part {
    /// The port on which they come.
    pub port: u64,
    /// The port of the other client.
    pub other: u64,
    /// The bytes.
    pub bytes: Vec<u8>,
}

/// What all clients send in one round, handshakes included.
#[derive(Drop)]
pub struct Traffic {
    /// The bytes of each port, in the order in which they come.
    pub parts: Vec<Part>,
    publications: u32,
}

impl Traffic {
    /// Returns the traffic in which every second one of this many clients gets a piece of this many
    /// publications.
    pub fn new(alloc: Global, connections: u64, qos: QoS, packets: u8) -> Result<Traffic> {
        let mut parts = Vec::new(alloc);
        put_rounds(alloc, connections / 2, qos, packets, &mut parts)?;
        let pairs = u32::try_from(connections / 2).unwrap_or(u32::MAX);
        let publications = pairs.saturating_mul(u32::from(packets));
        Ok(Traffic {
            parts,
            publications,
        })
    }

    /// Returns how many publications a round has.
    pub fn publications(&self) -> u32 {
        self.publications
    }
}

// Adds the parts of a round, pair by pair. They are lent, so that no exit from the loop has to drop
// them.
fn put_rounds(
    alloc: Global,
    pairs: u64,
    qos: QoS,
    packets: u8,
    parts: &mut Vec<Part>,
) -> Result<()> {
    for pair in 0..pairs {
        put_round(alloc, pair.saturating_mul(2), qos, packets, parts)?;
    }
    Ok(())
}

/// How many publications of a session a broker sends before it waits for an answer.
const WINDOW: u8 = 64;

// Returns what a subscriber answers to a PUBLISH in turn, and what its publisher says after its
// own: the first bytes (MQTT 4.3).
fn answers(qos: QoS) -> (&'static [u8], &'static [u8]) {
    match qos {
        QoS::AtMostOnce => (&[], &[]),
        QoS::AtLeastOnce => (&[0x40], &[]),
        QoS::ExactlyOnce => (&[0x50, 0x70], &[0x62]),
    }
}

/// Returns how many packets come in for a publication, from its publisher and its subscriber.
pub fn packets_of(qos: QoS) -> u64 {
    let (subscriber, publisher) = answers(qos);
    let answers = subscriber.len().saturating_add(publisher.len());
    (answers as u64).saturating_add(1)
}

// Adds what a publisher and its subscriber, whose port follows, send for one piece of publications.
fn put_round(alloc: Global, port: u64, qos: QoS, packets: u8, parts: &mut Vec<Part>) -> Result<()> {
    let other = port.saturating_add(1);
    let bytes = publishes(alloc, port, qos, packets)?;
    parts.push(Part { port, other, bytes })?;
    let (subscriber, publisher) = answers(qos);
    say(alloc, (port, other), publisher, packets, packets, parts)?;
    say(alloc, (other, port), subscriber, packets, WINDOW, parts)
}

fn publishes(alloc: Global, port: u64, qos: QoS, packets: u8) -> Result<Vec<u8>> {
    let mut bytes = Vec::new(alloc);
    put_publishes(alloc, port, qos, packets, &mut bytes)?;
    Ok(bytes)
}

fn put_publishes(
    alloc: Global,
    port: u64,
    qos: QoS,
    packets: u8,
    bytes: &mut Vec<u8>,
) -> Result<()> {
    for id in 1..=packets {
        publish(alloc, port, qos, id, bytes)?;
    }
    Ok(())
}

// Adds packets with an identifier and no more, in pieces: this many times each of these kinds in
// turn, with identifiers that begin again at 1 after the greatest.
fn say(
    alloc: Global,
    ports: (u64, u64),
    kinds: &[u8],
    packets: u8,
    greatest: u8,
    parts: &mut Vec<Part>,
) -> Result<()> {
    let mut bytes = Vec::new(alloc);
    put_answers(kinds, packets, greatest, &mut bytes)?;
    put_pieces(alloc, ports, packets, bytes.as_slice(), parts)
}

// Adds a part for each piece of these bytes. They are lent, so that no exit from the loop has to
// drop them.
fn put_pieces(
    alloc: Global,
    ports: (u64, u64),
    packets: u8,
    bytes: &[u8],
    parts: &mut Vec<Part>,
) -> Result<()> {
    let piece = usize::from(packets).saturating_mul(4).max(1);
    for bytes in bytes.chunks(piece) {
        parts.push(part_of(alloc, ports, bytes)?)?;
    }
    Ok(())
}

fn put_answers(kinds: &[u8], packets: u8, greatest: u8, bytes: &mut Vec<u8>) -> Result<()> {
    for at in 0..packets {
        let id = at.checked_rem(greatest).unwrap_or(0).saturating_add(1);
        for first in kinds {
            bytes.extend_from_slice(&[*first, 0x02, 0x00, id])?;
        }
    }
    Ok(())
}

fn part_of(alloc: Global, ports: (u64, u64), bytes: &[u8]) -> Result<Part> {
    let (port, other) = ports;
    let bytes = Vec::from_slice(alloc, bytes)?;
    Ok(Part { port, other, bytes })
}

// Appends a text of fewer than 100 bytes, after its length.
fn put_text(text: &str, bytes: &mut Vec<u8>) -> Result<()> {
    bytes.push(0)?;
    bytes.push(u8::try_from(text.len())?)?;
    bytes.extend_from_slice(text.as_bytes())?;
    Ok(())
}

// Appends the topic on which the client by a port publishes.
fn put_topic(alloc: Global, port: u64, bytes: &mut Vec<u8>) -> Result<()> {
    let topic = format!(in alloc; "plant/{port}/pump/speed")?;
    put_text(topic.as_str(), bytes)
}

// Appends a packet of fewer than 128 bytes.
fn put_packet(first: u8, body: &[u8], bytes: &mut Vec<u8>) -> Result<()> {
    bytes.push(first)?;
    bytes.push(u8::try_from(body.len())?)?;
    bytes.extend_from_slice(body)?;
    Ok(())
}

fn packet_of(alloc: Global, first: u8, body: &[u8]) -> Result<Vec<u8>> {
    let mut bytes = Vec::new(alloc);
    put_packet(first, body, &mut bytes)?;
    Ok(bytes)
}

fn publish(alloc: Global, port: u64, qos: QoS, id: u8, bytes: &mut Vec<u8>) -> Result<()> {
    let mut body = Vec::new(alloc);
    put_body(alloc, port, qos, id, &mut body)?;
    put_packet(0x30 | (qos.number() << 1), body.as_slice(), bytes)
}

fn put_body(alloc: Global, port: u64, qos: QoS, id: u8, body: &mut Vec<u8>) -> Result<()> {
    put_topic(alloc, port, body)?;
    if qos != QoS::AtMostOnce {
        body.extend_from_slice(&[0x00, id])?;
    }
    body.extend_from_slice(&PAYLOAD)?;
    Ok(())
}

/// Returns the CONNECT of the client by a port.
pub fn connect(alloc: Global, port: u64) -> Result<Part> {
    let mut body = Vec::new(alloc);
    put_client(alloc, port, &mut body)?;
    Ok(Part {
        port,
        other: port,
        bytes: packet_of(alloc, 0x10, body.as_slice())?,
    })
}

fn put_client(alloc: Global, port: u64, body: &mut Vec<u8>) -> Result<()> {
    body.extend_from_slice(&PROTOCOL)?;
    let client = format!(in alloc; "client-{port}")?;
    put_text(client.as_str(), body)
}

/// Returns a SUBSCRIBE at QoS 2 to what the client by the port before publishes.
pub fn subscribe(alloc: Global, port: u64) -> Result<Part> {
    let other = port.saturating_sub(1);
    let mut body = Vec::new(alloc);
    put_filter(alloc, other, &mut body)?;
    Ok(Part {
        port,
        other,
        bytes: packet_of(alloc, 0x82, body.as_slice())?,
    })
}

fn put_filter(alloc: Global, port: u64, body: &mut Vec<u8>) -> Result<()> {
    body.extend_from_slice(&[0x00, 0x01])?;
    put_topic(alloc, port, body)?;
    body.push(2)?;
    Ok(())
}
