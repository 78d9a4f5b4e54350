// Clients over real sockets: their bytes, and those that MQTT 3.1.1 answers.

use crate::clients::came::{Came, StreamState};
use crate::clients::hearing::{hear, limit_reads, send};
use std::net::{Net, TcpStream};
use streams::Listener;

// SUBSCRIBE to `t/#` at QoS 2.
const SUBSCRIBE: [u8; 10] = [0x82, 8, 0, 1, 0, 3, 0x74, 0x2F, 0x23, 2];

// The SUBACK of `SUBSCRIBE`.
const SUBSCRIBED: [u8; 5] = [0x90, 3, 0, 1, 2];

// Returns a CONNECT of the client of this letter with keep alive 60; its session is kept.
fn connect(letter: u8) -> [u8; 15] {
    [
        0x10, 13, 0, 4, 0x4D, 0x51, 0x54, 0x54, 4, 0, 0, 60, 0, 1, letter,
    ]
}

/// Returns a PUBLISH on `t/1` at QoS 2, with this first byte, identifier and payload.
pub fn publish(first: u8, id: u8, payload: u8) -> [u8; 10] {
    [first, 8, 0, 3, 0x74, 0x2F, 0x31, 0, id, payload]
}

/// Opens a stream to a listener. A read of it ends after ten seconds.
pub fn open<R>(rt: &R, listener: Option<&Listener>) -> Result<TcpStream, Came>
where
    R: Net<Stream = TcpStream>,
{
    let stream = opened(rt, listener).ok_or(Came::nothing(StreamState::Unopened))?;
    limit_reads(&stream, 10_000)?;
    Ok(stream)
}

// Returns a stream to a listener.
fn opened<R>(rt: &R, listener: Option<&Listener>) -> Option<TcpStream>
where
    R: Net<Stream = TcpStream>,
{
    TcpStream::connect(rt, listener?.address().ok()?).ok()
}

/// Opens a stream of the client of this letter. There is none unless its CONNECT is accepted and
/// the CONNACK says this of its session.
pub fn join<R>(
    rt: &R,
    listener: Option<&Listener>,
    letter: u8,
    has_session: bool,
) -> Result<TcpStream, Came>
where
    R: Net<Stream = TcpStream>,
{
    let mut stream = open(rt, listener)?;
    let accepted = [0x20, 2, u8::from(has_session), 0];
    exchange(&mut stream, &connect(letter), &accepted)?;
    Ok(stream)
}

/// The streams of a subscriber, client `h`, and a publisher, client `s`.
#[derive(Drop)]
pub struct Pair {
    /// The stream of the subscriber.
    pub sink: TcpStream,
    /// The stream of the publisher.
    pub speaker: TcpStream,
}

impl Pair {
    /// Opens both, as `join` does.
    pub fn join<R>(rt: &R, listener: Option<&Listener>, has_session: bool) -> Result<Pair, Came>
    where
        R: Net<Stream = TcpStream>,
    {
        let sink = join(rt, listener, b'h', has_session)?;
        let speaker = join(rt, listener, b's', has_session)?;
        Ok(Pair { sink, speaker })
    }

    /// Subscribes to `t/#` at QoS 2.
    pub fn subscribe(&mut self) -> Result<(), Came> {
        exchange(&mut self.sink, &SUBSCRIBE, &SUBSCRIBED)
    }
}

// Sends these bytes, and awaits those, of which there are at most 24.
fn exchange(stream: &mut TcpStream, sent: &[u8], wanted: &[u8]) -> Result<(), Came> {
    send(stream, sent)?;
    hear(stream, wanted)
}

/// Sends a PINGREQ, and awaits its PINGRESP.
pub(crate) fn ping(stream: &mut TcpStream) -> Result<(), Came> {
    exchange(stream, &[0xC0, 0], &[0xD0, 0])
}
