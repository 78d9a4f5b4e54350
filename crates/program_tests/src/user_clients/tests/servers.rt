// Servers in memory, which send what a test says, and the packets that go over them.

use std::cell::RefCell;
use std::io;
use std::io::{ErrorKind, Read, Write};
use user_client::{Servers, UserClientError};

/// The pieces that a server sends on a connection, one a read. Then it closes.
pub type Pieces = &'static [&'static [u8]];

/// Servers, and all that was written to them.
#[derive(Drop)]
pub struct Scripted<'a> {
    connections: &'a [Pieces],
    // How many bytes the first connection takes. Then each write fails.
    room: usize,
    opened: usize,
    /// How often the client waited.
    pub pauses: u32,
    log: &'a RefCell<Vec<u8>>,
}

/// A connection to one of them.
#[derive(Drop)]
pub struct Pipe<'a> {
    pieces: Pieces,
    sent: usize,
    room: usize,
    log: &'a RefCell<Vec<u8>>,
}

impl<'a> Scripted<'a> {
    /// Returns servers that send this on one connection after another. The first connection takes
    /// no more than `room` bytes.
    pub fn new(connections: &'a [Pieces], room: usize, log: &'a RefCell<Vec<u8>>) -> Scripted<'a> {
        Scripted {
            connections,
            room,
            opened: 0,
            pauses: 0,
            log,
        }
    }
}

impl<'a> Servers for Scripted<'a> {
    ghost opens = { λ _ _. Unit {0} };

    ghost pauses = { λ _ _. Unit {0} };

    type Stream = Pipe<'a>;

    fn open(&mut self) -> Option<Pipe<'a>> {
        let pieces = *self.connections.get(self.opened)?;
        let room = if self.opened == 0 {
            self.room
        } else {
            usize::MAX
        };
        self.opened = self.opened.saturating_add(1);
        Some(Pipe {
            pieces,
            sent: 0,
            room,
            log: self.log,
        })
    }

    fn pause(&mut self) {
        self.pauses = self.pauses.saturating_add(1);
    }
}

impl<'a> Read for Pipe<'a> {
    fn read(&mut self, buf: &mut [u8]) -> io::Result<usize> {
        let Some(piece) = self.pieces.get(self.sent) else {
            return Ok(0);
        };
        self.sent = self.sent.saturating_add(1);
        let count = piece.len().min(buf.len());
        buf[..count].copy_from_slice(&piece[..count]);
        Ok(count)
    }
}

impl<'a> Write for Pipe<'a> {
    fn write(&mut self, buf: &[u8]) -> io::Result<usize> {
        if buf.len() > self.room {
            return Err(io::Error::from(ErrorKind::BrokenPipe));
        }
        self.room = self.room.saturating_sub(buf.len());
        self.log.try_borrow_mut()?.extend_from_slice(buf)?;
        Ok(buf.len())
    }

    fn flush(&mut self) -> io::Result<()> {
        Ok(())
    }
}

/// CONNACK 0 without a session present.
pub const CONNACK: &[u8] = &[0x20, 2, 0, 0];

/// CONNACK 0 with a session present.
pub const SESSION_PRESENT: &[u8] = &[0x20, 2, 1, 0];

/// CONNACK 1 (MQTT 3.2.2.3).
pub const WRONG_PROTOCOL: &[u8] = &[0x20, 2, 0, 1];

/// CONNACK 2.
pub const WRONG_IDENTIFIER: &[u8] = &[0x20, 2, 0, 2];

/// CONNACK 3.
pub const UNAVAILABLE: &[u8] = &[0x20, 2, 0, 3];

/// CONNACK 4.
pub const WRONG_PASSWORD: &[u8] = &[0x20, 2, 0, 4];

/// CONNACK 5.
pub const NOT_AUTHORIZED: &[u8] = &[0x20, 2, 0, 5];

/// PUBREC of Packet Identifier 1, as all that follow.
pub const PUBREC: &[u8] = &[0x50, 2, 0, 1];

/// PUBCOMP of it.
pub const PUBCOMP: &[u8] = &[0x70, 2, 0, 1];

/// PUBACK of it.
pub const PUBACK: &[u8] = &[0x40, 2, 0, 1];

/// PUBACK, and a byte with which no packet begins.
pub const PUBACK_AND_NONSENSE: &[u8] = &[0x40, 2, 0, 1, 0, 0];

/// SUBACK that grants QoS 2.
pub const SUBACK: &[u8] = &[0x90, 3, 0, 1, 2];

/// SUBACK that refuses (MQTT 3.9.3).
pub const SUBACK_FAILURE: &[u8] = &[0x90, 3, 0, 1, 0x80];

/// CONNECT of client `a` with keep alive 0.
pub const CONNECT: &[u8] = &[
    0x10, 13, 0, 4, b'M', b'Q', b'T', b'T', 4, 0, 0, 0, 0, 1, b'a',
];

/// PUBLISH of `x` on `t/1` at QoS 2.
pub const PUBLISH: &[u8] = &[0x34, 8, 0, 3, b't', b'/', b'1', 0, 1, b'x'];

/// PUBLISH of `x` on `t/1` at QoS 2 with DUP 1.
pub const PUBLISH_AGAIN: &[u8] = &[0x3C, 8, 0, 3, b't', b'/', b'1', 0, 1, b'x'];

/// PUBLISH of `x` on `t/1` at QoS 1.
pub const PUBLISH_ANSWERED: &[u8] = &[0x32, 8, 0, 3, b't', b'/', b'1', 0, 1, b'x'];

/// PUBLISH of `x` on `t/1` at QoS 0.
pub const PUBLISH_ONCE: &[u8] = &[0x30, 6, 0, 3, b't', b'/', b'1', b'x'];

/// PUBREL of Packet Identifier 1.
pub const PUBREL: &[u8] = &[0x62, 2, 0, 1];

/// DISCONNECT.
pub const DISCONNECT: &[u8] = &[0xE0, 0];

/// SUBSCRIBE to `t/#` at QoS 2.
pub const SUBSCRIBE: &[u8] = &[0x82, 8, 0, 1, 0, 3, b't', b'/', b'#', 2];

/// What differs from the wanted run.
#[derive(Clone, Copy, Debug, PartialEq, Eq)]
pub enum Fault {
    /// How it ended.
    End(Result<(), UserClientError>),
    /// How often it waited.
    Pauses(u32),
    /// The first packet that was not written, or, by their number, the bytes after all.
    Packet(usize),
    /// What was printed, which had this many bytes.
    Printed(usize),
}

/// Returns the first of these packets that is not written in these bytes, one after another.
pub fn first_fault_of_packets(bytes: &[u8], packets: &[&[u8]]) -> Option<Fault> {
    let mut rest = bytes;
    for (number, packet) in packets.iter().enumerate() {
        match rest.strip_prefix(*packet) {
            Some(after) => rest = after,
            None => return Some(Fault::Packet(number)),
        }
    }
    if rest.is_empty() {
        None
    } else {
        Some(Fault::Packet(packets.len()))
    }
}
