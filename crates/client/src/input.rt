// Reading the server's bytes.

ghost use Rattle.std.specs.Prelude.{◌≡◌, ◌<◌, length, true, Ok};
ghost use Rattle.client_base.specs.Calls.{on_first, on_later};
ghost use Rattle.client.specs.Input.{outcome_of_packet, cause_of, OnBytes};
ghost use Rattle.client.specs.Inside.PacketSteps.{Tries, ReadsOne, FeedsAndReads, TakesNext, Feeds, HandlesPackets};
ghost use Rattle.client.specs.Inside.PacketSteps.{is_fatal};

use crate::client_core::ClientCore;
use client_base::{ClientError, Stage};
use cutter::{CutError, Cutter};
use packet::{Connack, DecodeFault, Packet};

impl ClientCore {
    /// Reads the next bytes from the server, in chunks of any size, and handles each whole packet.
    /// `NotActive` if there is no connection, and then nothing changes, or if the server refused
    /// the connection; `Protocol` for a packet that is not allowed there; `Malformed` for bytes
    /// that are no packet; `Memory` if memory runs out for the chunk, which is not empty then, for
    /// the texts or the list of a packet, or for what a packet makes the client write or accept.
    /// After these the client is as after `lost`, and the effects of earlier packets remain.
    /// `SessionLost` if the server lost the session: what was kept is dropped, the connection stays
    /// open, and the bytes after that packet are handled by the next call.
    pub fn on_bytes(&mut self, piece: &[u8]) -> Result<(), ClientError>
        ensures { OnBytes piece.now self.old.state.stage self.old result self.new }
    {
        if self.stage == Stage::Closed {
            return Err(ClientError::NotActive);
        }
        let read = self.feed_and_read(piece);
        if is_fatal(read) {
            self.lost();
        }
        read
    }

    // Appends a chunk and handles each whole packet, up to the first that ends the call.
    fn feed_and_read(&mut self, piece: &[u8]) -> Result<(), ClientError>
        ensures { FeedsAndReads piece.now self.old result self.new }
    {
        match self.feed(piece) {
            Ok(()) => self.read_all(),
            Err(error) => Err(error),
        }
    }

    // Appends a chunk to the unread bytes.
    fn feed(&mut self, piece: &[u8]) -> Result<(), ClientError>
        ensures { Feeds piece.now self.old result self.new }
    {
        match self.cutter.feed(piece) {
            Ok(()) => Ok(()),
            Err(_) => Err(ClientError::Memory),
        }
    }

    // Handles each whole packet, up to the first that ends the call.
    fn read_all(&mut self) -> Result<(), ClientError>
        ensures { HandlesPackets self.old result self.new }
    {
        while self.read_one()? {}
        Ok(())
    }

    // Handles the next whole packet; false if there is none.
    fn read_one(&mut self) -> Result<bool, ClientError>
        ensures one { ReadsOne self.old result self.new }
        ensures shorter { result ≡ Ok true →
            length self.new.unread.bytes < length self.old.unread.bytes }
    {
        match self.next_packet() {
            Ok(Some(packet)) => match self.handle(packet) {
                Ok(()) => Ok(true),
                Err(error) => Err(error),
            },
            Ok(None) => Ok(false),
            Err(error) => Err(error),
        }
    }

    // Takes the next whole packet, if there is one. A stream with a fault is dropped.
    fn next_packet(&mut self) -> Result<Option<Packet>, ClientError>
        ensures { TakesNext self.old result self.new }
    {
        match self.cutter.next() {
            Ok(Some(packet)) => Ok(Some(packet)),
            Ok(None) => Ok(None),
            Err(CutError::Decode(fault)) => {
                self.cutter = Cutter::new(self.alloc);
                Err(cause_of(fault))
            }
            Err(CutError::Memory | CutError::Failed) => Err(ClientError::Memory),
        }
    }

    // Handles a packet from the server, by the stage of the connection.
    fn handle(&mut self, packet: Packet) -> Result<(), ClientError>
        ensures { Tries (outcome_of_packet packet self.old) self.old result self.new }
    {
        match self.stage {
            Stage::Closed => Err(ClientError::NotActive),
            Stage::Opened => self.handle_first(packet),
            Stage::Online => self.handle_later(packet),
        }
    }

    // Handles the first packet of a connection, which must be CONNACK.
    fn handle_first(&mut self, packet: Packet) -> Result<(), ClientError>
        ensures { Tries (on_first packet self.old.state) self.old result self.new }
    {
        match packet {
            Packet::Connack(Connack::Accepted(session_present)) => self.on_connack(session_present),
            Packet::Connack(Connack::Refused(_)) => Err(ClientError::NotActive),
            _ => Err(ClientError::Protocol),
        }
    }

    // Handles a later packet. A second CONNACK and packets that only a client sends are refused.
    fn handle_later(&mut self, packet: Packet) -> Result<(), ClientError>
        ensures { Tries (on_later packet self.old.state) self.old result self.new }
    {
        match packet {
            Packet::Publish(publish) => return self.on_publish(publish),
            Packet::Pubrec(id) => return self.on_pubrec(id),
            Packet::Pubrel(id) => return self.on_pubrel(id),
            Packet::Puback(id) => self.on_puback(id),
            Packet::Pubcomp(id) => self.on_pubcomp(id),
            Packet::Suback(suback) => self.on_suback(suback.id),
            Packet::Unsuback(id) => self.on_unsuback(id),
            Packet::Pingresp => {}
            Packet::Connect(_)
            | Packet::Connack(_)
            | Packet::Subscribe(_)
            | Packet::Unsubscribe(_)
            | Packet::Pingreq
            | Packet::Disconnect => return Err(ClientError::Protocol),
        }
        Ok(())
    }
}

// Returns the error for a fault of `decode`. A CONNECT that a server would refuse with a code is a
// packet that only a client sends.
fn cause_of(fault: DecodeFault) -> ClientError
    ensures { result ≡ cause_of fault }
{
    match fault {
        DecodeFault::Malformed(kind) => ClientError::Malformed(kind),
        DecodeFault::Refused(_) => ClientError::Protocol,
    }
}

// Returns true if the connection is lost after this result of a chunk.
fn is_fatal(read: Result<(), ClientError>) -> bool
    ensures { result ≡ is_fatal read }
{
    match read {
        Ok(()) | Err(ClientError::SessionLost) => false,
        Err(_) => true,
    }
}
