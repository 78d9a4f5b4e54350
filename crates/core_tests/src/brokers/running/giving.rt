// What comes to a broker, and what its bytes must be.

use broker::BrokerMachine;
use broker_spec::{Command, ConnectionName, Output, SizedPacket};
use machine::Machine;
use packet::{Packet, Step, decode};
use packet_base::ClientId;
use std::alloc::Global;

/// What comes to a broker. Connections are those of ballot 1, by their number.
#[derive(Clone, Copy)]
pub(crate) enum Event<'a> {
    /// A client opens a connection; the flag is CleanSession.
    Connect(u64, &'a str, bool),
    /// The bytes of a packet come on a connection.
    Bytes(u64, &'a [u8]),
    /// A connection is lost.
    Lost(u64),
    /// A ballot begins.
    Start(u64),
}

/// Appends the answers to an event, and says whether memory was found.
pub(crate) fn is_given(
    alloc: Global,
    broker: &mut BrokerMachine,
    event: Event<'_>,
    given: &mut Vec<Output>,
) -> bool {
    match &command_of(alloc, event) {
        Some(command) => broker.apply(command, given).is_ok(),
        None => false,
    }
}

// Returns the command of an event.
fn command_of(alloc: Global, event: Event<'_>) -> Option<Command> {
    match event {
        Event::Connect(count, client, clean) => {
            let name = ConnectionName::new(1, count)?;
            let client = ClientId::new(alloc, client).ok()?;
            Some(Command::Connect(name, client, clean))
        }
        Event::Bytes(count, bytes) => {
            let name = ConnectionName::new(1, count)?;
            let packet = packet_of(alloc, bytes)?;
            Some(Command::Packet(name, packet))
        }
        Event::Lost(count) => Some(Command::Lost(ConnectionName::new(1, count)?)),
        Event::Start(ballot) => Some(Command::Start(ballot)),
    }
}

fn packet_of(alloc: Global, bytes: &[u8]) -> Option<SizedPacket> {
    match decode(alloc, bytes) {
        Ok(Step::Whole(packet, _)) => sized(packet),
        Ok(Step::More) => None,
        Err(_) => None,
    }
}

fn sized(packet: Packet) -> Option<SizedPacket> {
    if !packet.has_no_empty_list() {
        return None;
    }
    SizedPacket::new(packet).ok()
}

/// Appends the bytes of a broker, and says whether memory was found.
pub(crate) fn is_frozen(broker: &BrokerMachine, bytes: &mut Vec<u8>) -> bool {
    broker.freeze(bytes).is_ok()
}

/// Returns true if a broker is frozen to these bytes.
pub(crate) fn has_bytes(alloc: Global, broker: &BrokerMachine, wanted: &[u8]) -> bool {
    let mut bytes = Vec::new(alloc);
    is_frozen(broker, &mut bytes) && bytes.as_slice() == wanted
}
