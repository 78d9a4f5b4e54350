// The commands of the broker's replicated log, and their outputs.

ghost use Rattle.std.specs.Prelude.{◌≡◌, IfOk, OnErr, true};
ghost use Rattle.broker_spec.specs.Commands.{needs_to_copy};
ghost use Rattle.broker_spec.specs.Logged.{IsBrokerCommand};

use crate::connection_name::ConnectionName;
use crate::sized_packet::SizedPacket;
use packet::Packet;
use packet_base::ClientId;
use std::alloc::AllocError;

/// A command of the broker's log.
#[derive(Debug, Drop)]
pub enum Command {
    /// A client opened a connection by a CONNECT; the flag is CleanSession (MQTT 3.1.2.4).
    Connect(ConnectionName, ClientId, bool),
    /// A packet arrived on a connection, after the CONNECT that is its first packet.
    Packet(ConnectionName, SizedPacket),
    /// A connection was lost: closed by the client without a DISCONNECT, or by its node.
    Lost(ConnectionName),
    /// A new ballot begins; the connections of earlier ballots have ended.
    Start(u64),
    /// An administrator ends this client's session, if it has one, and its connection.
    Expel(ClientId),
}

impl Command {
    /// Returns a command equal to this one. The only error is that memory ran out, which a Lost and
    /// a Start do not need.
    pub fn copy(&self) -> Result<Command, AllocError>
        ensures same { IfOk result (λ copy. copy ≡ self.now) }
        ensures memory { OnErr result (needs_to_copy self.now ≡ true) }
    {
        Ok(match self {
            Command::Connect(connection, client, clean) => {
                Command::Connect(*connection, client.clone()?, *clean)
            }
            Command::Packet(connection, packet) => Command::Packet(*connection, packet.copy()?),
            Command::Lost(connection) => Command::Lost(*connection),
            Command::Start(ballot) => Command::Start(*ballot),
            Command::Expel(client) => Command::Expel(client.clone()?),
        })
    }

    /// Ensures, for a proof, that the parts of this command are in their ranges; it does nothing
    /// else.
    pub fn ensure_ranges(&self)
        ensures { IsBrokerCommand self.now }
    {
        match self {
            Command::Connect(connection, client, _) => {
                let _ballot = connection.ballot();
                let _text = client.as_str();
            }
            Command::Packet(connection, packet) => {
                let _ballot = connection.ballot();
                packet.packet().ensure_ranges();
            }
            Command::Lost(connection) => {
                let _ballot = connection.ballot();
            }
            Command::Start(_) => {}
            Command::Expel(client) => {
                let _text = client.as_str();
            }
        }
    }
}

/// An output of a command.
#[derive(Debug, PartialEq, Eq, Drop)]
pub enum Output {
    /// Send this packet on this connection.
    Send(ConnectionName, Packet),
    /// Close this connection after what was sent on it before.
    Close(ConnectionName),
}
