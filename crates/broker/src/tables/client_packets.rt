// Dispatching a packet to the client on whose connection it came.

ghost use Rattle.std.specs.Prelude.{◌≡◌, Some, IfOk, OnErr, OnOk, is_some, true, false};
ghost use Rattle.broker_spec.specs.declared.command.Command.TheVariants as commands;
ghost use Rattle.broker_base.specs.rows.Owners.{owners_in};
ghost use Rattle.broker.specs.one_session.OneSession.{is_handshake};
ghost use Rattle.broker.specs.tables.Inside.{ends_connection};
ghost use Rattle.broker.specs.tables.Tables.{DoesCommand, IsConsistent, IsTied};

use crate::one_session::is_handshake;
use crate::tables::tables::Tables;
use broker_spec::{ConnectionName, Output};
use machine::Halted;
use packet::Packet;
use packet_base::ClientId;
use std::alloc::AllocError;

impl Tables {
    /// Handles a packet that arrived on a connection. If that is no client's current connection,
    /// nothing happens.
    pub(crate) fn handle_packet(
        &mut self,
        connection: ConnectionName,
        packet: &Packet,
        out: &mut Vec<Output>,
    ) -> Result<(), Halted>
        requires { IsConsistent self.old }
        ensures step { OnOk result
            (DoesCommand self.old self.new out.old.items out.new.items
            (commands.Packet connection packet.now)) }
        ensures tied { OnOk result (IsTied self.new) }
        ensures memory { OnErr result
            (is_some (owners_in self.old.sessions.entries connection) ≡ true) }
        ensures silent { is_some (owners_in self.old.sessions.entries connection) ≡ false →
            out.new.items ≡ out.old.items }
    {
        match self.owner_of(connection)? {
            Some(client) => self.serve(connection, &client, packet, out)?,
            None => {}
        }
        Ok(())
    }

    // Handles a packet of the client that is served on this connection.
    fn serve(
        &mut self,
        connection: ConnectionName,
        client: &ClientId,
        packet: &Packet,
        out: &mut Vec<Output>,
    ) -> Result<(), Halted>
        requires consistent { IsConsistent self.old }
        requires served { owners_in self.old.sessions.entries connection ≡ Some client.now }
        ensures step { OnOk result
            (DoesCommand self.old self.new out.old.items out.new.items
            (commands.Packet connection packet.now)) }
        ensures tied { OnOk result (IsTied self.new) }
    {
        if is_handshake(packet) {
            return self.handshake(connection, client, packet, out);
        }
        if ends_connection(packet) {
            self.close(connection, out)?;
            return Ok(());
        }
        match packet {
            Packet::Publish(publish) => self.publish(connection, client, publish, out),
            Packet::Subscribe(subscribe) => self.subscribe(connection, client, subscribe, out),
            Packet::Unsubscribe(unsubscribe) => {
                self.unsubscribe(connection, client, unsubscribe, out)
            }
            // A PINGREQ: the proof shows that no other is left, and would fail for a new one.
            _ => {
                out.push(Output::Send(connection, Packet::Pingresp))?;
                Ok(())
            }
        }
    }

    // Returns the client that is served on this connection, if any.
    fn owner_of(&self, connection: ConnectionName) -> Result<Option<ClientId>, AllocError>
        requires { IsTied self.now }
        ensures found { IfOk result (λ client.
            client ≡ owners_in self.now.sessions.entries connection) }
        ensures memory { OnErr result
            (is_some (owners_in self.now.sessions.entries connection) ≡ true) }
    {
        match self.owners.get(&connection) {
            Some(client) => Ok(Some(client.clone()?)),
            None => Ok(None),
        }
    }
}

// Returns true if a packet ends its connection: DISCONNECT, and what a client may not send
// (MQTT-3.1.0-2, MQTT 3.14.4, 4.8).
fn ends_connection(packet: &Packet) -> bool
    ensures { result ≡ ends_connection packet.now }
{
    matches!(
        packet,
        Packet::Connect(_)
            | Packet::Connack(_)
            | Packet::Suback(_)
            | Packet::Unsuback(_)
            | Packet::Pingresp
            | Packet::Disconnect
    )
}
