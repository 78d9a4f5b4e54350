// PUBACK, PUBREC, PUBREL and PUBCOMP (MQTT 3.4 to 3.7). Each changes only its sender's session, and
// only its sender is answered.

ghost use Rattle.std.specs.Prelude.{◌≡◌, OnOk, Some, true};
ghost use Rattle.broker_spec.specs.declared.command.Command.TheVariants as commands;
ghost use Rattle.broker_base.specs.rows.Owners.{owners_in};
ghost use Rattle.broker.specs.one_session.OneSession.{is_handshake};
ghost use Rattle.broker.specs.tables.Tables.{DoesCommand, IsConsistent, IsTied};

use crate::one_session::{do_handshake, send_all};
use crate::tables::tables::Tables;
use broker_spec::{ConnectionName, Output};
use machine::Halted;
use packet::Packet;
use packet_base::ClientId;

impl Tables {
    /// Handles such a packet of the client that is served on this connection.
    pub(crate) fn handshake(
        &mut self,
        connection: ConnectionName,
        client: &ClientId,
        packet: &Packet,
        out: &mut Vec<Output>,
    ) -> Result<(), Halted>
        requires consistent { IsConsistent self.old }
        requires served { owners_in self.old.sessions.entries connection ≡ Some client.now }
        requires kind { is_handshake packet.now ≡ true }
        ensures step { OnOk result
            (DoesCommand self.old self.new out.old.items out.new.items
            (commands.Packet connection packet.now)) }
        ensures tied { OnOk result (IsTied self.new) }
    {
        let row = self.sessions.get_mut(client).unwrap();
        let mut sent = Vec::new(self.alloc);
        do_handshake(&mut row.state, self.window, packet, &mut sent)?;
        send_all(connection, sent, out)?;
        Ok(())
    }
}
