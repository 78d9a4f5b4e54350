// UNSUBSCRIBE: a client unsubscribes (MQTT 3.10).

ghost use Rattle.std.specs.Prelude.{◌≡◌, Some, OnOk};
ghost use Rattle.packet.specs.declared.packet.Packet.TheVariants as packets;
ghost use Rattle.session_base.specs.Subscriptions.{without_filters};
ghost use Rattle.session_base.specs.Session.{with_granted};
ghost use Rattle.subs_base.specs.ListIndex.{content_of};
ghost use Rattle.broker_spec.specs.declared.command.Command.TheVariants as commands;
ghost use Rattle.broker_base.specs.rows.Indexed.{all_cleared};
ghost use Rattle.broker_base.specs.rows.Owners.{owners_in};
ghost use Rattle.broker.specs.tables.Tables.{DoesCommand, IsConsistent, IsTied};

use crate::tables::tables::Tables;
use broker_spec::{ConnectionName, Output};
use machine::Halted;
use packet::{Packet, Unsubscribe};
use packet_base::ClientId;
use session::Session;
use subs::TreeIndex;
use subs_base::SubIndex;
use topics::Filter;

impl Tables {
    /// Handles an UNSUBSCRIBE of the client that is served on this connection.
    pub(crate) fn unsubscribe(
        &mut self,
        connection: ConnectionName,
        client: &ClientId,
        unsubscribe: &Unsubscribe,
        out: &mut Vec<Output>,
    ) -> Result<(), Halted>
        requires consistent { IsConsistent self.old }
        requires served { owners_in self.old.sessions.entries connection ≡ Some client.now }
        ensures step { OnOk result
            (DoesCommand self.old self.new out.old.items out.new.items
            (commands.Packet connection (packets.Unsubscribe unsubscribe.now))) }
        ensures tied { OnOk result (IsTied self.new) }
    {
        let row = self.sessions.get_mut(client).unwrap();
        unsubscribe_all(&mut row.state, unsubscribe.filters.as_slice());
        clear_all(&mut self.index, client, unsubscribe.filters.as_slice());
        out.push(Output::Send(connection, Packet::Unsuback(unsubscribe.id)))?;
        Ok(())
    }
}

// Removes these filters from the session.
fn unsubscribe_all(session: &mut Session, filters: &[Filter])
    ensures { session.new
        ≡ with_granted (without_filters filters.now session.old.subscriptions) session.old }
{
    for filter in filters {
        session.unsubscribe(filter);
    }
}

// Removes the client's subscriptions to these filters from the index.
fn clear_all(index: &mut TreeIndex, client: &ClientId, filters: &[Filter])
    ensures { content_of index.new ≡ all_cleared client.now filters.now (content_of index.old) }
{
    for filter in filters {
        index.clear(client, filter);
    }
}
