// SUBSCRIBE: a client subscribes (MQTT 3.8).

ghost use Rattle.std.specs.Prelude.{◌≡◌, Some, OnOk, IfOk, map};
ghost use Rattle.packet.specs.declared.packet.Packet.TheVariants as packets;
ghost use Rattle.subs_base.specs.ListIndex.{content_of};
ghost use Rattle.broker_spec.specs.Answers.{codes_of};
ghost use Rattle.broker_spec.specs.Subscriptions.{as_granted, granted_of};
ghost use Rattle.broker_spec.specs.declared.command.Command.TheVariants as commands;
ghost use Rattle.broker_base.specs.rows.Indexed.{all_set};
ghost use Rattle.broker_base.specs.rows.Owners.{owners_in};
ghost use Rattle.broker.specs.tables.Tables.{DoesCommand, IsConsistent, IsTied};

use crate::one_session::{grant_all, send_all};
use crate::tables::tables::Tables;
use broker_spec::{ConnectionName, Output};
use machine::Halted;
use packet::{Packet, Suback, SubackCode, Subscribe, Subscription};
use packet_base::{ClientId, PacketList};
use std::alloc::{AllocError, Global};
use subs::TreeIndex;
use subs_base::SubIndex;

impl Tables {
    /// Handles a SUBSCRIBE of the client that is served on this connection. Each filter is granted
    /// or not; SUBACK says which, and the retained publications that match a granted one follow.
    pub(crate) fn subscribe(
        &mut self,
        connection: ConnectionName,
        client: &ClientId,
        subscribe: &Subscribe,
        out: &mut Vec<Output>,
    ) -> Result<(), Halted>
        requires consistent { IsConsistent self.old }
        requires served { owners_in self.old.sessions.entries connection ≡ Some client.now }
        ensures step { OnOk result
            (DoesCommand self.old self.new out.old.items out.new.items
            (commands.Packet connection (packets.Subscribe subscribe.now))) }
        ensures tied { OnOk result (IsTied self.new) }
    {
        let filters = subscribe.filters.as_slice();
        let row = self.sessions.get_mut(client).unwrap();
        let mut sent = Vec::new(self.alloc);
        let which = grant_all(
            &mut row.state,
            self.window,
            &self.retained,
            filters,
            &mut sent,
        )?;
        set_all(&mut self.index, client, filters, &which)?;
        let suback = Suback {
            id: subscribe.id,
            codes: PacketList::new(codes_of(self.alloc, filters, &which)?),
        };
        out.push(Output::Send(connection, Packet::Suback(suback)))?;
        send_all(connection, sent, out)?;
        Ok(())
    }
}

// Sets the granted filters in the index.
fn set_all(
    index: &mut TreeIndex,
    client: &ClientId,
    filters: &[Subscription],
    which: &[bool],
) -> Result<(), Halted>
    ensures { OnOk result
        (content_of index.new
        ≡ all_set client.now (map as_granted (granted_of filters.now which.now))
        (content_of index.old)) }
{
    for (subscription, granted) in filters.iter().zip(which) {
        if *granted {
            index.set(client, &subscription.filter, subscription.qos)?;
        }
    }
    Ok(())
}

// Returns the return code of each filter (MQTT 3.9.3).
fn codes_of(
    alloc: Global,
    filters: &[Subscription],
    which: &[bool],
) -> Result<Vec<SubackCode>, AllocError>
    ensures { IfOk result (λ codes. codes.items ≡ codes_of filters.now which.now) }
{
    let mut codes = Vec::new(alloc);
    for (subscription, granted) in filters.iter().zip(which) {
        codes.push(if *granted {
            SubackCode::Granted(subscription.qos)
        } else {
            SubackCode::Failure
        })?;
    }
    Ok(codes)
}
