// PUBLISH: a client publishes (MQTT 3.3).
//
// The order of the calls in `publish` matters. Whether the publication is a repeat, who is granted
// it, and whether every one of those sessions and the retained store has room is decided before
// anything changes: a publication is taken as a whole or refused as a whole, and a refused one ends
// its publisher's connection, so that no later publication overtakes it. Room that was there
// beforehand lasts until each copy is queued, since each session gets one copy
// (`room_lasts_to_its_turn`). After that the only error is that memory ran out. The publisher is
// acknowledged first, then the copies go out in the order of the clients' bytes.

ghost use Rattle.std.specs.Prelude.{◌≡◌, ◌++◌, false, Some, OnOk, IfOk, IfSome};
ghost use Rattle.std.specs.List.{list_any};
ghost use Rattle.packet.specs.declared.packet.Packet.TheVariants as packets;
ghost use Rattle.broker_spec.specs.declared.command.Command.TheVariants as commands;
ghost use Rattle.broker_base.specs.rows.Owners.{owners_in};
ghost use Rattle.broker_base.specs.rows.PublishTheorems.{is_refused_by_rows, HaveRoomInTurn};
ghost use Rattle.broker.specs.tables.Tables.{DoesCommand, IsConsistent, IsTied, state_in};
ghost use Rattle.broker.specs.tables.Inside.{HasOthersOf};
ghost use Rattle.broker_spec.specs.Answers.{acknowledged};
ghost use Rattle.broker_spec.specs.Commands.{usual_limits};
ghost use Rattle.broker_spec.specs.Retained.{retains};
ghost use Rattle.broker_base.specs.Decisions.{repeats_taken, is_one_topic_over};
ghost use Rattle.broker_base.specs.State.{session_in};
ghost use Rattle.broker_base.specs.rows.Published.{session_lacks_room, all_delivered, answered_in_turn, session_changed};
ghost use Rattle.broker_base.specs.rows.Published.{copy_answered, delivered_on};
ghost use Rattle.broker_base.specs.rows.Published.{granted_rows, received_on};

use crate::one_session::{ClientRow, deliver, publication_of};
use crate::tables::tables::Tables;
use broker_spec::{ConnectionName, Output, Window};
use machine::{Halted, Memory};
use packet::{Delivery, Packet, Publish};
use packet_base::{ClientId, QoS};
use retained::{RetainedPublication, RetainedStore};
use session_base::Publication;
use std::collections::BTreeMap;
use subs_base::SubIndex;
use topics::TopicName;

impl Tables {
    /// Handles a PUBLISH of the client that is served on this connection. A repeat is acknowledged
    /// once more, a publication for which there is no room closes the connection, and any other is
    /// taken.
    pub(crate) fn publish(
        &mut self,
        connection: ConnectionName,
        client: &ClientId,
        publish: &Publish,
        out: &mut Vec<Output>,
    ) -> Result<(), Halted>
        requires consistent { IsConsistent self.old }
        requires served { owners_in self.old.sessions.entries connection ≡ Some client.now }
        ensures step { OnOk result
            (DoesCommand self.old self.new out.old.items out.new.items
            (commands.Packet connection (packets.Publish publish.now))) }
        ensures tied { OnOk result (IsTied self.new) }
    {
        if repeats_taken(&self.sessions[client], publish.delivery) {
            acknowledge(connection, publish.delivery, out)?;
            return Ok(());
        }
        let publication = publication_of(publish)?;
        let granted = self.granted(&publish.topic)?;
        if self.refuses(&publication, &granted) {
            self.close(connection, out)?;
            return Ok(());
        }
        acknowledge(connection, publish.delivery, out)?;
        self.note_received(client, publish.delivery)?;
        deliver_all(&mut self.sessions, self.window, &publication, &granted, out)?;
        retain(&mut self.retained, publication)?;
        Ok(())
    }

    // Returns the clients with a matching subscription, each with the greatest QoS of those.
    fn granted(&self, topic: &TopicName) -> Result<Vec<(ClientId, QoS)>, Memory>
        requires { IsConsistent self.now }
        ensures { IfOk result
            (λ rows. rows.items ≡ granted_rows topic.now self.now.sessions.entries) }
    {
        let mut rows = Vec::new(self.alloc);
        self.index.granted(topic, &mut rows)?;
        Ok(rows)
    }

    // Returns true if a granted session lacks room for the publication, or retaining it would
    // exceed the topic limit.
    fn refuses(&self, publication: &Publication, granted: &[(ClientId, QoS)]) -> bool
        requires { granted.now ≡ granted_rows publication.now.topic self.now.sessions.entries }
        ensures { result ≡ is_refused_by_rows usual_limits (state_in self.now) publication.now }
    {
        any_lacks_room(&self.sessions, publication, granted)
            || is_one_topic_over(&self.retained, publication)
    }

    // Registers the identifier of a PUBLISH at QoS 2 in the session of this client, if it has one
    // (MQTT 4.3.3).
    fn note_received(&mut self, client: &ClientId, delivery: Delivery) -> Result<(), Halted>
        requires { IfSome (session_in client.now self.old.sessions.entries)
            (λ kept. repeats_taken kept delivery ≡ false) }
        ensures sessions { OnOk result
            (self.new.sessions.entries
            ≡ session_changed client.now (received_on delivery) self.old.sessions.entries) }
        ensures others { HasOthersOf self.old self.new }
    {
        if let Some(row) = self.sessions.get_mut(client) {
            note_identifier(row, delivery)?;
        }
        Ok(())
    }
}

// Returns true if the session received this identifier at QoS 2 and no PUBREL since (MQTT 4.3.3).
fn repeats_taken(row: &ClientRow, delivery: Delivery) -> bool
    ensures { result ≡ repeats_taken row.now delivery }
{
    match delivery {
        Delivery::ExactlyOnce(_, id) => row.state.is_received(id),
        Delivery::AtMostOnce | Delivery::AtLeastOnce(_, _) => false,
    }
}

// Appends the acknowledgement of a PUBLISH: none, PUBACK or PUBREC, by its QoS (MQTT 3.3.4).
fn acknowledge(
    connection: ConnectionName,
    delivery: Delivery,
    out: &mut Vec<Output>,
) -> Result<(), Halted>
    ensures { OnOk result (out.new.items ≡ out.old.items ++ acknowledged connection delivery) }
{
    match delivery {
        Delivery::AtMostOnce => {}
        Delivery::AtLeastOnce(_, id) => out.push(Output::Send(connection, Packet::Puback(id)))?,
        Delivery::ExactlyOnce(_, id) => out.push(Output::Send(connection, Packet::Pubrec(id)))?,
    }
    Ok(())
}

// Registers the identifier of a PUBLISH at QoS 2 in this row (MQTT 4.3.3).
fn note_identifier(row: &mut ClientRow, delivery: Delivery) -> Result<(), Halted>
    requires { repeats_taken row.old delivery ≡ false }
    ensures { OnOk result (row.new ≡ received_on delivery row.old) }
{
    if let Delivery::ExactlyOnce(_, id) = delivery {
        row.state.inbound(id)?;
    }
    Ok(())
}

// Returns true if the session would have to queue the publication and is full.
fn lacks_room(
    sessions: &BTreeMap<ClientId, ClientRow>,
    publication: &Publication,
    granted: &(ClientId, QoS),
) -> bool
    ensures { result ≡ session_lacks_room usual_limits publication.now granted.now.1
        (session_in granted.now.0 sessions.now.entries) }
{
    let (client, qos) = granted;
    match sessions.get(client) {
        Some(row) => { publication.qos.lower(*qos) != QoS::AtMostOnce && row.state.room() == 0 }
        None => false,
    }
}

// Returns true if a granted session would have to queue the publication and is full.
fn any_lacks_room(
    sessions: &BTreeMap<ClientId, ClientRow>,
    publication: &Publication,
    granted: &[(ClientId, QoS)],
) -> bool
    ensures { result ≡ list_any (λ row. session_lacks_room usual_limits publication.now row.1
        (session_in row.0 sessions.now.entries))
        granted.now }
{
    granted
        .iter()
        .any(|row| lacks_room(sessions, publication, row))
}

// Returns true if retaining the publication would exceed the topic limit.
fn is_one_topic_over(retained: &RetainedStore, publication: &Publication) -> bool
    ensures { result ≡ is_one_topic_over usual_limits retained.now publication.now }
{
    publication.retain && retained.refuses(&publication.topic, &publication.payload)
}

// Adds the publication to each granted session, and appends what each client is sent.
fn deliver_all(
    sessions: &mut BTreeMap<ClientId, ClientRow>,
    window: Window,
    publication: &Publication,
    granted: &[(ClientId, QoS)],
    out: &mut Vec<Output>,
) -> Result<(), Halted>
    requires room { HaveRoomInTurn usual_limits window publication.now granted.now
        sessions.old.entries }
    ensures state { OnOk result
        (sessions.new.entries
        ≡ all_delivered window publication.now granted.now sessions.old.entries) }
    ensures outputs { OnOk result
        (out.new.items ≡ out.old.items
        ++ answered_in_turn window publication.now granted.now sessions.old.entries) }
{
    for row in granted {
        deliver_to(sessions, window, publication, row, out)?;
    }
    Ok(())
}

// Adds the publication to one granted session, and appends what its client is sent.
fn deliver_to(
    sessions: &mut BTreeMap<ClientId, ClientRow>,
    window: Window,
    publication: &Publication,
    granted: &(ClientId, QoS),
    out: &mut Vec<Output>,
) -> Result<(), Halted>
    requires room { session_lacks_room usual_limits publication.now granted.now.1
        (session_in granted.now.0 sessions.old.entries) ≡ false }
    ensures state { OnOk result
        (sessions.new.entries ≡ session_changed granted.now.0
        (delivered_on window publication.now granted.now.1) sessions.old.entries) }
    ensures outputs { OnOk result
        (out.new.items ≡ out.old.items ++ copy_answered window publication.now granted.now.1
        (session_in granted.now.0 sessions.old.entries)) }
{
    let (client, qos) = granted;
    if let Some(row) = sessions.get_mut(client) {
        deliver(row, window, publication, *qos, out)?;
    }
    Ok(())
}

// Retains the publication if it has RETAIN 1 (MQTT 3.3.1.3). `refuses` said that there is room.
fn retain(retained: &mut RetainedStore, publication: Publication) -> Result<(), Halted>
    requires { is_one_topic_over usual_limits retained.old publication ≡ false }
    ensures { OnOk result (retained.new ≡ retains publication retained.old) }
{
    if !publication.retain {
        return Ok(());
    }
    if publication.payload.as_slice().is_empty() {
        retained.remove(&publication.topic);
        return Ok(());
    }
    let kept = RetainedPublication {
        qos: publication.qos,
        payload: publication.payload,
    };
    retained.keep(publication.topic, kept)?;
    Ok(())
}
