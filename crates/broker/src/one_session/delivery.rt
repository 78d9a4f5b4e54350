// Adding copies of publications to sessions (MQTT 3.3.5, 4.6).

ghost use Rattle.std.specs.Prelude.{◌≡◌, ◌≤◌, ◌++◌, [], ◌∷◌, true, false, Some, OnOk, IfOk};
ghost use Rattle.packet.specs.declared.packet.Packet.TheVariants as packets;
ghost use Rattle.session_base.specs.Publication.{publish_for, publication_of, is_answered};
ghost use Rattle.packet_base.specs.declared.qos.QoS.TheVariants as qos_levels;
ghost use Rattle.session_base.specs.Queue.{room};
ghost use Rattle.session_base.specs.Copies.{copies_left};
ghost use Rattle.session_base.specs.EntryPackets.{copies_sent};
ghost use Rattle.session_base.specs.Session.{with_queue};
ghost use Rattle.broker_base.specs.SessionStep.{copied_queue};
ghost use Rattle.broker_base.specs.StepAnswers.{sent_on};
ghost use Rattle.broker_spec.specs.Commands.{usual_limits};
ghost use Rattle.broker_base.specs.rows.Published.{delivered_on, session_lacks_room};
ghost use Rattle.broker.specs.one_session.OneSession.{lowered};

use crate::one_session::client_row::ClientRow;
use crate::one_session::outputs::send_all;
use broker_spec::{Output, Window};
use machine::Halted;
use packet::{Delivery, Packet, Publish};
use packet_base::QoS;
use session::Session;
use session_base::{MAX_ENTRIES, Publication};
use std::alloc::AllocError;

/// Returns the publication that a PUBLISH carries.
pub fn publication_of(publish: &Publish) -> Result<Publication, AllocError>
    ensures { IfOk result (λ publication. publication ≡ publication_of publish.now) }
{
    Ok(Publication {
        retain: publish.retain,
        qos: publish.delivery.qos(),
        topic: publish.topic.clone()?,
        payload: publish.payload.clone()?,
    })
}

// Returns the copy of a publication for a subscriber: with RETAIN 0 (MQTT 3.3.1.3), at the lower of
// its QoS and `qos`.
fn copy_at(publication: &Publication, qos: QoS) -> Result<Publication, AllocError>
    ensures { IfOk result (λ copy. copy ≡ lowered publication.now qos) }
{
    Ok(Publication {
        retain: false,
        qos: publication.qos.lower(qos),
        topic: publication.topic.clone()?,
        payload: publication.payload.clone()?,
    })
}

/// Adds a copy to the session of a connected client. A copy at QoS 0 is sent at once; any other is
/// queued, and then what may start starts. Requires room for a copy that is queued.
pub(crate) fn put_copy(
    session: &mut Session,
    window: Window,
    copy: Publication,
    sent: &mut Vec<Packet>,
) -> Result<(), Halted>
    requires room { is_answered copy.qos ≡ true → 1 ≤ room MAX_ENTRIES session.old.queue }
    ensures state { OnOk result
        (session.new ≡ with_queue (copies_left window (copy ∷ []) session.old.queue) session.old) }
    ensures sends { OnOk result
        (sent.new.items ≡ sent.old.items ++ copies_sent window (copy ∷ []) session.old.queue) }
{
    if copy.qos == QoS::AtMostOnce {
        sent.push(unanswered_publish(copy))?;
        return Ok(());
    }
    session.enqueue_within_room(copy)?;
    session.fill_within(window.size(), sent)?;
    Ok(())
}

// Returns the PUBLISH of a copy at QoS 0, which has no acknowledgement (MQTT 4.3.1).
fn unanswered_publish(copy: Publication) -> Packet
    requires { copy.qos ≡ qos_levels.AtMostOnce }
    ensures { result ≡ packets.Publish (publish_for false 0 copy) }
{
    Packet::Publish(Publish {
        topic: copy.topic,
        delivery: Delivery::AtMostOnce,
        retain: copy.retain,
        payload: copy.payload,
    })
}

/// Adds a publication to the session of a client that is granted it at `qos`. If the client is not
/// connected, a copy at QoS 1 or 2 waits, and one at QoS 0 is dropped.
pub fn deliver(
    row: &mut ClientRow,
    window: Window,
    publication: &Publication,
    qos: QoS,
    out: &mut Vec<Output>,
) -> Result<(), Halted>
    requires room { session_lacks_room usual_limits publication.now qos (Some row.old) ≡ false }
    ensures state { OnOk result (row.new ≡ delivered_on window publication.now qos row.old) }
    ensures outputs { OnOk result
        (out.new.items ≡ out.old.items ++ sent_on row.old.connection
        (copies_sent window (lowered publication.now qos ∷ []) row.old.state.queue)) }
{
    let copy = copy_at(publication, qos)?;
    match row.connection {
        Some(connection) => {
            let mut sent = Vec::new(*out.allocator());
            put_copy(&mut row.state, window, copy, &mut sent)?;
            send_all(connection, sent, out)
        }
        None if copy.qos == QoS::AtMostOnce => Ok(()),
        None => {
            row.state.enqueue_within_room(copy)?;
            Ok(())
        }
    }
}
