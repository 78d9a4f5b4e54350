// Steps of the handshakes of a session, each of them with a Packet Identifier (MQTT 4.3).

ghost use Rattle.std.specs.Prelude.{◌≡◌, ◌∷◌, [], codes, IfOk, OnOk};
ghost use Rattle.session_base.specs.EntryPackets.{pubrec_sends};
ghost use Rattle.session_base.specs.Queue.{on_pubrec};
ghost use Rattle.session_base.specs.Session.{with_flights, with_queue};
ghost use Rattle.broker_rows.specs.SessionSteps.{SessionStep};

use crate::packets::packet_answers;
use crate::values::id_of;
use packet::Packet;
use packet_base::PacketId;
use rows::{Field, Fields, StepFault, only, word, yes_or_no};
use session::{Arrival, Session};
use std::alloc::Global;

/// Handles PUBACK.
pub(crate) fn puback(
    alloc: Global,
    session: &mut Session,
    id: &Field,
) -> Result<Vec<Fields>, StepFault>
    ensures { IfOk result (λ answers. SessionStep session.old
        (codes "puback" ∷ id.now ∷ []) answers.items session.new) }
{
    let id = id_of(id)?;
    session.on_puback(id);
    Ok(Vec::new(alloc))
}

/// Handles PUBREC.
pub(crate) fn pubrec(
    alloc: Global,
    session: &mut Session,
    id: &Field,
) -> Result<Vec<Fields>, StepFault>
    ensures { IfOk result (λ answers. SessionStep session.old
        (codes "pubrec" ∷ id.now ∷ []) answers.items session.new) }
{
    let id = id_of(id)?;
    let out = released(alloc, session, id)?;
    Ok(packet_answers(alloc, out.as_slice())?)
}

fn released(alloc: Global, session: &mut Session, id: PacketId) -> Result<Vec<Packet>, StepFault>
    ensures sends { IfOk result (λ out. out.items
        ≡ pubrec_sends id (on_pubrec id session.old.queue.in_flight)) }
    ensures state { OnOk result (session.new ≡ with_queue
        (with_flights (on_pubrec id session.old.queue.in_flight) session.old.queue) session.old) }
{
    let mut out = Vec::new(alloc);
    match session.on_pubrec(id, &mut out) {
        Ok(()) => Ok(out),
        Err(_) => Err(StepFault::Memory),
    }
}

/// Handles PUBCOMP.
pub(crate) fn pubcomp(
    alloc: Global,
    session: &mut Session,
    id: &Field,
) -> Result<Vec<Fields>, StepFault>
    ensures { IfOk result (λ answers. SessionStep session.old
        (codes "pubcomp" ∷ id.now ∷ []) answers.items session.new) }
{
    let id = id_of(id)?;
    session.on_pubcomp(id);
    Ok(Vec::new(alloc))
}

/// Handles a PUBLISH at QoS 2.
pub(crate) fn publish(
    alloc: Global,
    session: &mut Session,
    id: &Field,
) -> Result<Vec<Fields>, StepFault>
    ensures { IfOk result (λ answers. SessionStep session.old
        (codes "publish" ∷ id.now ∷ []) answers.items session.new) }
{
    let id = id_of(id)?;
    match session.inbound(id) {
        Ok(Arrival::First) => Ok(only(alloc, word(alloc, "new")?)?),
        Ok(Arrival::Again) => Ok(only(alloc, word(alloc, "repeat")?)?),
        Err(_) => Err(StepFault::Memory),
    }
}

/// Handles PUBREL.
pub(crate) fn pubrel(
    alloc: Global,
    session: &mut Session,
    id: &Field,
) -> Result<Vec<Fields>, StepFault>
    ensures { IfOk result (λ answers. SessionStep session.old
        (codes "pubrel" ∷ id.now ∷ []) answers.items session.new) }
{
    let id = id_of(id)?;
    session.release(id);
    Ok(Vec::new(alloc))
}

/// Returns whether a PUBLISH at QoS 2 with this identifier would be a repeat.
pub(crate) fn received(
    alloc: Global,
    session: &mut Session,
    id: &Field,
) -> Result<Vec<Fields>, StepFault>
    ensures { IfOk result (λ answers. SessionStep session.old
        (codes "received" ∷ id.now ∷ []) answers.items session.new) }
{
    let id = id_of(id)?;
    Ok(only(alloc, yes_or_no(alloc, session.is_received(id))?)?)
}
