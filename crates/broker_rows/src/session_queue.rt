// Steps about the queue of a session: what waits, and what goes out (MQTT 4.4, 4.6).

ghost use Rattle.std.specs.Prelude.{◌≡◌, ◌≤◌, ◌∷◌, [], codes, Some, IfOk, OnOk};
ghost use Rattle.rows.specs.Fields.{number_of};
ghost use Rattle.session_base.specs.EntryPackets.{fill_sends, resend};
ghost use Rattle.session_base.specs.Identifiers.{max_id};
ghost use Rattle.session_base.specs.Queue.{filled};
ghost use Rattle.session_base.specs.Session.{with_queue};
ghost use Rattle.broker_rows.specs.SessionValues.{publication_of};
ghost use Rattle.broker_rows.specs.SessionSteps.{SessionStep};

use crate::packets::packet_answers;
use crate::values::{payload_of, qos_of, topic_of};
use packet::Packet;
use packet_base::QoS;
use rows::{Field, Fields, StepFault};
use session::{EnqueueError, Publication, Session, WINDOW};
use std::alloc::Global;

/// Queues a publication.
pub(crate) fn queue(
    alloc: Global,
    session: &mut Session,
    topic: &Field,
    qos: &Field,
    payload: &Field,
) -> Result<Vec<Fields>, StepFault>
    ensures { IfOk result (λ answers. SessionStep session.old
        (codes "queue" ∷ topic.now ∷ qos.now ∷ payload.now ∷ []) answers.items session.new) }
{
    let qos = qos_of(qos)?;
    let publication = publication_of(alloc, topic, qos, payload)?;
    match session.enqueue(publication) {
        Ok(()) => Ok(Vec::new(alloc)),
        Err(EnqueueError::QueueFull) => Err(StepFault::Form),
        Err(EnqueueError::Memory) => Err(StepFault::Memory),
    }
}

fn publication_of(
    alloc: Global,
    topic: &Field,
    qos: QoS,
    payload: &Field,
) -> Result<Publication, StepFault>
    ensures { IfOk result (λ publication.
        publication ≡ publication_of topic.now qos payload.now) }
{
    let payload = payload_of(alloc, payload)?;
    let topic = topic_of(alloc, topic)?;
    Ok(Publication {
        retain: false,
        qos,
        topic,
        payload,
    })
}

/// Sends what waits, within the window of this broker.
pub(crate) fn send(alloc: Global, session: &mut Session) -> Result<Vec<Fields>, StepFault>
    ensures { IfOk result (λ answers.
        SessionStep session.old (codes "send" ∷ []) answers.items session.new) }
{
    let out = filled(alloc, session)?;
    Ok(packet_answers(alloc, out.as_slice())?)
}

fn filled(alloc: Global, session: &mut Session) -> Result<Vec<Packet>, StepFault>
    ensures sends { IfOk result (λ out. out.items
        ≡ fill_sends WINDOW session.old.queue.in_flight session.old.queue.waiting) }
    ensures state { OnOk result
        (session.new ≡ with_queue (filled WINDOW session.old.queue) session.old) }
{
    let mut out = Vec::new(alloc);
    match session.fill(&mut out) {
        Ok(()) => Ok(out),
        Err(_) => Err(StepFault::Memory),
    }
}

/// Sends what waits, within another window.
pub(crate) fn send_within(
    alloc: Global,
    session: &mut Session,
    window: &Field,
) -> Result<Vec<Fields>, StepFault>
    ensures { IfOk result (λ answers. SessionStep session.old
        (codes "send" ∷ window.now ∷ []) answers.items session.new) }
{
    let window = window_of(window)?;
    let out = filled_within(alloc, session, window)?;
    Ok(packet_answers(alloc, out.as_slice())?)
}

// Returns the window that a field is.
fn window_of(field: &Field) -> Result<usize, StepFault>
    ensures number { IfOk result (λ window. number_of field.now ≡ Some window) }
    ensures fits { IfOk result (λ window. window ≤ max_id) }
{
    match field.number() {
        Some(window) if window <= 65_535 => Ok(window as usize),
        _ => Err(StepFault::Form),
    }
}

fn filled_within(
    alloc: Global,
    session: &mut Session,
    window: usize,
) -> Result<Vec<Packet>, StepFault>
    requires { window ≤ max_id }
    ensures sends { IfOk result (λ out. out.items
        ≡ fill_sends window session.old.queue.in_flight session.old.queue.waiting) }
    ensures state { OnOk result
        (session.new ≡ with_queue (filled window session.old.queue) session.old) }
{
    let mut out = Vec::new(alloc);
    match session.fill_within(window, &mut out) {
        Ok(()) => Ok(out),
        Err(_) => Err(StepFault::Memory),
    }
}

/// Sends again what is on its way, as to a client that comes back.
pub(crate) fn resend(alloc: Global, session: &mut Session) -> Result<Vec<Fields>, StepFault>
    ensures { IfOk result (λ answers.
        SessionStep session.old (codes "resend" ∷ []) answers.items session.new) }
{
    let out = resent(alloc, session)?;
    Ok(packet_answers(alloc, out.as_slice())?)
}

fn resent(alloc: Global, session: &Session) -> Result<Vec<Packet>, StepFault>
    ensures { IfOk result (λ out. out.items ≡ resend session.now.queue.in_flight) }
{
    let mut out = Vec::new(alloc);
    match session.resend(&mut out) {
        Ok(()) => Ok(out),
        Err(_) => Err(StepFault::Memory),
    }
}
