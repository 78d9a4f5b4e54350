// Steps about one client's session: its subscriptions, what it received at QoS 2, and its queue
// (MQTT 4.1, 4.3, 4.4, 4.6).

ghost use Rattle.std.specs.Prelude.{◌≡◌, ◌∷◌, [], codes, IfOk};
ghost use Rattle.session_base.specs.SessionForm.{state_at};
ghost use Rattle.broker_rows.specs.SessionValues.{granted_fields, thawed};
ghost use Rattle.broker_rows.specs.SessionSteps.{SessionAgrees, SessionStep};

use crate::session_handshakes::{puback, pubcomp, publish, pubrec, pubrel, received};
use crate::session_queue::{queue, resend, send, send_within};
use crate::values::{filter_of, qos_of, qos_text, topic_of};
use packet_base::{QoS, Reader, Stop};
use rows::{
    Field, Fields, Line, Outcome, StepFault, Tested, counted, only, play_steps, word, yes_or_no,
};
use session::{Session, WINDOW};
use std::alloc::{AllocError, Global};
use topics::MalformedKind;

/// A client's session.
pub(crate) struct Client {
    session: Session,
}

impl Drop for Client {
    fn drop(self) {
        let Client { session: _session } = self;
    }
}

impl Tested for Client {
    ghost use Rattle.broker_rows.specs.SessionSteps.{SessionDoes};

    ghost Does = { SessionDoes };

    fn step(&mut self, alloc: Global, step: &Fields) -> Result<Vec<Fields>, StepFault> {
        step_of(alloc, &mut self.session, step.as_slice())
    }
}

/// Plays steps about a session.
pub(crate) fn play_session(alloc: Global, steps: &[Line]) -> Outcome
    ensures { result ≡ Outcome.Agrees → SessionAgrees steps.now }
{
    let mut client = Client {
        session: Session::new(alloc),
    };
    let outcome = play_steps(alloc, &mut client, steps);
    drop(client);
    outcome
}

// Does a step.
fn step_of(alloc: Global, session: &mut Session, step: &[Field]) -> Result<Vec<Fields>, StepFault>
    ensures { IfOk result (λ answers.
        SessionStep session.old step.now answers.items session.new) }
{
    match step {
        [word] => alone(alloc, session, word),
        [word, field] => with_field(alloc, session, word, field),
        [word, filter, qos] => with_filter(alloc, session, word, filter, qos),
        [word, topic, qos, payload] => with_payload(alloc, session, word, topic, qos, payload),
        _ => Err(StepFault::Form),
    }
}

// Does a step of a word alone.
#[tactic(auto, using(crate::proofs::SessionAnswers::send_step, crate::proofs::SessionAnswers::resend_step, crate::proofs::SessionAnswers::room_step, crate::proofs::SessionAnswers::subscriptions_step))]
fn alone(alloc: Global, session: &mut Session, word: &Field) -> Result<Vec<Fields>, StepFault>
    ensures { IfOk result (λ answers.
        SessionStep session.old (word.now ∷ []) answers.items session.new) }
{
    if word.is(b"send") {
        send(alloc, session)
    } else if word.is(b"resend") {
        resend(alloc, session)
    } else if word.is(b"room") {
        room(alloc, session)
    } else if word.is(b"subscriptions") {
        subscriptions(alloc, session)
    } else {
        Err(StepFault::Form)
    }
}

// Does a step of a word and one field.
#[tactic(auto, using(crate::proofs::SessionAnswers::send_within_step, crate::proofs::SessionAnswers::unsubscribe_step, crate::proofs::SessionAnswers::subscribed_step, crate::proofs::SessionAnswers::granted_step, crate::proofs::SessionAnswers::thaw_step))]
fn with_field(
    alloc: Global,
    session: &mut Session,
    word: &Field,
    field: &Field,
) -> Result<Vec<Fields>, StepFault>
    ensures { IfOk result (λ answers.
        SessionStep session.old (word.now ∷ field.now ∷ []) answers.items session.new) }
{
    if word.is(b"send") {
        send_within(alloc, session, field)
    } else if word.is(b"unsubscribe") {
        unsubscribe(alloc, session, field)
    } else if word.is(b"subscribed") {
        subscribed(alloc, session, field)
    } else if word.is(b"granted") {
        granted(alloc, session, field)
    } else if word.is(b"thaw") {
        thaw(alloc, session, field)
    } else {
        with_id(alloc, session, word, field)
    }
}

// Does a step of a word and a Packet Identifier.
#[tactic(auto, using(crate::proofs::SessionAnswers::puback_step, crate::proofs::SessionAnswers::pubrec_step, crate::proofs::SessionAnswers::pubcomp_step, crate::proofs::SessionAnswers::publish_step, crate::proofs::SessionAnswers::pubrel_step, crate::proofs::SessionAnswers::received_step))]
fn with_id(
    alloc: Global,
    session: &mut Session,
    word: &Field,
    id: &Field,
) -> Result<Vec<Fields>, StepFault>
    ensures { IfOk result (λ answers.
        SessionStep session.old (word.now ∷ id.now ∷ []) answers.items session.new) }
{
    if word.is(b"puback") {
        puback(alloc, session, id)
    } else if word.is(b"pubrec") {
        pubrec(alloc, session, id)
    } else if word.is(b"pubcomp") {
        pubcomp(alloc, session, id)
    } else if word.is(b"publish") {
        publish(alloc, session, id)
    } else if word.is(b"pubrel") {
        pubrel(alloc, session, id)
    } else if word.is(b"received") {
        received(alloc, session, id)
    } else {
        Err(StepFault::Form)
    }
}

// Does a step of a word, a filter and a QoS.
#[tactic(auto, using(crate::proofs::SessionAnswers::subscribe_step))]
fn with_filter(
    alloc: Global,
    session: &mut Session,
    word: &Field,
    filter: &Field,
    qos: &Field,
) -> Result<Vec<Fields>, StepFault>
    ensures { IfOk result (λ answers. SessionStep session.old
        (word.now ∷ filter.now ∷ qos.now ∷ []) answers.items session.new) }
{
    if word.is(b"subscribe") {
        subscribe(alloc, session, filter, qos)
    } else {
        Err(StepFault::Form)
    }
}

// Does a step of a word, a topic, a QoS and a payload.
#[tactic(auto, using(crate::proofs::SessionAnswers::queue_step))]
fn with_payload(
    alloc: Global,
    session: &mut Session,
    word: &Field,
    topic: &Field,
    qos: &Field,
    payload: &Field,
) -> Result<Vec<Fields>, StepFault>
    ensures { IfOk result (λ answers. SessionStep session.old
        (word.now ∷ topic.now ∷ qos.now ∷ payload.now ∷ []) answers.items session.new) }
{
    if word.is(b"queue") {
        queue(alloc, session, topic, qos, payload)
    } else {
        Err(StepFault::Form)
    }
}

#[tactic(auto, using(crate::proofs::SessionAnswers::room_gives))]
fn room(alloc: Global, session: &mut Session) -> Result<Vec<Fields>, StepFault>
    ensures { IfOk result (λ answers.
        SessionStep session.old (codes "room" ∷ []) answers.items session.new) }
{
    Ok(only(alloc, counted(alloc, "room", session.room() as u64)?)?)
}

#[tactic(auto, using(crate::proofs::SessionAnswers::subscriptions_gives))]
fn subscriptions(alloc: Global, session: &mut Session) -> Result<Vec<Fields>, StepFault>
    ensures { IfOk result (λ answers.
        SessionStep session.old (codes "subscriptions" ∷ []) answers.items session.new) }
{
    let count = session.subscription_count() as u64;
    Ok(only(alloc, counted(alloc, "subscriptions", count)?)?)
}

fn subscribe(
    alloc: Global,
    session: &mut Session,
    filter: &Field,
    qos: &Field,
) -> Result<Vec<Fields>, StepFault>
    ensures { IfOk result (λ answers. SessionStep session.old
        (codes "subscribe" ∷ filter.now ∷ qos.now ∷ []) answers.items session.new) }
{
    let qos = qos_of(qos)?;
    let filter = filter_of(alloc, filter)?;
    match session.subscribe(filter, qos) {
        Ok(()) => Ok(Vec::new(alloc)),
        Err(_) => Err(StepFault::Memory),
    }
}

fn unsubscribe(
    alloc: Global,
    session: &mut Session,
    filter: &Field,
) -> Result<Vec<Fields>, StepFault>
    ensures { IfOk result (λ answers. SessionStep session.old
        (codes "unsubscribe" ∷ filter.now ∷ []) answers.items session.new) }
{
    let filter = filter_of(alloc, filter)?;
    session.unsubscribe(&filter);
    Ok(Vec::new(alloc))
}

fn subscribed(
    alloc: Global,
    session: &mut Session,
    filter: &Field,
) -> Result<Vec<Fields>, StepFault>
    ensures { IfOk result (λ answers. SessionStep session.old
        (codes "subscribed" ∷ filter.now ∷ []) answers.items session.new) }
{
    let filter = filter_of(alloc, filter)?;
    Ok(only(alloc, yes_or_no(alloc, session.has_subscription(&filter))?)?)
}

fn granted(alloc: Global, session: &mut Session, topic: &Field) -> Result<Vec<Fields>, StepFault>
    ensures { IfOk result (λ answers. SessionStep session.old
        (codes "granted" ∷ topic.now ∷ []) answers.items session.new) }
{
    let topic = topic_of(alloc, topic)?;
    Ok(only(alloc, granted_fields(alloc, session.granted(&topic))?)?)
}

fn granted_fields(alloc: Global, granted: Option<QoS>) -> Result<Fields, AllocError>
    ensures { IfOk result (λ answer. answer ≡ granted_fields granted) }
{
    match granted {
        Some(qos) => {
            let mut answer = word(alloc, "qos")?;
            answer.text(qos_text(qos))?;
            Ok(answer)
        }
        None => word(alloc, "none"),
    }
}

// Replaces the session by the one that was frozen to these bytes, if there is one.
fn thaw(alloc: Global, session: &mut Session, bytes: &Field) -> Result<Vec<Fields>, StepFault>
    ensures { IfOk result (λ answers. SessionStep session.old
        (codes "thaw" ∷ bytes.now ∷ []) answers.items session.new) }
{
    match thawed(alloc, bytes.as_slice())? {
        Some((thawed, left)) => {
            *session = thawed;
            Ok(only(alloc, counted(alloc, "left", left)?)?)
        }
        None => Ok(only(alloc, word(alloc, "refused")?)?),
    }
}

// Returns the session that was frozen to these bytes, if there is one, and how many bytes are after
// it.
fn thawed(alloc: Global, bytes: &[u8]) -> Result<Option<(Session, u64)>, StepFault>
    ensures { IfOk result (λ read. read ≡ thawed (state_at WINDOW bytes.now)) }
{
    let mut reader = Reader::new(bytes);
    match Session::read(alloc, WINDOW, &mut reader) {
        Ok(session) => Ok(Some((session, reader.len() as u64))),
        Err(Stop::Malformed(MalformedKind::Memory)) => Err(StepFault::Memory),
        Err(_) => Ok(None),
    }
}
