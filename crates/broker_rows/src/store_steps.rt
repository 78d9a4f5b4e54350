// Steps about retained publications (MQTT 3.3.1.3).

ghost use Rattle.std.specs.Prelude.{◌≡◌, ◌++◌, ◌∷◌, [], map, codes, IfOk, OnOk};
ghost use Rattle.retained.specs.Retained.{matching_entries};
ghost use Rattle.broker_rows.specs.StoreSteps.{StoreAgrees, StoreStep, retained_fields};

use crate::values::{filter_of, payload_of, qos_of, qos_text, topic_of};
use retained::{RetainedError, RetainedPublication, RetainedStore};
use rows::{Field, Fields, Line, Outcome, StepFault, Tested, counted, only, play_steps};
use std::alloc::{AllocError, Global};
use topics::{Filter, TopicName};

/// Retained publications.
pub(crate) struct Retained {
    store: RetainedStore,
}

impl Drop for Retained {
    fn drop(self) {
        let Retained { store: _store } = self;
    }
}

impl Tested for Retained {
    ghost use Rattle.broker_rows.specs.StoreSteps.{StoreDoes};

    ghost Does = { StoreDoes };

    fn step(&mut self, alloc: Global, step: &Fields) -> Result<Vec<Fields>, StepFault> {
        step_of(alloc, &mut self.store, step.as_slice())
    }
}

/// Plays steps about retained publications.
pub(crate) fn play_store(alloc: Global, steps: &[Line]) -> Outcome
    ensures { result ≡ Outcome.Agrees → StoreAgrees steps.now }
{
    let mut retained = Retained {
        store: RetainedStore::new(alloc),
    };
    let outcome = play_steps(alloc, &mut retained, steps);
    drop(retained);
    outcome
}

// Does a step.
fn step_of(
    alloc: Global,
    store: &mut RetainedStore,
    step: &[Field],
) -> Result<Vec<Fields>, StepFault>
    ensures { IfOk result (λ answers. StoreStep store.old step.now answers.items store.new) }
{
    match step {
        [word] => alone(alloc, store, word),
        [word, filter] => with_filter(alloc, store, word, filter),
        [word, topic, qos, payload] => with_payload(alloc, store, word, topic, qos, payload),
        _ => Err(StepFault::Form),
    }
}

// Does a step of a word alone.
#[tactic(auto, using(crate::proofs::StoreAnswers::topics_step))]
fn alone(alloc: Global, store: &mut RetainedStore, word: &Field) -> Result<Vec<Fields>, StepFault>
    ensures { IfOk result (λ answers.
        StoreStep store.old (word.now ∷ []) answers.items store.new) }
{
    if word.is(b"topics") {
        topics(alloc, store)
    } else {
        Err(StepFault::Form)
    }
}

// Does a step of a word and a filter.
#[tactic(auto, using(crate::proofs::StoreAnswers::find_step))]
fn with_filter(
    alloc: Global,
    store: &mut RetainedStore,
    word: &Field,
    filter: &Field,
) -> Result<Vec<Fields>, StepFault>
    ensures { IfOk result (λ answers.
        StoreStep store.old (word.now ∷ filter.now ∷ []) answers.items store.new) }
{
    if word.is(b"find") {
        find(alloc, store, filter)
    } else {
        Err(StepFault::Form)
    }
}

// Does a step of a word, a topic, a QoS and a payload.
#[tactic(auto, using(crate::proofs::StoreAnswers::retain_step))]
fn with_payload(
    alloc: Global,
    store: &mut RetainedStore,
    word: &Field,
    topic: &Field,
    qos: &Field,
    payload: &Field,
) -> Result<Vec<Fields>, StepFault>
    ensures { IfOk result (λ answers. StoreStep store.old
        (word.now ∷ topic.now ∷ qos.now ∷ payload.now ∷ []) answers.items store.new) }
{
    if word.is(b"retain") {
        retain(alloc, store, topic, qos, payload)
    } else {
        Err(StepFault::Form)
    }
}

// Returns how many topics have a retained publication.
#[tactic(auto, using(crate::proofs::StoreAnswers::topics_gives))]
fn topics(alloc: Global, store: &mut RetainedStore) -> Result<Vec<Fields>, StepFault>
    ensures { IfOk result (λ answers.
        StoreStep store.old (codes "topics" ∷ []) answers.items store.new) }
{
    Ok(only(alloc, counted(alloc, "topics", store.len() as u64)?)?)
}

fn retain(
    alloc: Global,
    store: &mut RetainedStore,
    topic: &Field,
    qos: &Field,
    payload: &Field,
) -> Result<Vec<Fields>, StepFault>
    ensures { IfOk result (λ answers. StoreStep store.old
        (codes "retain" ∷ topic.now ∷ qos.now ∷ payload.now ∷ []) answers.items store.new) }
{
    let qos = qos_of(qos)?;
    let topic = topic_of(alloc, topic)?;
    let payload = payload_of(alloc, payload)?;
    match store.put(topic, qos, payload) {
        Ok(()) => Ok(Vec::new(alloc)),
        Err(RetainedError::RetainedFull) => Err(StepFault::Form),
        Err(RetainedError::Memory) => Err(StepFault::Memory),
    }
}

fn find(alloc: Global, store: &mut RetainedStore, filter: &Field) -> Result<Vec<Fields>, StepFault>
    ensures { IfOk result (λ answers. StoreStep store.old
        (codes "find" ∷ filter.now ∷ []) answers.items store.new) }
{
    let filter = filter_of(alloc, filter)?;
    let found = matching(alloc, store, &filter)?;
    Ok(retained_answers(alloc, found.as_slice())?)
}

// Returns the retained publications whose topics the filter matches.
fn matching(
    alloc: Global,
    store: &RetainedStore,
    filter: &Filter,
) -> Result<Vec<(TopicName, RetainedPublication)>, StepFault>
    ensures { IfOk result (λ found. found.items ≡ matching_entries store.now filter.now) }
{
    let mut found = Vec::new(alloc);
    match store.matching(filter, &mut found) {
        Ok(()) => Ok(found),
        Err(_) => Err(StepFault::Memory),
    }
}

fn retained_answers(
    alloc: Global,
    found: &[(TopicName, RetainedPublication)],
) -> Result<Vec<Fields>, AllocError>
    ensures { IfOk result (λ answers. answers.items ≡ map retained_fields found.now) }
{
    let mut answers = Vec::new(alloc);
    append_retained(alloc, found, &mut answers)?;
    Ok(answers)
}

// Appends the answer of each publication.
fn append_retained(
    alloc: Global,
    found: &[(TopicName, RetainedPublication)],
    answers: &mut Vec<Fields>,
) -> Result<(), AllocError>
    ensures { OnOk result
        (answers.new.items ≡ answers.old.items ++ map retained_fields found.now) }
{
    if let [(topic, kept), rest @ ..] = found {
        answers.push(retained_fields(alloc, topic, kept)?)?;
        append_retained(alloc, rest, answers)?;
    }
    Ok(())
}

// Returns the answer of a retained publication.
fn retained_fields(
    alloc: Global,
    topic: &TopicName,
    kept: &RetainedPublication,
) -> Result<Fields, AllocError>
    ensures { IfOk result (λ answer. answer ≡ retained_fields (topic.now, kept.now)) }
{
    let mut answer = Fields::new(alloc);
    answer.text("topic")?;
    answer.text(topic.as_str())?;
    answer.text("qos")?;
    answer.text(qos_text(kept.qos))?;
    answer.text("payload")?;
    answer.bytes(kept.payload.as_slice())?;
    Ok(answer)
}
