// Steps about subscriptions: which clients a publication goes to (MQTT 3.3.5, 3.8.4, 3.10.4, 4.7).
//
// Each row is played with both indexes, by callers that know only the trait's contract.

ghost use Rattle.std.specs.Prelude.{◌≡◌, ◌++◌, ◌∷◌, [], map, codes, IfOk, OnOk};
ghost use Rattle.subs_base.specs.ListIndex.{content_of};
ghost use Rattle.broker_rows.specs.IndexSteps.{IndexStep, ListAgrees, TreeAgrees, grant_fields};

use crate::values::{client_of, filter_of, qos_of, qos_text, topic_of};
use packet_base::{ClientId, QoS};
use rows::{Field, Fields, Line, Outcome, StepFault, Tested, only, play_steps, yes_or_no};
use std::alloc::{AllocError, Global};
use subs::TreeIndex;
use subs_base::{ListIndex, SubIndex};

/// Subscriptions as a list.
pub(crate) struct ByList {
    index: ListIndex,
}

impl Drop for ByList {
    fn drop(self) {
        let ByList { index: _index } = self;
    }
}

impl Tested for ByList {
    ghost use Rattle.broker_rows.specs.IndexSteps.{ListDoes};

    ghost Does = { ListDoes };

    fn step(&mut self, alloc: Global, step: &Fields) -> Result<Vec<Fields>, StepFault> {
        step_of(alloc, &mut self.index, step.as_slice())
    }
}

/// Subscriptions as a tree.
pub(crate) struct ByTree {
    index: TreeIndex,
}

impl Drop for ByTree {
    fn drop(self) {
        let ByTree { index: _index } = self;
    }
}

impl Tested for ByTree {
    ghost use Rattle.broker_rows.specs.IndexSteps.{TreeDoes};

    ghost Does = { TreeDoes };

    fn step(&mut self, alloc: Global, step: &Fields) -> Result<Vec<Fields>, StepFault> {
        step_of(alloc, &mut self.index, step.as_slice())
    }
}

/// Plays steps about subscriptions with a list, and then with a tree.
pub(crate) fn play_index(alloc: Global, steps: &[Line]) -> Outcome
    ensures list { result ≡ Outcome.Agrees → ListAgrees steps.now }
    ensures tree { result ≡ Outcome.Agrees → TreeAgrees steps.now }
{
    let outcome = play_list(alloc, steps);
    if !outcome.is_agreement() {
        return outcome;
    }
    drop(outcome);
    play_tree(alloc, steps)
}

fn play_list(alloc: Global, steps: &[Line]) -> Outcome
    ensures { result ≡ Outcome.Agrees → ListAgrees steps.now }
{
    let mut list = ByList {
        index: ListIndex::new(alloc),
    };
    let outcome = play_steps(alloc, &mut list, steps);
    drop(list);
    outcome
}

fn play_tree(alloc: Global, steps: &[Line]) -> Outcome
    ensures { result ≡ Outcome.Agrees → TreeAgrees steps.now }
{
    let mut tree = ByTree {
        index: TreeIndex::new(alloc),
    };
    let outcome = play_steps(alloc, &mut tree, steps);
    drop(tree);
    outcome
}

// Does a step.
fn step_of<I: SubIndex>(
    alloc: Global,
    index: &mut I,
    step: &[Field],
) -> Result<Vec<Fields>, StepFault>
    ensures { IfOk result (λ answers.
        IndexStep (I.content index.old) step.now answers.items (I.content index.new)) }
{
    match step {
        [word, field] => with_field(alloc, index, word, field),
        [word, client, filter] => with_filter(alloc, index, word, client, filter),
        [word, client, filter, qos] => with_qos(alloc, index, word, client, filter, qos),
        _ => Err(StepFault::Form),
    }
}

// Does a step of a word and one field.
#[tactic(auto, using(crate::proofs::IndexAnswers::end_step, crate::proofs::IndexAnswers::publish_step))]
fn with_field<I: SubIndex>(
    alloc: Global,
    index: &mut I,
    word: &Field,
    field: &Field,
) -> Result<Vec<Fields>, StepFault>
    ensures { IfOk result (λ answers. IndexStep (I.content index.old)
        (word.now ∷ field.now ∷ []) answers.items (I.content index.new)) }
{
    if word.is(b"end") {
        end(alloc, index, field)
    } else if word.is(b"publish") {
        publish(alloc, index, field)
    } else {
        Err(StepFault::Form)
    }
}

// Does a step of a word, a client and a filter.
#[tactic(auto, using(crate::proofs::IndexAnswers::unsubscribe_step))]
fn with_filter<I: SubIndex>(
    alloc: Global,
    index: &mut I,
    word: &Field,
    client: &Field,
    filter: &Field,
) -> Result<Vec<Fields>, StepFault>
    ensures { IfOk result (λ answers. IndexStep (I.content index.old)
        (word.now ∷ client.now ∷ filter.now ∷ []) answers.items (I.content index.new)) }
{
    if word.is(b"unsubscribe") {
        unsubscribe(alloc, index, client, filter)
    } else {
        Err(StepFault::Form)
    }
}

// Does a step of a word, a client, a filter and a QoS.
#[tactic(auto, using(crate::proofs::IndexAnswers::subscribe_step))]
fn with_qos<I: SubIndex>(
    alloc: Global,
    index: &mut I,
    word: &Field,
    client: &Field,
    filter: &Field,
    qos: &Field,
) -> Result<Vec<Fields>, StepFault>
    ensures { IfOk result (λ answers. IndexStep (I.content index.old)
        (word.now ∷ client.now ∷ filter.now ∷ qos.now ∷ []) answers.items
        (I.content index.new)) }
{
    if word.is(b"subscribe") {
        subscribe(alloc, index, client, filter, qos)
    } else {
        Err(StepFault::Form)
    }
}

fn subscribe<I: SubIndex>(
    alloc: Global,
    index: &mut I,
    client: &Field,
    filter: &Field,
    qos: &Field,
) -> Result<Vec<Fields>, StepFault>
    ensures { IfOk result (λ answers. IndexStep (I.content index.old)
        (codes "subscribe" ∷ client.now ∷ filter.now ∷ qos.now ∷ []) answers.items
        (I.content index.new)) }
{
    let client = client_of(alloc, client)?;
    let filter = filter_of(alloc, filter)?;
    let qos = qos_of(qos)?;
    match index.set(&client, &filter, qos) {
        Ok(()) => Ok(Vec::new(alloc)),
        Err(_) => Err(StepFault::Memory),
    }
}

fn unsubscribe<I: SubIndex>(
    alloc: Global,
    index: &mut I,
    client: &Field,
    filter: &Field,
) -> Result<Vec<Fields>, StepFault>
    ensures { IfOk result (λ answers. IndexStep (I.content index.old)
        (codes "unsubscribe" ∷ client.now ∷ filter.now ∷ []) answers.items
        (I.content index.new)) }
{
    let client = client_of(alloc, client)?;
    let filter = filter_of(alloc, filter)?;
    let was_there = index.clear(&client, &filter);
    Ok(only(alloc, yes_or_no(alloc, was_there)?)?)
}

fn end<I: SubIndex>(alloc: Global, index: &mut I, client: &Field) -> Result<Vec<Fields>, StepFault>
    ensures { IfOk result (λ answers. IndexStep (I.content index.old)
        (codes "end" ∷ client.now ∷ []) answers.items (I.content index.new)) }
{
    let client = client_of(alloc, client)?;
    index.drop_client(&client);
    Ok(Vec::new(alloc))
}

fn publish<I: SubIndex>(
    alloc: Global,
    index: &mut I,
    topic: &Field,
) -> Result<Vec<Fields>, StepFault>
    ensures { IfOk result (λ answers. IndexStep (I.content index.old)
        (codes "publish" ∷ topic.now ∷ []) answers.items (I.content index.new)) }
{
    let topic = topic_of(alloc, topic)?;
    let mut grants = Vec::new(alloc);
    match index.granted(&topic, &mut grants) {
        Ok(()) => Ok(grant_answers(alloc, grants.as_slice())?),
        Err(_) => Err(StepFault::Memory),
    }
}

fn grant_answers(alloc: Global, grants: &[(ClientId, QoS)]) -> Result<Vec<Fields>, AllocError>
    ensures { IfOk result (λ answers. answers.items ≡ map grant_fields grants.now) }
{
    let mut answers = Vec::new(alloc);
    append_grants(alloc, grants, &mut answers)?;
    Ok(answers)
}

// Appends the answer of each client.
fn append_grants(
    alloc: Global,
    grants: &[(ClientId, QoS)],
    answers: &mut Vec<Fields>,
) -> Result<(), AllocError>
    ensures { OnOk result (answers.new.items ≡ answers.old.items ++ map grant_fields grants.now) }
{
    if let [(client, qos), rest @ ..] = grants {
        answers.push(grant_fields(alloc, client, *qos)?)?;
        append_grants(alloc, rest, answers)?;
    }
    Ok(())
}

// Returns the answer of a client that gets a publication.
fn grant_fields(alloc: Global, client: &ClientId, qos: QoS) -> Result<Fields, AllocError>
    ensures { IfOk result (λ answer. answer ≡ grant_fields (client.now, qos)) }
{
    let mut answer = Fields::new(alloc);
    answer.text("client")?;
    answer.text(client.as_str())?;
    answer.text("qos")?;
    answer.text(qos_text(qos))?;
    Ok(answer)
}
