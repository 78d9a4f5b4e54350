// Steps of one node: what comes to it, and what it sends then.

ghost use Rattle.std.specs.Prelude.{◌≡◌, ◌++◌, ◌∷◌, [], codes, map, IfOk, OnOk};
ghost use Rattle.links.specs.message_form.Messages.{written};
ghost use Rattle.node_rows.specs.NodeAnswers.{effect_fields, handed_fields, log_fields, stage_text, status_fields};
ghost use Rattle.node_rows.specs.Answers.{lost_answers};
ghost use Rattle.node_rows.specs.NodeSteps.{NodeDoes, TakesItem};

use crate::answers::put_number;
use crate::node_items::{item_of, item_with_value, message_of};
use crate::values::port_of;
use ballot_base::{Effect, Message, Role, Status};
use broker_spec::{Command, Output};
use links::message_form::{WriteFault, write_message};
use rows::{Field, Fields, StepFault, counted, only, word, yes_or_no};
use std::alloc::Global;
use world_base::{Handed, Item, NodeCore};

/// Does a step.
pub(crate) fn done(
    alloc: Global,
    core: &mut NodeCore,
    word: &Field,
    values: &[Field],
) -> Result<Vec<Fields>, StepFault>
    ensures { IfOk result (λ answers.
        NodeDoes core.old (word.now ∷ values.now) answers.items core.new) }
{
    match values {
        [] => done_alone(alloc, core, word),
        [value] => done_with_value(alloc, core, word, value),
        _ => item_done(alloc, core, word, values),
    }
}

// Does a step that is only a word.
#[tactic(auto, using(crate::proofs::StepAnswers::status_step, crate::proofs::StepAnswers::log_step, crate::proofs::StepAnswers::uncut_step))]
fn done_alone(alloc: Global, core: &mut NodeCore, word: &Field) -> Result<Vec<Fields>, StepFault>
    ensures { IfOk result (λ answers. NodeDoes core.old (word.now ∷ []) answers.items core.new) }
{
    if word.is(b"status") {
        Ok(only(alloc, status_fields(alloc, core.status())?)?)
    } else if word.is(b"log") {
        Ok(only(alloc, log_fields(alloc, core)?)?)
    } else if word.is(b"uncut") {
        Ok(only(alloc, yes_or_no(alloc, core.can_cut())?)?)
    } else {
        item_done(alloc, core, word, &[])
    }
}

// Does a step of a word and a value.
#[tactic(auto, using(crate::proofs::StepAnswers::take_step, crate::proofs::StepAnswers::unread_step))]
fn done_with_value(
    alloc: Global,
    core: &mut NodeCore,
    word: &Field,
    value: &Field,
) -> Result<Vec<Fields>, StepFault>
    ensures { IfOk result (λ answers.
        NodeDoes core.old (word.now ∷ value.now ∷ []) answers.items core.new) }
{
    if word.is(b"take") {
        handed_over(alloc, core, value)
    } else if word.is(b"unread") {
        unread_done(alloc, core, value)
    } else {
        let item = item_with_value(alloc, word, value)?;
        Ok(item_taken(alloc, core, item)?)
    }
}

// Takes the item that a step is.
fn item_done(
    alloc: Global,
    core: &mut NodeCore,
    word: &Field,
    values: &[Field],
) -> Result<Vec<Fields>, StepFault>
    ensures { IfOk result (λ answers.
        NodeDoes core.old (word.now ∷ values.now) answers.items core.new) }
{
    let item = item_of(alloc, word, values)?;
    Ok(item_taken(alloc, core, item)?)
}

// Takes an item. Fails with `Memory` if a loss was counted.
fn item_taken(alloc: Global, core: &mut NodeCore, item: Item) -> Result<Vec<Fields>, StepFault>
    ensures { IfOk result (λ answers. TakesItem core.old item answers.items core.new) }
{
    let before = core.losses();
    let mut given = Vec::new(alloc);
    core.step(item, &mut given);
    if core.losses() != before {
        return Err(StepFault::Memory);
    }
    Ok(effect_answers(alloc, given.as_slice())?)
}

// Takes a message whose snapshot is none: whether a loss was counted.
fn unread_done(alloc: Global, core: &mut NodeCore, bytes: &Field) -> Result<Vec<Fields>, StepFault>
    ensures { IfOk result (λ answers.
        NodeDoes core.old (codes "unread" ∷ bytes.now ∷ []) answers.items core.new) }
{
    let message = message_of(alloc, bytes.as_slice())?;
    let before = core.losses();
    let mut given = Vec::new(alloc);
    core.step(Item::Peer(message), &mut given);
    let is_lost = core.losses() != before;
    Ok(told_answers(alloc, given.as_slice(), is_lost)?)
}

// Returns the answers that are these effects, and `lost` after them if it is so.
fn told_answers(
    alloc: Global,
    given: &[Effect<Command, Output>],
    is_lost: bool,
) -> Result<Vec<Fields>, StepFault>
    ensures { IfOk result (λ answers.
        answers.items ≡ map effect_fields given.now ++ lost_answers is_lost) }
{
    let mut answers = effect_answers(alloc, given)?;
    if is_lost {
        answers.push(word(alloc, "lost")?)?;
    }
    Ok(answers)
}

/// Returns the answers that are these effects.
pub(crate) fn effect_answers(
    alloc: Global,
    given: &[Effect<Command, Output>],
) -> Result<Vec<Fields>, StepFault>
    ensures { IfOk result (λ answers. answers.items ≡ map effect_fields given.now) }
{
    let mut answers = Vec::new(alloc);
    append_effects(alloc, given, &mut answers)?;
    Ok(answers)
}

// Appends the answer of each effect.
fn append_effects(
    alloc: Global,
    given: &[Effect<Command, Output>],
    answers: &mut Vec<Fields>,
) -> Result<(), StepFault>
    ensures { OnOk result (answers.new.items ≡ answers.old.items ++ map effect_fields given.now) }
{
    if let [effect, rest @ ..] = given {
        answers.push(effect_fields(alloc, effect)?)?;
        append_effects(alloc, rest, answers)?;
    }
    Ok(())
}

fn effect_fields(alloc: Global, effect: &Effect<Command, Output>) -> Result<Fields, StepFault>
    ensures { IfOk result (λ answer. answer ≡ effect_fields effect.now) }
{
    match effect {
        Effect::To(receiver, message) => {
            let mut answer = counted(alloc, "to", u64::from(*receiver))?;
            answer.push(written(alloc, message)?)?;
            Ok(answer)
        }
        Effect::Out(place, _) => Ok(counted(alloc, "out", *place)?),
    }
}

// Returns the bytes of a message.
fn written(alloc: Global, message: &Message<Command>) -> Result<Field, StepFault>
    ensures { IfOk result (λ bytes. bytes ≡ written message.now) }
{
    let mut bytes = Vec::new(alloc);
    match write_message(message, &mut bytes) {
        Ok(()) => Ok(Field::new(bytes)),
        Err(WriteFault::TooLarge) => Err(StepFault::Form),
        Err(WriteFault::Memory) => Err(StepFault::Memory),
    }
}

// Takes what a node has for a port.
#[tactic(auto, using(crate::proofs::StepAnswers::take_gives))]
fn handed_over(alloc: Global, core: &mut NodeCore, port: &Field) -> Result<Vec<Fields>, StepFault>
    ensures { IfOk result (λ answers.
        NodeDoes core.old (codes "take" ∷ port.now ∷ []) answers.items core.new) }
{
    let port = port_of(port)?;
    let mut bytes = Vec::new(alloc);
    match core.outgoing(port, &mut bytes) {
        Ok(handed) => Ok(only(alloc, handed_fields(alloc, handed, bytes)?)?),
        Err(_) => Err(StepFault::Memory),
    }
}

fn handed_fields(alloc: Global, handed: Handed, bytes: Vec<u8>) -> Result<Fields, StepFault>
    ensures { IfOk result (λ answer. answer ≡ handed_fields handed bytes.items) }
{
    let mut answer = word(
        alloc,
        if handed == Handed::Open {
            "open"
        } else {
            "closed"
        },
    )?;
    answer.push(Field::new(bytes))?;
    Ok(answer)
}

fn status_fields(alloc: Global, status: Status) -> Result<Fields, StepFault>
    ensures { IfOk result (λ answer. answer ≡ status_fields status) }
{
    let mut answer = counted(alloc, "ballot", status.ballot)?;
    answer.text(stage_text(status))?;
    put_number("held", status.held, &mut answer)?;
    put_number("committed", status.committed, &mut answer)?;
    Ok(answer)
}

// Returns the word of a role; `stopped` once a replica has stopped.
fn stage_text(status: Status) -> &'static str
    ensures { result.now ≡ stage_text status }
{
    match status.role {
        _ if status.stopped => "stopped",
        Role::Backup => "backup",
        Role::Fetching => "fetching",
        Role::Installing => "installing",
        Role::Active => "active",
    }
}

fn log_fields(alloc: Global, core: &NodeCore) -> Result<Fields, StepFault>
    ensures { IfOk result (λ answer. answer ≡ log_fields core.now.core.replica.state.log) }
{
    let (base, snapshot) = core.snapshot();
    let mut answer = counted(alloc, "base", base)?;
    answer.text("snapshot")?;
    answer.bytes(snapshot)?;
    put_number("commands", core.rest().len() as u64, &mut answer)?;
    Ok(answer)
}
