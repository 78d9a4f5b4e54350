// The event that a step is.

ghost use Rattle.std.specs.Prelude.{◌≡◌, ◌∷◌, [], IfOk};
ghost use Rattle.node_rows.specs.Events.{Events};

use crate::values::{config_of, node_of, number_of};
use machine::TallyCommand;
use master::Event;
use rows::{Field, StepFault};
use std::alloc::Global;

/// Returns the event of this word, with these values.
pub(crate) fn event_of(
    alloc: Global,
    word: &Field,
    values: &[Field],
) -> Result<Event<TallyCommand>, StepFault>
    ensures { IfOk result (Events (word.now ∷ values.now)) }
{
    match values {
        [value] => event_with_value(word, value),
        [members, primary] if word.is(b"assign") => assigned(alloc, word, members, primary),
        [node, number] => proposed(word, node, number),
        _ => Err(StepFault::Form),
    }
}

/// Returns the event of this word, with this value.
#[tactic(auto, using(crate::proofs::EventAnswers::deliver_event, crate::proofs::EventAnswers::tick_event, crate::proofs::EventAnswers::cut_event, crate::proofs::EventAnswers::crash_event))]
pub(crate) fn event_with_value(
    word: &Field,
    value: &Field,
) -> Result<Event<TallyCommand>, StepFault>
    ensures { IfOk result (Events (word.now ∷ value.now ∷ [])) }
{
    if word.is(b"deliver") {
        Ok(Event::Deliver(number_of(value)?))
    } else if word.is(b"tick") {
        Ok(Event::Tick(node_of(value)?))
    } else if word.is(b"cut") {
        Ok(Event::Cut(node_of(value)?))
    } else if word.is(b"crash") {
        Ok(Event::Crash(node_of(value)?))
    } else {
        Err(StepFault::Form)
    }
}

#[tactic(auto, using(crate::proofs::EventAnswers::add_event, crate::proofs::EventAnswers::start_event))]
fn proposed(word: &Field, node: &Field, number: &Field) -> Result<Event<TallyCommand>, StepFault>
    ensures { IfOk result (Events (word.now ∷ node.now ∷ number.now ∷ [])) }
{
    let node = node_of(node)?;
    let number = number_of(number)?;
    if word.is(b"add") {
        Ok(Event::Propose(node, TallyCommand::Add(number)))
    } else if word.is(b"start") {
        Ok(Event::Propose(node, TallyCommand::Start(number)))
    } else {
        Err(StepFault::Form)
    }
}

#[tactic(auto, using(crate::proofs::EventAnswers::assign_event))]
fn assigned(
    alloc: Global,
    word: &Field,
    members: &Field,
    primary: &Field,
) -> Result<Event<TallyCommand>, StepFault>
    ensures { IfOk result (Events (word.now ∷ members.now ∷ primary.now ∷ [])) }
{
    if word.is(b"assign") {
        Ok(Event::Assign(config_of(alloc, members, primary)?))
    } else {
        Err(StepFault::Form)
    }
}
