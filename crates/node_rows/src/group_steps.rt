// Steps of a group of nodes that add numbers.

ghost use Rattle.std.specs.Prelude.{◌≡◌, ◌∷◌, [], codes, slice_get, IfOk};
ghost use Rattle.rows.specs.Playing.{Agrees};
ghost use Rattle.node_rows.specs.GroupAnswers.{alone, members_fields, message_fields, output_fields};
ghost use Rattle.node_rows.specs.GroupSteps.{AreShown, AreCounts, GroupAgrees, GroupDoes, LetsHappen, OpensGroup, StepDoes, opened_group};

use crate::answers::put_number;
use crate::group_events::{event_of, event_with_value};
use crate::group_messages::{append_commands, message_fields, put_members};
use crate::openings::outcome_of;
use crate::values::{config_of, node_of, number_of};
use ballot_base::errors::OpeningError;
use ballot_base::{Config, Effect};
use machine::{Tally, TallyCommand};
use master::{Event, Group};
use rows::{Field, Fields, Line, Outcome, StepFault, Tested, counted, only, play_steps};
use std::alloc::Global;

/// A group of nodes.
pub(crate) struct Nodes {
    group: Group<Tally>,
}

impl Drop for Nodes {
    fn drop(self) {
        let Nodes { group: _group } = self;
    }
}

impl Tested for Nodes {
    ghost use Rattle.node_rows.specs.GroupSteps.{StepDoes};

    ghost Does = { StepDoes };

    fn step(&mut self, alloc: Global, step: &Fields) -> Result<Vec<Fields>, StepFault> {
        match step.as_slice() {
            [word, values @ ..] => done(alloc, &mut self.group, word, values),
            [] => Err(StepFault::Form),
        }
    }
}

/// Plays the steps of a group, of which the first opens it.
pub(crate) fn play_group(alloc: Global, steps: &[Line]) -> Outcome
    ensures { result ≡ Outcome.Agrees → GroupAgrees steps.now }
{
    match steps {
        [] => Outcome::Malformed(0),
        [first, rest @ ..] => match opened(alloc, &first.fields) {
            Ok(group) => play_opened(alloc, group, rest),
            Err(fault) => outcome_of(first.number, fault),
        },
    }
}

fn play_opened(alloc: Global, group: Group<Tally>, steps: &[Line]) -> Outcome
    ensures { result ≡ Outcome.Agrees
        → Agrees StepDoes (record { group = group }) steps.now }
{
    let mut nodes = Nodes { group };
    let outcome = play_steps(alloc, &mut nodes, steps);
    drop(nodes);
    outcome
}

// Returns the group that a step opens. Fails with `Form` if it does not open.
fn opened(alloc: Global, step: &Fields) -> Result<Group<Tally>, StepFault>
    ensures { IfOk result (OpensGroup step.now) }
{
    match step.as_slice() {
        [word, nodes, members, primary] => opened_by(alloc, word, nodes, members, primary),
        _ => Err(StepFault::Form),
    }
}

#[tactic(auto, using(crate::proofs::GroupStepAnswers::group_opens))]
fn opened_by(
    alloc: Global,
    word: &Field,
    nodes: &Field,
    members: &Field,
    primary: &Field,
) -> Result<Group<Tally>, StepFault>
    ensures { IfOk result (OpensGroup
        (word.now ∷ nodes.now ∷ members.now ∷ primary.now ∷ [])) }
{
    if !word.is(b"open") {
        return Err(StepFault::Form);
    }
    let nodes = node_of(nodes)?;
    let config = config_of(alloc, members, primary)?;
    Ok(opened_with(alloc, nodes, config)?)
}

fn opened_with(alloc: Global, nodes: u8, config: Config) -> Result<Group<Tally>, StepFault>
    ensures { IfOk result (λ group. group ≡ opened_group nodes config) }
{
    match Group::opening(alloc, nodes, config.members, config.primary) {
        Ok(group) => Ok(group),
        Err(OpeningError::BadMembers) => Err(StepFault::Form),
        Err(OpeningError::Memory) => Err(StepFault::Memory),
    }
}

// Does a step.
fn done(
    alloc: Global,
    group: &mut Group<Tally>,
    word: &Field,
    values: &[Field],
) -> Result<Vec<Fields>, StepFault>
    ensures { IfOk result (λ answers.
        GroupDoes group.old (word.now ∷ values.now) answers.items group.new) }
{
    match values {
        [] => shown(alloc, group, word),
        [value] => done_with_value(alloc, group, word, value),
        _ => event_done(alloc, group, word, values),
    }
}

// Does a step of a word and a value.
fn done_with_value(
    alloc: Global,
    group: &mut Group<Tally>,
    word: &Field,
    value: &Field,
) -> Result<Vec<Fields>, StepFault>
    ensures { IfOk result (λ answers.
        GroupDoes group.old (word.now ∷ value.now ∷ []) answers.items group.new) }
{
    if word.is(b"message") {
        let number = number_of(value)?;
        Ok(message_at(alloc, group, number)?)
    } else if word.is(b"output") {
        let index = number_of(value)?;
        Ok(output_at(alloc, group, index)?)
    } else {
        let event = event_with_value(word, value)?;
        Ok(happened(alloc, group, event)?)
    }
}

// Lets the event happen that a step is.
fn event_done(
    alloc: Global,
    group: &mut Group<Tally>,
    word: &Field,
    values: &[Field],
) -> Result<Vec<Fields>, StepFault>
    ensures { IfOk result (λ answers.
        GroupDoes group.old (word.now ∷ values.now) answers.items group.new) }
{
    let event = event_of(alloc, word, values)?;
    Ok(happened(alloc, group, event)?)
}

// Lets an event happen. Fails with `Memory` if a loss was counted.
fn happened(
    alloc: Global,
    group: &mut Group<Tally>,
    event: Event<TallyCommand>,
) -> Result<Vec<Fields>, StepFault>
    ensures { IfOk result (λ answers.
        LetsHappen group.old event answers.items group.new) }
{
    let before = group.losses();
    let happens = group.step(&event).is_ok();
    drop(event);
    if group.losses() != before {
        return Err(StepFault::Memory);
    }
    if happens {
        Ok(only(alloc, count_fields(alloc, group)?)?)
    } else {
        Ok(only(alloc, rows::word(alloc, "idle")?)?)
    }
}

fn count_fields(alloc: Global, group: &Group<Tally>) -> Result<Fields, StepFault>
    ensures { IfOk result (AreCounts group.now) }
{
    let mut counts = counted(alloc, "sent", group.sent().len() as u64)?;
    put_number("left", group.left().len() as u64, &mut counts)?;
    put_number("agreed", group.agreed_len(), &mut counts)?;
    Ok(counts)
}

// Returns a message that was sent.
fn message_at(alloc: Global, group: &Group<Tally>, number: u64) -> Result<Vec<Fields>, StepFault>
    ensures { IfOk result (λ answers. answers.items
        ≡ alone message_fields (slice_get group.now.moment.world.sent number)) }
{
    match group.sent().get(number as usize) {
        Some((receiver, message)) => {
            Ok(only(alloc, message_fields(alloc, *receiver, message)?)?)
        }
        None => Ok(Vec::new(alloc)),
    }
}

// Returns an output that left.
fn output_at(alloc: Global, group: &Group<Tally>, number: u64) -> Result<Vec<Fields>, StepFault>
    ensures { IfOk result (λ answers. answers.items
        ≡ alone output_fields (slice_get group.now.moment.world.left number)) }
{
    match group.left().get(number as usize) {
        Some(Effect::Out(place, total)) => {
            let mut answer = counted(alloc, "place", *place)?;
            put_number("total", *total, &mut answer)?;
            Ok(only(alloc, answer)?)
        }
        _ => Ok(Vec::new(alloc)),
    }
}

// Shows something of a group.
#[tactic(auto, using(crate::proofs::GroupStepAnswers::active_step))]
fn shown(alloc: Global, group: &mut Group<Tally>, word: &Field) -> Result<Vec<Fields>, StepFault>
    ensures { IfOk result (λ answers.
        GroupDoes group.old (word.now ∷ []) answers.items group.new) }
{
    if word.is(b"active") {
        active(alloc, group)
    } else if word.is(b"agreed") {
        Ok(agreed(alloc, group)?)
    } else {
        Err(StepFault::Form)
    }
}

fn active(alloc: Global, group: &Group<Tally>) -> Result<Vec<Fields>, StepFault>
    ensures { IfOk result (λ answers. answers.items ≡ members_fields (codes "active")
        group.now.moment.master.active group.now.moment.master.members ∷ []) }
{
    let (ballot, members) = group.active();
    let mut answer = Fields::new(alloc);
    put_members("active", ballot, members, &mut answer)?;
    Ok(only(alloc, answer)?)
}

fn agreed(alloc: Global, group: &Group<Tally>) -> Result<Vec<Fields>, StepFault>
    ensures { IfOk result (λ answers. AreShown group.now.moment answers.items) }
{
    let (recorded, kept) = group.agreed();
    let mut answers = Vec::new(alloc);
    append_commands(alloc, recorded, &mut answers)?;
    append_commands(alloc, kept, &mut answers)?;
    Ok(answers)
}
