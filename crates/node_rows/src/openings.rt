// Opening a node; and a node that is played with its pieces as a row has them.

ghost use Rattle.std.specs.Prelude.{◌≡◌, ◌∷◌, [], IfOk};
ghost use Rattle.rows.specs.Playing.{Agrees};
ghost use Rattle.node_rows.specs.NodeSteps.{NodeAgrees, StepDoes};
ghost use Rattle.node_rows.specs.Openings.{IsAnswered, IsGroupAnswered, OpeningStep, OpeningsAgree, Opens, opened_core};

use crate::node_steps::done;
use crate::values::{config_of, node_of};
use ballot_base::errors::OpeningError;
use ballot_base::{Config, MAX_NUMBER};
use machine::Tally;
use master::Group;
use rows::{Field, Fields, Line, Outcome, StepFault, Tested, only, play_steps, word};
use std::alloc::Global;
use world_base::NodeCore;

/// A node.
pub(crate) struct Node {
    core: NodeCore,
}

impl Drop for Node {
    fn drop(self) {
        let Node { core: _core } = self;
    }
}

impl Tested for Node {
    ghost use Rattle.node_rows.specs.NodeSteps.{StepDoes};

    ghost Does = { StepDoes };

    fn step(&mut self, alloc: Global, step: &Fields) -> Result<Vec<Fields>, StepFault> {
        match step.as_slice() {
            [word, values @ ..] => done(alloc, &mut self.core, word, values),
            [] => Err(StepFault::Form),
        }
    }
}

/// Plays the steps of a node, of which the first opens it.
pub(crate) fn play_whole(alloc: Global, steps: &[Line]) -> Outcome
    ensures { result ≡ Outcome.Agrees → NodeAgrees steps.now }
{
    match steps {
        [] => Outcome::Malformed(0),
        [first, rest @ ..] => match opened(alloc, &first.fields) {
            Ok(core) => play_opened(alloc, core, rest),
            Err(fault) => outcome_of(first.number, fault),
        },
    }
}

fn play_opened(alloc: Global, core: NodeCore, steps: &[Line]) -> Outcome
    ensures { result ≡ Outcome.Agrees
        → Agrees StepDoes (record { core = core }) steps.now }
{
    let mut node = Node { core };
    let outcome = play_steps(alloc, &mut node, steps);
    drop(node);
    outcome
}

/// Returns what comes of a row, the step of whose line of this number was not done.
pub(crate) fn outcome_of(number: u64, fault: StepFault) -> Outcome
    ensures { result ≡ Outcome.Agrees → ⊥ }
{
    match fault {
        StepFault::Form => Outcome::Malformed(number),
        StepFault::Memory => Outcome::Memory,
    }
}

/// Returns the node that a step opens. Fails with `Form` if it does not open.
pub(crate) fn opened(alloc: Global, step: &Fields) -> Result<NodeCore, StepFault>
    ensures { IfOk result (Opens step.now) }
{
    match step.as_slice() {
        [word, greatest, node, members, primary] => {
            opened_by(alloc, word, greatest, node, members, primary)
        }
        _ => Err(StepFault::Form),
    }
}

#[tactic(auto, using(crate::proofs::OpeningAnswers::node_opens))]
fn opened_by(
    alloc: Global,
    word: &Field,
    greatest: &Field,
    node: &Field,
    members: &Field,
    primary: &Field,
) -> Result<NodeCore, StepFault>
    ensures { IfOk result (Opens
        (word.now ∷ greatest.now ∷ node.now ∷ members.now ∷ primary.now ∷ [])) }
{
    if !word.is(b"open") {
        return Err(StepFault::Form);
    }
    let greatest = node_of(greatest)?;
    let node = node_of(node)?;
    let config = config_of(alloc, members, primary)?;
    Ok(opened_up_to(alloc, greatest, node, &config)?)
}

fn opened_up_to(
    alloc: Global,
    greatest: u8,
    node: u8,
    config: &Config,
) -> Result<NodeCore, StepFault>
    ensures { IfOk result (λ core. core ≡ opened_core node config.now) }
{
    if node == 0 || node > greatest || greatest > MAX_NUMBER {
        return Err(StepFault::Form);
    }
    match NodeCore::up_to(alloc, greatest, node, config) {
        Ok(core) => Ok(core),
        Err(OpeningError::BadMembers) => Err(StepFault::Form),
        Err(OpeningError::Memory) => Err(StepFault::Memory),
    }
}

/// Nodes and groups that are opened, each for itself.
#[derive(Clone, Copy)]
struct Openings;

impl Tested for Openings {
    ghost use Rattle.node_rows.specs.Openings.{OpeningDoes};

    ghost Does = { OpeningDoes };

    fn step(&mut self, alloc: Global, step: &Fields) -> Result<Vec<Fields>, StepFault> {
        match step.as_slice() {
            [word, greatest, node, members, primary] => {
                node_opening(alloc, word, greatest, node, members, primary)
            }
            [word, nodes, members, primary] => group_opening(alloc, word, nodes, members, primary),
            _ => Err(StepFault::Form),
        }
    }
}

#[tactic(auto, using(crate::proofs::OpeningAnswers::opening_step))]
fn node_opening(
    alloc: Global,
    word: &Field,
    greatest: &Field,
    node: &Field,
    members: &Field,
    primary: &Field,
) -> Result<Vec<Fields>, StepFault>
    ensures { IfOk result (λ answers. OpeningStep
        (word.now ∷ greatest.now ∷ node.now ∷ members.now ∷ primary.now ∷ []) answers.items) }
{
    if !word.is(b"open") {
        return Err(StepFault::Form);
    }
    let greatest = node_of(greatest)?;
    let node = node_of(node)?;
    let config = config_of(alloc, members, primary)?;
    Ok(answered(alloc, greatest, node, &config)?)
}

#[tactic(auto, using(crate::proofs::OpeningAnswers::group_step))]
fn group_opening(
    alloc: Global,
    word: &Field,
    nodes: &Field,
    members: &Field,
    primary: &Field,
) -> Result<Vec<Fields>, StepFault>
    ensures { IfOk result (λ answers. OpeningStep
        (word.now ∷ nodes.now ∷ members.now ∷ primary.now ∷ []) answers.items) }
{
    if !word.is(b"group") {
        return Err(StepFault::Form);
    }
    let nodes = node_of(nodes)?;
    let config = config_of(alloc, members, primary)?;
    Ok(group_answered(alloc, nodes, config)?)
}

// Returns whether a node opens.
fn answered(
    alloc: Global,
    greatest: u8,
    node: u8,
    config: &Config,
) -> Result<Vec<Fields>, StepFault>
    ensures { IfOk result (λ answers. IsAnswered greatest config.now answers.items) }
{
    if node == 0 || node > greatest || greatest > MAX_NUMBER {
        return Err(StepFault::Form);
    }
    match NodeCore::up_to(alloc, greatest, node, config) {
        Ok(_) => Ok(only(alloc, word(alloc, "opened")?)?),
        Err(OpeningError::BadMembers) => Ok(only(alloc, word(alloc, "refused")?)?),
        Err(OpeningError::Memory) => Err(StepFault::Memory),
    }
}

// Returns whether a group opens.
fn group_answered(alloc: Global, nodes: u8, config: Config) -> Result<Vec<Fields>, StepFault>
    ensures { IfOk result (λ answers. IsGroupAnswered nodes config answers.items) }
{
    match Group::<Tally>::opening(alloc, nodes, config.members, config.primary) {
        Ok(_) => Ok(only(alloc, word(alloc, "opened")?)?),
        Err(OpeningError::BadMembers) => Ok(only(alloc, word(alloc, "refused")?)?),
        Err(OpeningError::Memory) => Err(StepFault::Memory),
    }
}

/// Plays steps, each of which opens a node or a group.
#[tactic(auto, using(crate::proofs::OpeningAnswers::openings_agree))]
pub(crate) fn play_openings(alloc: Global, steps: &[Line]) -> Outcome
    ensures { result ≡ Outcome.Agrees → OpeningsAgree steps.now }
{
    let mut nodes = Openings;
    play_steps(alloc, &mut nodes, steps)
}
