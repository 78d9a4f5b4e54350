// A node whose pieces are cut in two, or come byte by byte: no answer may differ.

ghost use Rattle.std.specs.Prelude.{◌≡◌};
ghost use Rattle.node_rows.specs.NodeSteps.{NodeAgrees};

use crate::node_items::piece_of;
use crate::node_steps::{done, effect_answers};
use crate::openings::{opened, outcome_of, play_whole};
use crate::values::{number_of, port_of};
use ballot_base::Effect;
use broker_spec::{Command, Output};
use rows::{Cut, Fields, Line, Outcome, StepFault, Tested, play_steps};
use std::alloc::Global;
use world_base::{Item, NodeCore, Port};

/// Plays the steps of a node as they are written; then with each piece cut in two, at each index up
/// to this one; then with pieces byte by byte.
pub(crate) fn play_cut(alloc: Global, steps: &[Line], most: usize) -> Outcome
    ensures { result ≡ Outcome.Agrees → NodeAgrees steps.now }
{
    let outcome = play_whole(alloc, steps);
    if !outcome.is_agreement() {
        return outcome;
    }
    drop(outcome);
    play_in_two(alloc, steps, longest(steps).min(most))
}

fn play_in_two(alloc: Global, steps: &[Line], most: usize) -> Outcome {
    for at in 0..=most {
        let outcome = play_so(alloc, steps, Cut::At(at));
        if !outcome.is_agreement() {
            return outcome;
        }
        drop(outcome);
    }
    play_so(alloc, steps, Cut::EachByte)
}

// Returns how many bytes the longest last field of the steps has.
fn longest(steps: &[Line]) -> usize {
    let mut longest: usize = 0;
    for step in steps {
        if let [.., last] = step.fields.as_slice() {
            longest = longest.max(last.as_slice().len());
        }
    }
    longest
}

fn play_so(alloc: Global, steps: &[Line], cut: Cut) -> Outcome {
    match steps {
        [] => Outcome::Malformed(0),
        [first, rest @ ..] => match opened(alloc, &first.fields) {
            Ok(core) => play_opened_so(alloc, core, rest, cut),
            Err(fault) => outcome_of(first.number, fault),
        },
    }
}

fn play_opened_so(alloc: Global, core: NodeCore, steps: &[Line], cut: Cut) -> Outcome {
    let mut node = CutNode { core, cut };
    let outcome = play_steps(alloc, &mut node, steps);
    drop(node);
    outcome
}

// A node whose pieces come so.
struct CutNode {
    core: NodeCore,
    cut: Cut,
}

impl Drop for CutNode {
    fn drop(self) {
        let CutNode {
            core: _core,
            cut: _,
        } = self;
    }
}

impl Tested for CutNode {
    ghost Does = { λ old step answers new. Unit {0} };

    fn step(&mut self, alloc: Global, step: &Fields) -> Result<Vec<Fields>, StepFault> {
        match step.as_slice() {
            [word, port, time, bytes] if word.is(b"bytes") => {
                let port = port_of(port)?;
                let time = number_of(time)?;
                pieces_taken(
                    alloc,
                    &mut self.core,
                    port,
                    time,
                    bytes.as_slice(),
                    self.cut,
                )
            }
            [word, values @ ..] => done(alloc, &mut self.core, word, values),
            [] => Err(StepFault::Form),
        }
    }
}

// Takes a piece as it is cut.
fn pieces_taken(
    alloc: Global,
    core: &mut NodeCore,
    port: Port,
    time: u64,
    bytes: &[u8],
    cut: Cut,
) -> Result<Vec<Fields>, StepFault> {
    let before = core.losses();
    let mut given = Vec::new(alloc);
    match cut {
        Cut::At(at) => {
            let (front, rest) = bytes.split_at(at.min(bytes.len()));
            take(alloc, core, port, time, front, &mut given)?;
            take(alloc, core, port, time, rest, &mut given)?;
        }
        Cut::EachByte => take_each(alloc, core, port, time, bytes, &mut given)?,
    }
    if core.losses() != before {
        return Err(StepFault::Memory);
    }
    effect_answers(alloc, given.as_slice())
}

fn take_each(
    alloc: Global,
    core: &mut NodeCore,
    port: Port,
    time: u64,
    bytes: &[u8],
    given: &mut Vec<Effect<Command, Output>>,
) -> Result<(), StepFault> {
    for byte in bytes {
        take(alloc, core, port, time, &[*byte], given)?;
    }
    Ok(())
}

// Takes one piece.
fn take(
    alloc: Global,
    core: &mut NodeCore,
    port: Port,
    time: u64,
    bytes: &[u8],
    given: &mut Vec<Effect<Command, Output>>,
) -> Result<(), StepFault> {
    let piece = piece_of(alloc, bytes)?;
    core.step(Item::Bytes(port, piece, time), given);
    Ok(())
}
