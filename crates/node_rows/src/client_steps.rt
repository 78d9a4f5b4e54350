// Steps of a client.

ghost use Rattle.std.specs.Prelude.{◌≡◌, ◌++◌, ◌∷◌, [], IfOk, OnOk, codes, map};
ghost use Rattle.rows.specs.Playing.{Agrees};
ghost use Rattle.client.specs.Core.{new_core, without_accepted};
ghost use Rattle.node_rows.specs.ClientAnswers.{accepted_fields, call_fields, refusal_fields, state_fields};
ghost use Rattle.node_rows.specs.ClientSteps.{ClientAgrees, ClientDoes, StepDoes, without_out};

use crate::accepted::{append_accepted, put_flag};
use crate::answers::put_number;
use crate::client_calls::call;
use client::ClientCore;
use client_base::ClientError;
use packet_base::ClientId;
use rows::{Field, Fields, Line, Outcome, StepFault, Tested, only, play_steps};
use std::alloc::Global;

// How many ways a piece of the server is cut in two: no piece of a row is longer.
const CUTS: usize = 26;

/// A client.
pub(crate) struct Client {
    core: ClientCore,
}

impl Drop for Client {
    fn drop(self) {
        let Client { core: _core } = self;
    }
}

impl Tested for Client {
    ghost use Rattle.node_rows.specs.ClientSteps.{StepDoes};

    ghost Does = { StepDoes };

    fn step(&mut self, alloc: Global, step: &Fields) -> Result<Vec<Fields>, StepFault> {
        match step.as_slice() {
            [word, values @ ..] => Ok(done(alloc, &mut self.core, word, values)?),
            [] => Err(StepFault::Form),
        }
    }
}

// Does a step.
fn done(
    alloc: Global,
    core: &mut ClientCore,
    word: &Field,
    values: &[Field],
) -> Result<Vec<Fields>, StepFault>
    ensures { IfOk result (λ answers.
        ClientDoes core.old (word.now ∷ values.now) answers.items core.new) }
{
    match values {
        [] => done_alone(alloc, core, word),
        _ => called(alloc, core, word, values),
    }
}

// Does a step that is only a word.
#[tactic(auto, using(crate::proofs::ClientStepAnswers::state_step, crate::proofs::ClientStepAnswers::take_step))]
fn done_alone(alloc: Global, core: &mut ClientCore, word: &Field) -> Result<Vec<Fields>, StepFault>
    ensures { IfOk result (λ answers.
        ClientDoes core.old (word.now ∷ []) answers.items core.new) }
{
    if word.is(b"state") {
        Ok(only(alloc, state_fields(alloc, core)?)?)
    } else if word.is(b"take") {
        taken(alloc, core)
    } else {
        called(alloc, core, word, &[])
    }
}

// Makes a call, and takes what was written.
fn called(
    alloc: Global,
    core: &mut ClientCore,
    word: &Field,
    values: &[Field],
) -> Result<Vec<Fields>, StepFault>
    ensures { IfOk result (λ answers.
        ClientDoes core.old (word.now ∷ values.now) answers.items core.new) }
{
    let ended = call(alloc, core, word, values)?;
    let answer = call_fields(alloc, core, ended)?;
    Ok(only(alloc, answer)?)
}

// Returns how a call ended, and takes what was written.
fn call_fields(
    alloc: Global,
    core: &mut ClientCore,
    ended: Result<(), ClientError>,
) -> Result<Fields, StepFault>
    ensures answer { IfOk result (λ answer. answer ≡ call_fields ended core.old) }
    ensures taken { OnOk result (core.new ≡ without_out core.old) }
{
    let kept = core.kept() as u64;
    let accepted = core.accepted().len() as u64;
    let mut answer = Fields::new(alloc);
    put_refusal(ended, &mut answer)?;
    answer.text("wrote")?;
    answer.push(take_written(alloc, core)?)?;
    put_number("kept", kept, &mut answer)?;
    put_number("accepted", accepted, &mut answer)?;
    Ok(answer)
}

// Takes the bytes that were written.
fn take_written(alloc: Global, core: &mut ClientCore) -> Result<Field, StepFault>
    ensures bytes { IfOk result (λ written. written ≡ core.old.out) }
    ensures taken { OnOk result (core.new ≡ without_out core.old) }
{
    let mut out = Vec::new(alloc);
    match core.outgoing(&mut out) {
        Ok(()) => Ok(Field::new(out)),
        Err(_) => Err(StepFault::Memory),
    }
}

fn put_refusal(ended: Result<(), ClientError>, out: &mut Fields) -> Result<(), StepFault>
    ensures { OnOk result (out.new ≡ out.old ++ refusal_fields ended) }
{
    match ended {
        Ok(()) => Ok(()),
        Err(ClientError::Memory) => Err(StepFault::Memory),
        Err(cause) => Ok(put_number("refused", u64::from(cause.number()), out)?),
    }
}

fn state_fields(alloc: Global, core: &ClientCore) -> Result<Fields, StepFault>
    ensures { IfOk result (λ answer. answer ≡ state_fields core.now) }
{
    let mut answer = Fields::new(alloc);
    put_flag("online", core.connected(), &mut answer)?;
    put_flag("present", core.present(), &mut answer)?;
    Ok(answer)
}

// Takes the accepted publications.
fn taken(alloc: Global, core: &mut ClientCore) -> Result<Vec<Fields>, StepFault>
    ensures answers { IfOk result (λ answers.
        answers.items ≡ map accepted_fields core.old.state.accepted) }
    ensures taken { OnOk result (core.new ≡ without_accepted core.old) }
{
    let accepted = core.take_accepted();
    let mut answers = Vec::new(alloc);
    append_accepted(alloc, accepted.as_slice(), &mut answers)?;
    Ok(answers)
}

/// Plays the steps of a client as they are written.
#[tactic(auto, using(crate::proofs::ClientStepAnswers::of_client))]
pub(crate) fn play_whole_client(alloc: Global, steps: &[Line]) -> Outcome
    ensures { result ≡ Outcome.Agrees → ClientAgrees steps.now }
{
    match ClientId::new(alloc, "a") {
        Ok(client) => play_client(alloc, client, steps),
        Err(_) => Outcome::Memory,
    }
}

fn play_client(alloc: Global, client: ClientId, steps: &[Line]) -> Outcome
    ensures { result ≡ Outcome.Agrees
        → Agrees StepDoes (record { core = new_core client 0 }) steps.now }
{
    let mut client = Client {
        core: ClientCore::new(alloc, client, 0),
    };
    let outcome = play_steps(alloc, &mut client, steps);
    drop(client);
    outcome
}

/// Plays the steps as they are written, and then with each piece of the server cut in two, at each
/// index up to 25.
pub(crate) fn play_cut_client(alloc: Global, steps: &[Line]) -> Outcome
    ensures { result ≡ Outcome.Agrees → ClientAgrees steps.now }
{
    let outcome = play_whole_client(alloc, steps);
    if !outcome.is_agreement() {
        return outcome;
    }
    drop(outcome);
    play_in_two(alloc, steps)
}

// Plays the steps with each piece of the server cut in two.
fn play_in_two(alloc: Global, steps: &[Line]) -> Outcome {
    for at in 0..CUTS {
        let outcome = play_cut_at(alloc, steps, at);
        if !outcome.is_agreement() {
            return outcome;
        }
        drop(outcome);
    }
    Outcome::Agrees
}

fn play_cut_at(alloc: Global, steps: &[Line], at: usize) -> Outcome {
    match ClientId::new(alloc, "a") {
        Ok(client) => {
            let core = ClientCore::new(alloc, client, 0);
            let mut client = CutClient { core, at };
            let outcome = play_steps(alloc, &mut client, steps);
            drop(client);
            outcome
        }
        Err(_) => Outcome::Memory,
    }
}

/// A client, each piece for which is cut in two.
struct CutClient {
    core: ClientCore,
    // How many bytes the first part has.
    at: usize,
}

impl Drop for CutClient {
    fn drop(self) {
        let CutClient { core: _core, at: _ } = self;
    }
}

impl Tested for CutClient {
    ghost Does = { λ old step answers new. Unit {0} };

    fn step(&mut self, alloc: Global, step: &Fields) -> Result<Vec<Fields>, StepFault> {
        match step.as_slice() {
            [word, piece] if word.is(b"bytes") => {
                let ended = give_in_two(&mut self.core, piece.as_slice(), self.at);
                Ok(only(alloc, call_fields(alloc, &mut self.core, ended)?)?)
            }
            [word, values @ ..] => Ok(done(alloc, &mut self.core, word, values)?),
            [] => Err(StepFault::Form),
        }
    }
}

// Passes a piece in two parts, the first of this many bytes or of all. Returns the first error.
fn give_in_two(core: &mut ClientCore, piece: &[u8], at: usize) -> Result<(), ClientError> {
    let (front, rest) = piece.split_at(at.min(piece.len()));
    let first = core.on_bytes(front);
    let second = core.on_bytes(rest);
    first.and(second)
}
