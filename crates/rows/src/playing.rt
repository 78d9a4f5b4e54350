// Playing the steps of a row.

ghost use Rattle.std.specs.Prelude.{◌≡◌, ◌≤◌, ◌↔◌, List, ℕ, length, IfOk, IsTrue};
ghost use Rattle.rows.specs.Playing.{Agrees, answers_at, after_answers, are_answers, is_answer};
ghost use Rattle.rows.specs.Playing.{answers_len, is_answered_by, are_equal};

use crate::error::StepFault;
use crate::fields::Fields;
use crate::line::Line;
use std::alloc::Global;

/// What the steps of a row are done to.
pub trait Tested {
    // A step, what it does to the value, and its answers.
    ghost Does: { Self → List (List ℕ) → List (List (List ℕ)) → Self → Type 0 };

    /// Does a step and returns its answers. Fails with `Form` if it is no step.
    fn step(&mut self, alloc: Global, step: &Fields) -> Result<Vec<Fields>, StepFault>
        ensures { IfOk result (λ answers. Does self.old step.now answers.items self.new) };
}

/// What came of a row.
pub enum Outcome {
    /// Each step was answered as the row says.
    Agrees,
    /// The step of the line of this number got these answers instead.
    Differs(u64, Vec<Fields>),
    /// The bytes of the row, cut otherwise, got these answers instead.
    DiffersCut(Cut, Vec<Fields>),
    /// The step of the line of this number is malformed.
    Malformed(u64),
    /// Memory ran out.
    Memory,
}

/// How the bytes of a row were cut into pieces.
#[derive(Clone, Copy)]
pub enum Cut {
    /// In two, at this index.
    At(usize),
    /// Byte by byte.
    EachByte,
}

impl Outcome {
    /// Returns true if each step was answered as the row says.
    pub fn is_agreement(&self) -> bool
        ensures { IsTrue result ↔ (self.now ≡ Outcome.Agrees) }
    {
        match self {
            Outcome::Agrees => true,
            _ => false,
        }
    }
}

impl Drop for Outcome {
    fn drop(self) {
        match self {
            Outcome::Agrees | Outcome::Malformed(_) | Outcome::Memory => {}
            Outcome::Differs(_, answers) | Outcome::DiffersCut(_, answers) => drop(answers),
        }
    }
}

/// Does the steps of a row, of which these lines are left, and compares their answers with those of
/// the row.
#[tactic(auto, using(crate::proofs::Compared::no_steps, crate::proofs::Compared::step_more))]
pub fn play_steps<T: Tested>(alloc: Global, tested: &mut T, lines: &[Line]) -> Outcome
    ensures { result ≡ Outcome.Agrees → Agrees T.Does tested.old lines.now }
{
    match lines {
        [] => Outcome::Agrees,
        [step, after @ ..] => {
            let (wanted, rest) = split_answers(after);
            let answers = match tested.step(alloc, &step.fields) {
                Ok(answers) => answers,
                Err(StepFault::Form) => return Outcome::Malformed(step.number),
                Err(StepFault::Memory) => return Outcome::Memory,
            };
            if !are_answers(answers.as_slice(), wanted) {
                return Outcome::Differs(step.number, answers);
            }
            drop(answers);
            play_steps(alloc, tested, rest)
        }
    }
}

/// Returns the answers at the front of these lines, and the lines after them.
pub(crate) fn split_answers(lines: &[Line]) -> (&[Line], &[Line])
    ensures answers { result.0.now ≡ answers_at lines.now }
    ensures rest { result.1.now ≡ after_answers lines.now }
    ensures shorter { length result.1.now ≤ length lines.now }
{
    lines.split_at(answers_len(lines))
}

// Returns how many answers are at the front.
fn answers_len(lines: &[Line]) -> usize
    ensures exact { result ≡ answers_len lines.now }
    ensures within { result ≤ length lines.now }
{
    match lines {
        [line, rest @ ..] if is_answer(line) => 1 + answers_len(rest),
        _ => 0,
    }
}

// Returns true if the first field of a line is `=`.
fn is_answer(line: &Line) -> bool
    ensures { result ≡ is_answer line.now }
{
    match line.fields.as_slice() {
        [first, ..] => first.is(b"="),
        [] => false,
    }
}

// Returns true if the lines are the answers, each after `=`.
#[tactic(auto, using(crate::proofs::Compared::answers_without_lines))]
fn are_answers(answers: &[Fields], lines: &[Line]) -> bool
    ensures { result ≡ are_answers answers.now lines.now }
{
    match (answers, lines) {
        ([], []) => true,
        ([], [_, ..]) => false,
        ([_, ..], []) => false,
        ([answer, answers @ ..], [line, lines @ ..]) => {
            is_answered_by(line, answer) && are_answers(answers, lines)
        }
    }
}

// Returns true if a line is `=` and then the answer.
fn is_answered_by(line: &Line, answer: &Fields) -> bool
    ensures { result ≡ is_answered_by line.now answer.now }
{
    match line.fields.as_slice() {
        [first, fields @ ..] => first.is(b"=") && answer.are(fields),
        [] => false,
    }
}

/// Returns true if both are the same answers.
#[tactic(auto, using(crate::proofs::Compared::answers_beside_none))]
pub fn are_equal(answers: &[Fields], others: &[Fields]) -> bool
    ensures { result ≡ are_equal answers.now others.now }
{
    match (answers, others) {
        ([], []) => true,
        ([], [_, ..]) => false,
        ([_, ..], []) => false,
        ([answer, answers @ ..], [other, others @ ..]) => {
            answer.are(other.as_slice()) && are_equal(answers, others)
        }
    }
}
