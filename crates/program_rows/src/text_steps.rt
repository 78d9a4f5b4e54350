// Steps of a row that writes a text, and asks what it is.

ghost use Rattle.std.specs.Prelude.{◌≡◌, ◌++◌, ◌∷◌, [], IfOk, OnOk};
ghost use Rattle.program_rows.specs.TextSteps.{Asked, IsCount, TextAgrees, Writes, joined};

use crate::answers::only;
use crate::script_steps::{amid_answer, first_answer, read_answers};
use crate::table_steps::{append_nodes, table_answer};
use rows::{Field, Fields, Line, Outcome, StepFault, Tested, play_steps};
use std::alloc::Global;

/// A text that the steps write.
pub(crate) struct Written {
    text: Vec<u8>,
}

impl Drop for Written {
    fn drop(self) {
        let Written { text: _text } = self;
    }
}

impl Tested for Written {
    ghost use Rattle.program_rows.specs.TextSteps.{StepDoes};

    ghost Does = { StepDoes };

    fn step(&mut self, alloc: Global, step: &Fields) -> Result<Vec<Fields>, StepFault> {
        match step.as_slice() {
            [word, fields @ ..] => Ok(done(alloc, &mut self.text, word, fields)?),
            [] => Err(StepFault::Form),
        }
    }
}

/// Plays the steps of a row.
#[tactic(auto, using(crate::proofs::KindAnswers::from_nothing))]
pub(crate) fn play_text(alloc: Global, steps: &[Line]) -> Outcome
    ensures { result ≡ Outcome.Agrees → TextAgrees steps.now }
{
    let mut written = Written {
        text: Vec::new(alloc),
    };
    let outcome = play_steps(alloc, &mut written, steps);
    drop(written);
    outcome
}

// Writes, or answers a question.
#[tactic(auto, using(crate::proofs::TextAnswers::line_written, crate::proofs::TextAnswers::part_written, crate::proofs::TextAnswers::nodes_written, crate::proofs::TextAnswers::asks_only))]
fn done(
    alloc: Global,
    text: &mut Vec<u8>,
    word: &Field,
    fields: &[Field],
) -> Result<Vec<Fields>, StepFault>
    ensures { IfOk result (λ answers.
        Writes text.old.items (word.now ∷ fields.now) answers.items text.new.items) }
{
    if word.is(b"line") {
        append_fields(fields, text)?;
        text.push(b'\n')?;
        Ok(Vec::new(alloc))
    } else if word.is(b"part") {
        append_fields(fields, text)?;
        Ok(Vec::new(alloc))
    } else if word.is(b"nodes") {
        append_nodes(alloc, count_in(fields)?, text)?;
        Ok(Vec::new(alloc))
    } else {
        asked(alloc, text.as_slice(), word, fields)
    }
}

// Appends the bytes of fields.
fn append_fields(fields: &[Field], text: &mut Vec<u8>) -> Result<(), StepFault>
    ensures { OnOk result (text.new.items ≡ text.old.items ++ joined fields.now) }
{
    if let [field, rest @ ..] = fields {
        text.extend_from_slice(field.as_slice())?;
        append_fields(rest, text)?;
    }
    Ok(())
}

// Answers a question: about the text, or about a line that its fields write.
fn asked(
    alloc: Global,
    text: &[u8],
    word: &Field,
    fields: &[Field],
) -> Result<Vec<Fields>, StepFault>
    ensures { IfOk result (λ answers. Asked text.now (word.now ∷ fields.now) answers.items) }
{
    match fields {
        [] => asked_of_text(alloc, text, word),
        _ => asked_of_line(alloc, text, word, fields),
    }
}

#[tactic(auto, using(crate::proofs::TextAnswers::table_asked, crate::proofs::TextAnswers::read_asked))]
fn asked_of_text(alloc: Global, text: &[u8], word: &Field) -> Result<Vec<Fields>, StepFault>
    ensures { IfOk result (λ answers. Asked text.now (word.now ∷ []) answers.items) }
{
    if word.is(b"table") {
        Ok(only(alloc, table_answer(alloc, text)?)?)
    } else if word.is(b"read") {
        read_answers(alloc, text)
    } else {
        Err(StepFault::Form)
    }
}

#[tactic(auto, using(crate::proofs::TextAnswers::amid_asked, crate::proofs::TextAnswers::first_asked))]
fn asked_of_line(
    alloc: Global,
    text: &[u8],
    word: &Field,
    fields: &[Field],
) -> Result<Vec<Fields>, StepFault>
    ensures { IfOk result (λ answers. Asked text.now (word.now ∷ fields.now) answers.items) }
{
    let mut line = Vec::new(alloc);
    append_fields(fields, &mut line)?;
    if word.is(b"amid") {
        Ok(only(alloc, amid_answer(alloc, line.as_slice())?)?)
    } else if word.is(b"first") {
        Ok(only(alloc, first_answer(alloc, line.as_slice())?)?)
    } else {
        Err(StepFault::Form)
    }
}

// Returns the number that is the only field.
fn count_in(fields: &[Field]) -> Result<u64, StepFault>
    ensures { IfOk result (λ count. IsCount fields.now count) }
{
    match fields {
        [digits] => digits.number().ok_or(StepFault::Form),
        _ => Err(StepFault::Form),
    }
}
