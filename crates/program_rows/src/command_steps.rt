// Steps about the words of a command line.

ghost use Rattle.std.specs.Prelude.{◌≡◌, ◌++◌, ◌∷◌, [], IfOk, OnOk};
ghost use Rattle.rows.specs.Fields.{texts};
ghost use Rattle.program_rows.specs.CommandSteps.{CommandStep, LineAnswer, Says, kind_word};
ghost use Rattle.program_rows.specs.CommandSteps.{refused_words, yes_or_no};

use crate::answers::{only, put_text, word};
use crate::job_fields::job_fields;
use clap::Error;
use clap::error::ErrorKind;
use command_line::{LineFault, line};
use rows::{Field, Fields, StepFault, Tested};
use std::alloc::Global;
use std::str;

/// Command lines, which no step changes.
#[derive(Drop)]
pub(crate) struct Commands;

impl Tested for Commands {
    ghost use Rattle.program_rows.specs.CommandSteps.{CommandStep};

    ghost Does = { λ old step answers new. CommandStep step answers };

    fn step(&mut self, alloc: Global, step: &Fields) -> Result<Vec<Fields>, StepFault> {
        match step.as_slice() {
            [word, fields @ ..] => Ok(asked(alloc, word, fields)?),
            [] => Err(StepFault::Form),
        }
    }
}

// Returns the answer to a question about words.
#[tactic(auto, using(crate::proofs::CommandAnswers::line_step, crate::proofs::CommandAnswers::shows_step))]
fn asked(alloc: Global, word: &Field, fields: &[Field]) -> Result<Vec<Fields>, StepFault>
    ensures { IfOk result (λ answers. CommandStep (word.now ∷ fields.now) answers.items) }
{
    if word.is(b"line") {
        Ok(only(alloc, answered(alloc, fields)?)?)
    } else if word.is(b"shows") {
        Ok(only(alloc, yes_or_no(alloc, is_shown(alloc, fields)?)?)?)
    } else {
        Err(StepFault::Form)
    }
}

// Returns what words ask for.
fn answered(alloc: Global, fields: &[Field]) -> Result<Fields, StepFault>
    ensures { IfOk result (LineAnswer fields.now) }
{
    let mut words = Vec::new(alloc);
    append_words(fields, &mut words)?;
    answered_words(alloc, words.as_slice())
}

// Appends the words that fields are.
fn append_words<'a>(fields: &'a [Field], words: &mut Vec<&'a str>) -> Result<(), StepFault>
    ensures { OnOk result (texts words.new.items ≡ texts words.old.items ++ fields.now) }
{
    if let [field, rest @ ..] = fields {
        let Some(text) = field.as_text() else {
            return Err(StepFault::Form);
        };
        words.push(text)?;
        append_words(rest, words)?;
    }
    Ok(())
}

fn answered_words(alloc: Global, words: &[&str]) -> Result<Fields, StepFault>
    ensures { IfOk result (LineAnswer (texts words.now)) }
{
    match &line(alloc, words) {
        Ok(job) => Ok(job_fields(alloc, job)?),
        Err(fault) => Ok(fault_answer(alloc, fault)?),
    }
}

// Returns the answer to words that ask for no job.
fn fault_answer(alloc: Global, fault: &LineFault) -> Result<Fields, StepFault>
    ensures { IfOk result (Says fault.now) }
{
    match fault {
        LineFault::Words(error) => refused(alloc, error.kind()),
        LineFault::Incomplete => Ok(word(alloc, "incomplete")?),
        LineFault::Memory => Err(StepFault::Memory),
    }
}

fn refused(alloc: Global, kind: ErrorKind) -> Result<Fields, StepFault>
    ensures { IfOk result (λ answer. answer ≡ refused_words kind) }
{
    let mut answer = Fields::new(alloc);
    put_text("refused", kind_word(kind), &mut answer)?;
    Ok(answer)
}

// Returns the word for what words are refused for.
fn kind_word(kind: ErrorKind) -> &'static str
    ensures { result.now ≡ kind_word kind }
{
    match kind {
        ErrorKind::InvalidValue => "value",
        ErrorKind::UnknownArgument => "unknown",
        ErrorKind::InvalidSubcommand => "subcommand",
        ErrorKind::ValueValidation => "number",
        ErrorKind::ArgumentConflict => "twice",
        ErrorKind::MissingRequiredArgument => "missing",
        ErrorKind::DisplayHelp => "help",
        ErrorKind::DisplayHelpOnMissingArgumentOrSubcommand => "nothing",
        ErrorKind::DisplayVersion => "version",
        _ => "other",
    }
}

fn yes_or_no(alloc: Global, is_so: bool) -> Result<Fields, StepFault>
    ensures { IfOk result (λ answer. answer ≡ yes_or_no is_so) }
{
    Ok(word(alloc, if is_so { "yes" } else { "no" })?)
}

// Returns true if the words after `in` are answered by a text in which the lines before it are.
fn is_shown(alloc: Global, fields: &[Field]) -> Result<bool, StepFault> {
    let mut piece = Vec::new(alloc);
    let words = append_piece(fields, &mut piece)?;
    let mut texts = Vec::new(alloc);
    append_words(words, &mut texts)?;
    match &line(alloc, texts.as_slice()) {
        Err(LineFault::Words(error)) => has_piece(alloc, error, piece.as_slice()),
        _ => Ok(false),
    }
}

// Appends the lines before `in`, with line feeds between them. Returns the fields after it.
fn append_piece<'a>(fields: &'a [Field], piece: &mut Vec<u8>) -> Result<&'a [Field], StepFault> {
    let [line, rest @ ..] = fields else {
        return Err(StepFault::Form);
    };
    if line.is(b"in") {
        return Ok(rest);
    }
    if !piece.is_empty() {
        piece.push(b'\n')?;
    }
    piece.extend_from_slice(line.as_slice())?;
    append_piece(rest, piece)
}

fn has_piece(alloc: Global, error: &Error, piece: &[u8]) -> Result<bool, StepFault> {
    let text = format!(in alloc; "{error}")?;
    match str::from_utf8(piece) {
        Ok(piece) => Ok(text.as_str().contains(piece)),
        Err(_) => Err(StepFault::Form),
    }
}
