// Answers that several kinds of rows have.

ghost use Rattle.std.specs.Prelude.{◌≡◌, ◌++◌, ◌∷◌, [], IfOk, OnOk};
ghost use Rattle.std.specs.List.{flat_map};
ghost use Rattle.program_rows.specs.AnswerFields.{counted, flag_fields, number_fields, numbers_fields, word};

use rows::Fields;
use std::alloc::{AllocError, Global};

/// Returns the answers that are only this one.
pub(crate) fn only(alloc: Global, answer: Fields) -> Result<Vec<Fields>, AllocError>
    ensures { IfOk result (λ answers. answers.items ≡ answer ∷ []) }
{
    let mut answers = Vec::new(alloc);
    answers.push(answer)?;
    Ok(answers)
}

/// Returns the answer of this word.
pub(crate) fn word(alloc: Global, text: &str) -> Result<Fields, AllocError>
    ensures { IfOk result (λ answer. answer ≡ word text.now) }
{
    let mut answer = Fields::new(alloc);
    answer.text(text)?;
    Ok(answer)
}

/// Returns the answer of this word and this number.
pub(crate) fn counted(alloc: Global, text: &str, number: u64) -> Result<Fields, AllocError>
    ensures { IfOk result (λ answer. answer ≡ counted text.now number) }
{
    let mut answer = Fields::new(alloc);
    put_number(text, number, &mut answer)?;
    Ok(answer)
}

/// Appends a word and a text.
pub(crate) fn put_text(word: &str, text: &str, out: &mut Fields) -> Result<(), AllocError>
    ensures { OnOk result (out.new ≡ out.old ++ word.now ∷ text.now ∷ []) }
{
    out.text(word)?;
    out.text(text)
}

/// Appends a word and a number.
pub(crate) fn put_number(word: &str, number: u64, out: &mut Fields) -> Result<(), AllocError>
    ensures { OnOk result (out.new ≡ out.old ++ number_fields word.now number) }
{
    out.text(word)?;
    out.number(number)
}

/// Appends a word and a flag, 0 or 1.
pub(crate) fn put_flag(word: &str, flag: bool, out: &mut Fields) -> Result<(), AllocError>
    ensures { OnOk result (out.new ≡ out.old ++ flag_fields word.now flag) }
{
    put_number(word, u64::from(flag), out)
}
