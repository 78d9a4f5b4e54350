// Answers that rows of any kind have.

ghost use Rattle.std.specs.Prelude.{◌≡◌, ◌∷◌, [], IfOk};
ghost use Rattle.rows.specs.Answers.{counted, word, yes_or_no};

use crate::fields::Fields;
use std::alloc::{AllocError, Global};

/// Returns the answers that are only this one.
pub fn only(alloc: Global, answer: Fields) -> Result<Vec<Fields>, AllocError>
    ensures { IfOk result (λ answers. answers.items ≡ answer ∷ []) }
{
    let mut answers = Vec::new(alloc);
    answers.push(answer)?;
    Ok(answers)
}

/// Returns the answer of this word.
pub fn word(alloc: Global, text: &str) -> Result<Fields, AllocError>
    ensures { IfOk result (λ answer. answer ≡ word text.now) }
{
    let mut answer = Fields::new(alloc);
    answer.text(text)?;
    Ok(answer)
}

/// Returns the answer of this word and this number.
pub fn counted(alloc: Global, text: &str, number: u64) -> Result<Fields, AllocError>
    ensures { IfOk result (λ answer. answer ≡ counted text.now number) }
{
    let mut answer = Fields::new(alloc);
    answer.text(text)?;
    answer.number(number)?;
    Ok(answer)
}

/// Returns the answer of the word `yes` or `no`.
pub fn yes_or_no(alloc: Global, is_so: bool) -> Result<Fields, AllocError>
    ensures { IfOk result (λ answer. answer ≡ yes_or_no is_so) }
{
    word(alloc, if is_so { "yes" } else { "no" })
}
