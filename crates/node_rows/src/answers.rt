// Parts of answers.

ghost use Rattle.std.specs.Prelude.{◌≡◌, ◌++◌, ◌∷◌, OnOk, map};
ghost use Rattle.std.specs.Fmt.{decimal};
ghost use Rattle.node_rows.specs.Answers.{number_fields};

use rows::Fields;
use std::alloc::AllocError;

/// Appends a word and a number.
pub(crate) fn put_number(word: &str, number: u64, out: &mut Fields) -> Result<(), AllocError>
    ensures { OnOk result (out.new ≡ out.old ++ number_fields word.now number) }
{
    out.text(word)?;
    out.number(number)
}

/// Appends a word and numbers.
pub(crate) fn put_numbers(word: &str, numbers: &[u64], out: &mut Fields) -> Result<(), AllocError>
    ensures { OnOk result (out.new ≡ out.old ++ word.now ∷ map decimal numbers.now) }
{
    out.text(word)?;
    append_numbers(numbers, out)
}

fn append_numbers(numbers: &[u64], out: &mut Fields) -> Result<(), AllocError>
    ensures { OnOk result (out.new ≡ out.old ++ map decimal numbers.now) }
{
    if let [number, rest @ ..] = numbers {
        out.number(*number)?;
        append_numbers(rest, out)?;
    }
    Ok(())
}
