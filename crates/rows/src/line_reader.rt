// The fields of a line.

ghost use Rattle.std.specs.Prelude.{◌≡◌, ◌++◌, Some, IfOk, OnOk};
ghost use Rattle.rows.specs.Fields.{Appends, fields_in, fields_of, quoted_fields};
ghost use Rattle.rows.specs.Fields.{parts_of, quote_parts, texts, words_of};

use crate::error::StepFault;
use crate::field::Field;
use crate::fields::Fields;
use crate::hexadecimal::{bytes_of, parts_of};
use std::alloc::{AllocError, Global};

/// Returns the fields of a line.
pub(crate) fn fields_of(alloc: Global, line: &[u8]) -> Result<Fields, StepFault>
    ensures { IfOk result (λ fields. fields_of line.now ≡ Some fields) }
{
    let parts = quote_parts(alloc, line)?;
    let mut fields = Fields::new(alloc);
    append_fields(alloc, parts.as_slice(), &mut fields)?;
    Ok(fields)
}

// Returns the parts of a line between its quotes.
fn quote_parts<'a>(alloc: Global, line: &'a [u8]) -> Result<Vec<&'a [u8]>, AllocError>
    ensures { IfOk result (λ parts. texts parts.items ≡ quote_parts line.now) }
{
    line.split(|byte| *byte == b'"').collect(alloc)
}

// Appends the fields of the parts between quotes: every second one is quoted.
#[tactic(auto, using(crate::proofs::Appended::fields_append))]
fn append_fields(alloc: Global, parts: &[&[u8]], fields: &mut Fields) -> Result<(), StepFault>
    ensures { OnOk result (Appends fields.old fields.new (fields_in (texts parts.now))) }
{
    match parts {
        [plain] => Ok(append_words(alloc, plain, fields)?),
        [plain, quoted, rest @ ..] => {
            append_quoted(alloc, plain, quoted, fields)?;
            append_fields(alloc, rest, fields)?;
            Ok(())
        }
        [] => Err(StepFault::Form),
    }
}

// Appends the words before a quote, and the field in it.
fn append_quoted(
    alloc: Global,
    plain: &[u8],
    quoted: &[u8],
    fields: &mut Fields,
) -> Result<(), StepFault>
    ensures { OnOk result
        (Appends fields.old fields.new (quoted_fields plain.now quoted.now)) }
{
    match plain {
        [words @ .., b'x'] => {
            append_words(alloc, words, fields)?;
            let bytes = bytes_of(alloc, quoted)?;
            Ok(fields.push(Field::new(bytes))?)
        }
        _ => {
            append_words(alloc, plain, fields)?;
            Ok(fields.bytes(quoted)?)
        }
    }
}

// Appends the words between spaces.
fn append_words(alloc: Global, plain: &[u8], fields: &mut Fields) -> Result<(), AllocError>
    ensures { OnOk result (fields.new ≡ fields.old ++ words_of (parts_of plain.now)) }
{
    let parts = parts_of(alloc, plain)?;
    append_parts(parts.as_slice(), fields)
}

// Appends the parts that are not empty.
fn append_parts(parts: &[&[u8]], fields: &mut Fields) -> Result<(), AllocError>
    ensures { OnOk result (fields.new ≡ fields.old ++ words_of (texts parts.now)) }
{
    if let [part, rest @ ..] = parts {
        if !part.is_empty() {
            fields.bytes(part)?;
        }
        append_parts(rest, fields)?;
    }
    Ok(())
}
