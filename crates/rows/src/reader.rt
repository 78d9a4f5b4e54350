// The lines of a rows file.
//
// A file is read whole before any row is played, so a malformed line is found first.

ghost use Rattle.std.specs.Prelude.{◌≡◌, ◌+◌, Some, IfOk, OnOk};
ghost use Rattle.rows.specs.Fields.{Appends, texts};
ghost use Rattle.rows.specs.Rows.{AreLinesOf, begins_row, is_remark, is_step, lines_from, lines_of};
ghost use Rattle.rows.specs.Rows.{texts_of};

use crate::error::{RowsFault, StepFault};
use crate::line::Line;
use crate::line_reader::fields_of;
use std::alloc::{AllocError, Global};

/// Returns the lines of a rows file that say something. Fails with the first malformed line: one
/// with a quote too many or malformed bytes; or else with the first line, if it begins no row.
pub fn read(alloc: Global, text: &[u8]) -> Result<Vec<Line>, RowsFault>
    ensures { IfOk result (λ lines. AreLinesOf text.now lines.items) }
{
    let parts = texts_of(alloc, text)?;
    let mut lines = Vec::new(alloc);
    append_lines(alloc, parts.as_slice(), &mut lines)?;
    match lines.as_slice() {
        [first, ..] if first.is_step => Err(RowsFault::Line(first.number)),
        _ => Ok(lines),
    }
}

// Returns the parts between line feeds.
fn texts_of<'a>(alloc: Global, text: &'a [u8]) -> Result<Vec<&'a [u8]>, AllocError>
    ensures { IfOk result (λ parts. texts parts.items ≡ texts_of text.now) }
{
    text.split(|byte| *byte == b'\n').collect(alloc)
}

// Appends the lines of these texts that say something.
#[tactic(auto, using(crate::proofs::ManyLines::lines_more, crate::proofs::ManyLines::lines_all))]
fn append_lines(alloc: Global, parts: &[&[u8]], lines: &mut Vec<Line>) -> Result<(), RowsFault>
    ensures { OnOk result
        (Appends lines.old.items lines.new.items (lines_from 1 (texts parts.now))) }
{
    for (index, text) in parts.iter().enumerate() {
        append_line(alloc, index as u64 + 1, text, lines)?;
    }
    Ok(())
}

// Appends the line of a text, if it says something.
fn append_line(
    alloc: Global,
    number: u64,
    text: &[u8],
    lines: &mut Vec<Line>,
) -> Result<(), RowsFault>
    ensures { OnOk result
        (Appends lines.old.items lines.new.items (lines_of number text.now)) }
{
    if is_remark(text) {
        return Ok(());
    }
    match fields_of(alloc, text) {
        Ok(fields) => {
            let is_step = is_step(text);
            Ok(lines.push(Line {
                number,
                is_step,
                fields,
            })?)
        }
        Err(StepFault::Form) => Err(RowsFault::Line(number)),
        Err(StepFault::Memory) => Err(RowsFault::Memory),
    }
}

// Returns true if a text has no field, or a `#` in front of all.
fn is_remark(text: &[u8]) -> bool
    ensures { result ≡ is_remark text.now }
{
    match text {
        [] => true,
        [b' ', rest @ ..] => is_remark(rest),
        [first, ..] => *first == b'#',
    }
}

// Returns true if a space is in front.
fn is_step(text: &[u8]) -> bool
    ensures { result ≡ is_step text.now }
{
    match text {
        [first, ..] => *first == b' ',
        [] => false,
    }
}
