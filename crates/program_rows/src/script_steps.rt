// Scripts: what their texts are read as, and which line is malformed.

ghost use Rattle.std.specs.Prelude.{◌≡◌, ◌++◌, ◌∷◌, [], IfOk, OnOk, codes};
ghost use Rattle.std.specs.Fmt.{decimal};
ghost use Rattle.rows.specs.Fields.{texts};
ghost use Rattle.program_rows.specs.ScriptSteps.{FirstFault, FirstFaults, ReadAnswers, amid, first};
ghost use Rattle.program_rows.specs.ScriptSteps.{text_of};

use crate::answers::{counted, only};
use crate::script_fields::script_answers;
use rows::{Fields, StepFault};
use script::{ScriptFault, read};
use std::alloc::Global;

// A first line, a line after it, and one that no script has.
const WORLD: &[u8] = b"world 2 1,2 1 a,b";

const TICK: &[u8] = b"tick 1";

const BAD: &[u8] = b"nothing";

/// Returns what a text is read as.
pub(crate) fn read_answers(alloc: Global, text: &[u8]) -> Result<Vec<Fields>, StepFault>
    ensures { IfOk result (λ answers. ReadAnswers text.now answers.items) }
{
    match &read(alloc, text) {
        Ok(script) => Ok(script_answers(alloc, script)?),
        Err(fault) => {
            let number = line_of(*fault)?;
            Ok(only(alloc, counted(alloc, "refused", number)?)?)
        }
    }
}

// Returns the number of the line that is malformed.
fn line_of(fault: ScriptFault) -> Result<u64, StepFault>
    ensures { IfOk result (λ number. fault ≡ ScriptFault.Line number) }
{
    match fault {
        ScriptFault::Line(number) => Ok(number),
        ScriptFault::Memory => Err(StepFault::Memory),
    }
}

/// Returns the number of the first malformed line, where a line is the second, third and fourth of
/// a script, before one that no script has.
pub(crate) fn amid_answer(alloc: Global, line: &[u8]) -> Result<Fields, StepFault>
    ensures { IfOk result (FirstFaults (amid line.now)) }
{
    let mut out = Fields::new(alloc);
    put_fault(alloc, &[WORLD, line, BAD, b""], &mut out)?;
    put_fault(alloc, &[WORLD, TICK, line, BAD, b""], &mut out)?;
    put_fault(alloc, &[WORLD, TICK, TICK, line, BAD, b""], &mut out)?;
    Ok(out)
}

/// Returns the number of the first malformed line, where a line is the first of a script: alone,
/// with its line feed, before a line, and before one that no script has.
pub(crate) fn first_answer(alloc: Global, line: &[u8]) -> Result<Fields, StepFault>
    ensures { IfOk result (FirstFaults (first line.now)) }
{
    let mut out = Fields::new(alloc);
    put_fault(alloc, &[line], &mut out)?;
    put_fault(alloc, &[line, b""], &mut out)?;
    put_fault(alloc, &[line, TICK, b""], &mut out)?;
    put_fault(alloc, &[line, BAD, b""], &mut out)?;
    Ok(out)
}

// Appends the number of the first malformed line of these.
fn put_fault(alloc: Global, lines: &[&[u8]], out: &mut Fields) -> Result<u64, StepFault>
    ensures { IfOk result (λ number. (out.new ≡ out.old ++ decimal number ∷ [])
        × FirstFault (text_of (texts lines.now)) number) }
{
    let mut text = Vec::new(alloc);
    append_between(lines, &mut text)?;
    let number = first_fault(alloc, text.as_slice())?;
    out.number(number)?;
    Ok(number)
}

// Appends lines, with line feeds between them.
fn append_between(lines: &[&[u8]], text: &mut Vec<u8>) -> Result<(), StepFault>
    ensures { OnOk result (text.new.items ≡ text.old.items ++ text_of (texts lines.now)) }
{
    match lines {
        [] => Ok(()),
        [line] => Ok(text.extend_from_slice(line)?),
        [line, rest @ ..] => {
            text.extend_from_slice(line)?;
            text.push(b'\n')?;
            append_between(rest, text)
        }
    }
}

// Returns the number of the first malformed line of a text; 0 if it is a script.
fn first_fault(alloc: Global, text: &[u8]) -> Result<u64, StepFault>
    ensures { IfOk result (FirstFault text.now) }
{
    match &read(alloc, text) {
        Ok(_) => Ok(0),
        Err(fault) => Ok(line_of(*fault)?),
    }
}
