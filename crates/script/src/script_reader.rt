// Reading a script.
//
// A script is read whole before anything of it is played, so a malformed line has no effect. The
// relation `IsScript` of specs says which text is which script; no line has two meanings
// (`OneMeaningALine`). Reading fails exactly for the first malformed line, by its number, or
// because memory ran out. Whether a node, message or connection exists is no question of form: the
// player answers it.

ghost use Rattle.std.specs.Prelude.{◌≡◌, ◌+◌, ◌∷◌, ℕ, IfOk, IfErr, IsErrOf};
ghost use Rattle.script.specs.declared.opening.Opening.{Opening};
ghost use Rattle.script.specs.declared.script_line.ScriptLine.{ScriptLine};
ghost use Rattle.script.specs.Fields.{texts};
ghost use Rattle.script.specs.Scripts.{AreLines, HasSomeForm, HasOpening, IsFirstBad, IsOpeningLine, IsOtherLine, IsScript, Refuses, lines_of};

use crate::error::{FieldFault, ScriptFault};
use crate::fields::fields_of;
use crate::line_reader::line_of;
use crate::lines::lines_of;
use crate::opening::{Opening, opening_of};
use crate::script_line::ScriptLine;
use std::alloc::Global;
use std::str;

/// A script: a world, and what happens in it.
#[derive(Drop)]
pub struct Script {
    /// The world at the beginning.
    pub opening: Opening,
    /// What happens in it, line by line.
    pub lines: Vec<ScriptLine>,
}

/// Reads a whole script. Fails with `Line` exactly if a line is malformed, for the first such line,
/// unless memory runs out.
pub fn read(alloc: Global, text: &[u8]) -> Result<Script, ScriptFault>
    ensures script { IfOk result (IsScript (lines_of text.now)) }
    ensures refused { IfErr result (Refuses (lines_of text.now)) }
{
    let lines = lines_of(alloc, text)?;
    script_of(alloc, lines.as_slice())
}

// Returns the script of all lines.
fn script_of(alloc: Global, lines: &[&[u8]]) -> Result<Script, ScriptFault>
    ensures script { IfOk result (IsScript (texts lines.now)) }
    ensures refused { IfErr result (Refuses (texts lines.now)) }
{
    match lines {
        [] => Err(ScriptFault::Line(1)),
        [first, others @ ..] => script_after(alloc, first, others),
    }
}

fn script_after(alloc: Global, first: &[u8], others: &[&[u8]]) -> Result<Script, ScriptFault>
    ensures script { IfOk result (IsScript (first.now ∷ texts others.now)) }
    ensures refused { IfErr result (Refuses (first.now ∷ texts others.now)) }
{
    let opening = match opening_line(alloc, first) {
        Ok(opening) => opening,
        Err(FieldFault::Form) => return Err(ScriptFault::Line(1)),
        Err(FieldFault::Memory) => return Err(ScriptFault::Memory),
    };
    match other_lines(alloc, others) {
        Ok(lines) => Ok(Script { opening, lines }),
        Err(error) => Err(error),
    }
}

// Returns the world that the first line opens.
fn opening_line(alloc: Global, line: &[u8]) -> Result<Opening, FieldFault>
    ensures value { IfOk result (IsOpeningLine line.now) }
    ensures form { IsErrOf result FieldFault.Form → HasOpening line.now → ⊥ }
{
    let Ok(line) = str::from_utf8(line) else {
        return Err(FieldFault::Form);
    };
    let fields = fields_of(alloc, line)?;
    opening_of(alloc, fields.as_slice())
}

// Returns the meaning of a line after the first.
fn other_line(alloc: Global, line: &[u8]) -> Result<ScriptLine, FieldFault>
    ensures value { IfOk result (IsOtherLine line.now) }
    ensures form { IsErrOf result FieldFault.Form → HasSomeForm line.now → ⊥ }
{
    let Ok(line) = str::from_utf8(line) else {
        return Err(FieldFault::Form);
    };
    let fields = fields_of(alloc, line)?;
    line_of(alloc, fields.as_slice())
}

// Returns the meanings of the lines after the first. The number of a malformed one is counted from
// the first line of the text.
fn other_lines(alloc: Global, lines: &[&[u8]]) -> Result<Vec<ScriptLine>, ScriptFault>
    ensures said { IfOk result (λ said. AreLines (texts lines.now) said.items) }
    ensures refused { (bad : ℕ) → IsErrOf result (ScriptFault.Line bad)
        → (index : ℕ) × (bad ≡ index + 2) × IsFirstBad (texts lines.now) index }
{
    let mut script_lines = Vec::new(alloc);
    for (index, line) in lines.iter().enumerate() {
        match other_line(alloc, line) {
            Ok(script_line) => script_lines.push(script_line)?,
            Err(FieldFault::Form) => return Err(ScriptFault::Line(index as u64 + 2)),
            Err(FieldFault::Memory) => return Err(ScriptFault::Memory),
        }
    }
    Ok(script_lines)
}
