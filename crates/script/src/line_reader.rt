// Reading the lines after the first.

ghost use Rattle.std.specs.Prelude.{◌≡◌, Some, None, IfOk, IsErrOf};
ghost use Rattle.script.specs.Fields.{texts};
ghost use Rattle.script.specs.Inside.LineReader.{line_by, line_of};

use crate::error::FieldFault;
use crate::forms;
use crate::script_line::ScriptLine;
use std::alloc::Global;

/// Returns the meaning of a line. Fails with `Form` if it is malformed.
pub(crate) fn line_of(alloc: Global, fields: &[&str]) -> Result<ScriptLine, FieldFault>
    ensures value { IfOk result (λ line. line_of (texts fields.now) ≡ Some line) }
    ensures form { IsErrOf result FieldFault.Form → line_of (texts fields.now) ≡ None }
{
    match fields {
        [] => Err(FieldFault::Form),
        [word, fields @ ..] => line_by(alloc, word, fields),
    }
}

// Returns the meaning of the fields after this word.
fn line_by(alloc: Global, word: &str, fields: &[&str]) -> Result<ScriptLine, FieldFault>
    ensures value { IfOk result (λ line. line_by word.now (texts fields.now) ≡ Some line) }
    ensures form { IsErrOf result FieldFault.Form → line_by word.now (texts fields.now) ≡ None }
{
    match word {
        "assign" => forms::assign(alloc, fields),
        "deliver" => forms::deliver(fields),
        "tick" => forms::tick(fields),
        "cut" => forms::cut(fields),
        "crash" => forms::crash(fields),
        "open" => forms::open_connection(alloc, fields),
        "up" => forms::carry_up(fields),
        "down" => forms::carry_down(fields),
        "abandon" => forms::abandon(alloc, fields),
        "disconnect" => forms::disconnect(alloc, fields),
        "notice" => forms::notice(fields),
        "publish" => forms::publish(alloc, fields),
        "subscribe" => forms::subscribe(alloc, fields),
        "unsubscribe" => forms::unsubscribe(alloc, fields),
        "expel" => forms::expel(alloc, fields),
        _ => Err(FieldFault::Form),
    }
}
