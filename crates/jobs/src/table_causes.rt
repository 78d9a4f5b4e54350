// Saying what is wrong with a table of nodes that was refused.

use crate::whole_input::bytes_of;
use command_line::table_cause;
use std::io::Write;
use std::rt::Files;
use std::str;

/// Prints in one line what is wrong with the table of nodes of a file: its path, the line, the
/// cause. Prints nothing if the file cannot be read any more.
pub(crate) fn print_table_cause<R: Files + AllocGlobal, E: Write>(
    rt: &R,
    path: &str,
    faults: &mut E,
) {
    let Ok(bytes) = bytes_of(rt, path) else {
        return;
    };
    // (there is nowhere else to print it)
    let _ = match str::from_utf8(bytes.as_slice()) {
        Ok(text) => print_cause_in(rt, path, text, faults),
        Err(_) => writeln!(faults, "{path}: not UTF-8"),
    };
}

// Prints what is wrong with a text that is no table of nodes.
fn print_cause_in<R: AllocGlobal, E: Write>(
    rt: &R,
    path: &str,
    text: &str,
    faults: &mut E,
) -> std::io::Result<()> {
    let Some(cause) = table_cause(rt.alloc(), text) else {
        return Ok(());
    };
    match cause.line() {
        Some(line) => writeln!(faults, "{path} line {line}: {cause}"),
        None => writeln!(faults, "{path}: {cause}"),
    }
}
