// The line of a fault in the text of a table, for the user. No clause says which it is.

use crate::table::fault::TableFault;
use toml::de::Error;

/// Returns the line of the text that sets the key of a fault, or that is no TOML, counted from 1;
/// `None` if it is no single line.
pub fn line_of(text: &str, fault: &TableFault) -> Option<usize> {
    if let TableFault::Toml(error) = fault {
        return line_of_error(text, error);
    }
    let (row, key) = fault.key()?;
    line_that_sets(text, row, key)
}

// Returns the line at which a text is no TOML.
fn line_of_error(text: &str, error: &Error) -> Option<usize> {
    let before = error.span()?.start;
    let ends = text
        .bytes()
        .take(before)
        .filter(|byte| *byte == b'\n')
        .count();
    Some(1 + ends)
}

// Returns the first line that sets a key in this row, counted from 1.
fn line_that_sets(text: &str, row: usize, key: &str) -> Option<usize> {
    let mut at = 0usize;
    let mut number = 0usize;
    for line in text.lines() {
        number = number.saturating_add(1);
        let line = line.trim_start();
        if line.starts_with("[[node]]") {
            at = at.saturating_add(1);
        }
        if at == row && sets(line, key) {
            return Some(number);
        }
    }
    None
}

// Returns true if a line begins with a key, or a table with it as its name.
fn sets(line: &str, key: &str) -> bool {
    match line.trim_start_matches('[').strip_prefix(key) {
        Some(rest) => rest.trim_start().starts_with(['=', ']', '.']),
        None => false,
    }
}
