// A line of a rows file.

ghost use Rattle.std.specs.Prelude.{◌≡◌, ◌<◌, ◌≤◌, length, take, drop};
ghost use Rattle.rows.specs.Rows.{row_len, steps_len};

use crate::fields::Fields;

/// A line that says something.
pub struct Line {
    /// Its number in its file, from 1.
    pub number: u64,
    /// Whether it begins with a space, and so belongs to the row above it.
    pub is_step: bool,
    /// Its fields, at least one.
    pub fields: Fields,
}

impl Drop for Line {
    fn drop(self) {
        let Line {
            number: _,
            is_step: _,
            fields: _fields,
        } = self;
    }
}

/// Returns the row at the front, which is the first line and the steps and answers after it, and
/// the lines after the row.
pub fn split_row(lines: &[Line]) -> (&[Line], &[Line])
    ensures row { result.0.now ≡ take (row_len lines.now) lines.now }
    ensures rest { result.1.now ≡ drop (row_len lines.now) lines.now }
    ensures shorter { 0 < length lines.now → length result.1.now < length lines.now }
{
    match lines {
        [] => (lines, lines),
        [_, steps @ ..] => lines.split_at(1 + steps_len(steps)),
    }
}

// Returns how many steps and answers are at the front.
fn steps_len(lines: &[Line]) -> usize
    ensures exact { result ≡ steps_len lines.now }
    ensures within { result ≤ length lines.now }
{
    match lines {
        [line, rest @ ..] if line.is_step => 1 + steps_len(rest),
        _ => 0,
    }
}
