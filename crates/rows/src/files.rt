// Playing rows files.

ghost use Rattle.std.specs.Prelude.{◌≡◌, List, ℕ, Ok, true, false};
ghost use Rattle.rows.specs.Rows.{AllRows};
ghost use Rattle.rows.specs.declared.line.Line.{Line};

use crate::error::RowsFault;
use crate::fields::Fields;
use crate::line::{Line, split_row};
use crate::playing::{Cut, Outcome, split_answers};
use crate::reader::read;
use std::alloc::Global;
use std::rt::Files;
use std::{fs, io};

/// Plays rows.
pub trait Player {
    // What has to hold of a row.
    ghost RowAgrees: { List Line → Type 0 };

    /// Plays a row, whose first line has its kind and its name.
    fn play(&self, alloc: Global, row: &[Line]) -> Outcome
        ensures { result ≡ Outcome.Agrees → RowAgrees row.now };
}

/// Plays a file, all of whose rows have to agree, or, if `is_turned`, to differ. Prints how many
/// there are, or each that is wrong. Returns true if none is.
pub fn play_file<R, P>(rt: &R, player: &P, file: &str, is_turned: bool) -> io::Result<bool>
where
    R: Files + Print + AllocGlobal,
    P: Player,
{
    let text = fs::read(rt, file)?;
    match read(rt.alloc(), text.as_slice()) {
        Ok(lines) => play_rows(rt, player, file, lines.as_slice(), is_turned),
        Err(RowsFault::Line(number)) => {
            println!(rt; "{file}:{number}: the line is malformed")?;
            Ok(false)
        }
        Err(RowsFault::Memory) => {
            println!(rt; "{file}: out of memory")?;
            Ok(false)
        }
    }
}

// Plays the rows one after another, and prints how many there are, or each that is wrong. Returns
// true if none is.
fn play_rows<R, P>(
    rt: &R,
    player: &P,
    file: &str,
    lines: &[Line],
    is_turned: bool,
) -> io::Result<bool>
where
    R: Print + AllocGlobal,
    P: Player,
    ensures { result ≡ Ok true → is_turned ≡ false → AllRows P.RowAgrees lines.now }
{
    let mut count: u64 = 0;
    let mut are_right = true;
    let mut rest = lines;
    while !rest.is_empty() {
        let (row, after) = split_row(rest);
        let outcome = player.play(rt.alloc(), row);
        are_right &= is_right(rt, &outcome, file, row, is_turned)?;
        count = count.wrapping_add(1);
        rest = after;
    }
    if are_right {
        let words = if is_turned { ", all differ" } else { "" };
        println!(rt; "{file}: {count} rows{words}")?;
    }
    Ok(are_right)
}

// Returns true if the outcome is the one that is wanted, and prints it otherwise.
fn is_right<R: Print>(
    rt: &R,
    outcome: &Outcome,
    file: &str,
    row: &[Line],
    is_turned: bool,
) -> io::Result<bool>
    ensures { result ≡ Ok true → is_turned ≡ false → outcome.now ≡ Outcome.Agrees }
{
    match outcome {
        Outcome::Agrees if is_turned => print_row(rt, file, row, "agrees, and had to differ")?,
        Outcome::Differs(number, answers) if !is_turned => {
            print_difference(rt, file, row, *number, answers.as_slice())?;
        }
        Outcome::DiffersCut(cut, answers) if !is_turned => {
            print_cut_difference(rt, file, row, *cut, answers.as_slice())?;
        }
        Outcome::Malformed(number) => {
            print_row(rt, file, row, "cannot be played")?;
            println!(rt; "  line {number} is malformed")?;
        }
        Outcome::Memory => print_row(rt, file, row, "ran out of memory")?,
        _ => return Ok(true),
    }
    Ok(false)
}

// Prints the first line of a row, with its file and its number, and words after it.
fn print_row<R: Print>(rt: &R, file: &str, row: &[Line], words: &str) -> io::Result<()> {
    match row {
        [first, ..] => println!(rt; "{file}:{}: {} {words}", first.number, first.fields),
        [] => Ok(()),
    }
}

// Prints the row and the step, and the answers that were expected and came.
fn print_difference<R: Print>(
    rt: &R,
    file: &str,
    row: &[Line],
    number: u64,
    answers: &[Fields],
) -> io::Result<()> {
    print_row(rt, file, row, "differs")?;
    for (index, line) in row.iter().enumerate() {
        if line.number == number {
            println!(rt; "  line {number}: {}\n  expected:", line.fields)?;
            print_lines(rt, split_answers(&row[index + 1..]).0)?;
        }
    }
    print_answers(rt, answers)
}

// Prints the row, how its bytes were cut, and the answers that came.
fn print_cut_difference<R: Print>(
    rt: &R,
    file: &str,
    row: &[Line],
    cut: Cut,
    answers: &[Fields],
) -> io::Result<()> {
    match cut {
        Cut::At(at) => {
            print_row(rt, file, row, "differs")?;
            println!(rt; "  its bytes were cut in two at {at}")?;
        }
        Cut::EachByte => print_row(rt, file, row, "differs byte by byte")?,
    }
    println!(rt; "  the row:")?;
    print_lines(rt, row)?;
    print_answers(rt, answers)
}

fn print_lines<R: Print>(rt: &R, lines: &[Line]) -> io::Result<()> {
    for line in lines {
        println!(rt; "    {}", line.fields)?;
    }
    Ok(())
}

fn print_answers<R: Print>(rt: &R, answers: &[Fields]) -> io::Result<()> {
    println!(rt; "  got:")?;
    for answer in answers {
        println!(rt; "    = {answer}")?;
    }
    Ok(())
}
