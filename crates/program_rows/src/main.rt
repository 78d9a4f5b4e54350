//! Plays rows of command lines, tables of nodes and scripts: files of data/.
#![tactic(auto)]

mod answers;
mod command_steps;
mod job_fields;
mod kinds;
mod script_fields;
mod script_steps;
mod table_steps;
mod text_steps;

use crate::kinds::Kinds;
use anyhow::{Context, Result, bail};
use rows::play_file;

// The files whose rows have to agree.
const FILES: &[&str] = &["command.rows", "table.rows", "script.rows"];

// The file whose rows have to differ.
const TURNED: &str = "must_differ.rows";

// Plays all files, and fails if a row of one is wrong.
fn main(rt: HostRuntime) -> Result<()> {
    let mut are_right = true;
    for file in FILES {
        are_right &= play_file(&rt, &Kinds, file, false).context(format_args!("reading {file}"))?;
    }
    are_right &= play_file(&rt, &Kinds, TURNED, true).context(format_args!("reading {TURNED}"))?;
    if !are_right {
        bail!("a row is wrong");
    }
    Ok(())
}
