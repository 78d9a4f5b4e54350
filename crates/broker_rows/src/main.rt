//! Plays rows of a broker and of what it stores: files of data/, which another broker could be
//! played with too.
#![tactic(auto)]

mod broker_commands;
mod broker_outputs;
mod broker_steps;
mod index_steps;
mod kinds;
mod packets;
mod session_handshakes;
mod session_queue;
mod session_steps;
mod store_steps;
mod values;

use crate::kinds::Kinds;
use anyhow::{Context, Result, bail};
use rows::play_file;

// The files whose rows have to agree.
const FILES: &[&str] = &["index.rows", "store.rows", "session.rows", "broker.rows"];

// The file whose rows have to differ.
const TURNED: &str = "must_differ.rows";

// Plays all files, and fails if a row of one is wrong.
fn main(rt: HostRuntime) -> Result<()> {
    let mut are_right = true;
    for file in FILES {
        are_right &= play_file(&rt, &Kinds, file, false).context(format_args!("reading {file}"))?;
    }
    are_right &= play_file(&rt, &Kinds, TURNED, true).context(format_args!("reading {TURNED}"))?;
    if !are_right {
        bail!("a row is wrong");
    }
    Ok(())
}
