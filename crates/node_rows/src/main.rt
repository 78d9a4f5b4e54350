//! Plays rows of one node, of groups of nodes and of a client: files of data/.
#![tactic(auto)]

mod accepted;
mod answers;
mod client_calls;
mod client_steps;
mod cut_pieces;
mod group_events;
mod group_messages;
mod group_steps;
mod kinds;
mod node_items;
mod node_steps;
mod openings;
mod values;

use crate::kinds::Kinds;
use anyhow::{Context, Result, bail};
use rows::play_file;

// The files whose rows have to agree.
const FILES: &[&str] = &["node.rows", "replica.rows", "group.rows", "client.rows"];

// The file whose rows have to differ.
const TURNED: &str = "must_differ.rows";

// Plays all files, and fails if a row of one is wrong.
fn main(rt: HostRuntime) -> Result<()> {
    let mut are_right = true;
    for file in FILES {
        are_right &= play_file(&rt, &Kinds, file, false).context(format_args!("reading {file}"))?;
    }
    are_right &= play_file(&rt, &Kinds, TURNED, true).context(format_args!("reading {TURNED}"))?;
    if !are_right {
        bail!("a row is wrong");
    }
    Ok(())
}
