//! Plays rows of topics, packets and streams of packets: files of data/, which another broker
//! could be played with too.
#![tactic(auto)]

mod answers;
mod kinds;
mod packet_fields;
mod packet_steps;
mod stream_pieces;
mod stream_steps;
mod topic_steps;

use crate::kinds::Kinds;
use anyhow::{Context, Result, bail};
use rows::play_file;

// The files whose rows have to agree.
const FILES: &[&str] = &["topic.rows", "packet.rows", "stream.rows"];

// The file whose rows have to differ.
const TURNED: &str = "must_differ.rows";

// Plays all files, and fails if a row of one is wrong.
fn main(rt: HostRuntime) -> Result<()> {
    let mut are_right = true;
    for file in FILES {
        are_right &= play_file(&rt, &Kinds, file, false).context(format_args!("reading {file}"))?;
    }
    are_right &= play_file(&rt, &Kinds, TURNED, true).context(format_args!("reading {TURNED}"))?;
    if !are_right {
        bail!("a row is wrong");
    }
    Ok(())
}
