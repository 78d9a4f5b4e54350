//! A program that embeds the broker: it calls each name of the public crates once, checks what the
//! call returns, and prints how many names of each crate it used.
#![tactic(auto)]

mod bytes;
mod clients;
mod machines;
mod names;
mod node_steps;
mod nodes;
mod replication;
mod storage;
mod words;
mod worlds;

use anyhow::Result;

// Uses all crates, from below.
fn main(rt: HostRuntime) -> Result<()> {
    let alloc = rt.alloc();
    words::run(&rt, alloc)?;
    storage::run(&rt, alloc)?;
    machines::run(&rt, alloc)?;
    replication::run(&rt, alloc)?;
    clients::run(&rt, alloc)?;
    worlds::run(&rt, alloc)?;
    nodes::run(&rt, alloc)
}
