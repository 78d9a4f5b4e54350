//! Measurements, one a run: the first word names it, and without a word the names are listed. The
//! figures are in `docs/PERFORMANCE.md`.
#![tactic(auto)]

mod brokers;
mod inbox;
mod measures;
mod messages;
mod seals;
mod tree;

use anyhow::{Result, bail};
use std::env;

/// The measurements: those of parts, and those of the broker.
const NAMES: [&str; 8] = [
    "inbox",
    "messages",
    "seals",
    "tree",
    "expelling",
    "freezing",
    "node",
    "publications",
];

fn main(rt: HostRuntime) -> Result<()> {
    let mut words = env::args(&rt)?;
    words.next();
    match words.next() {
        // It starts threads, which only `main` may do with the runtime itself.
        Some(name) if name.as_str() == "inbox" => inbox::run(&rt, rt.alloc()),
        Some(name) => run(&rt, name.as_str()),
        None => list(&rt),
    }
}

// Prints the names, a line each.
fn list<R: Print>(rt: &R) -> Result<()> {
    for name in NAMES {
        println!(rt; "{name}")?;
    }
    Ok(())
}

fn run(rt: &HostRuntime, name: &str) -> Result<()> {
    match name {
        "messages" => messages::run(rt),
        "seals" => seals::run(rt),
        "tree" => tree::run(rt),
        "expelling" => brokers::expelling::run(rt),
        "freezing" => brokers::freezing::run(rt),
        "node" => brokers::node::run(rt),
        "publications" => brokers::publications::run(rt),
        _ => bail!("no measurement has the name {name}"),
    }
}
