//! Draws runs of whole worlds from seeds: crashes, cuts, changes of configuration, messages that
//! come late, never, again or in another order, connections cut at any byte. It looks after each
//! event whether what was promised holds. Of a run that fails it prints a script, shortened, which
//! `vbroker play` replays.
#![tactic(auto)]

mod course;
mod draw;
mod line;
mod looking;
mod looks;
mod opening;
mod options;
mod run;
mod saying;
mod shortening;

use crate::line::line_of;
use crate::looks::Broken;
use crate::options::Options;
use crate::run::{Counts, Run, drawn};
use crate::shortening::shortened;
use anyhow::{Result, bail};
use std::env;

// Draws the runs that the words ask for, and prints what they came to.
fn main(rt: HostRuntime) -> Result<()> {
    let words: Vec<String> = env::args(&rt)?.collect(rt.alloc())?;
    let mut options = Options::usual();
    for pair in words.as_slice().get(1..).unwrap_or(&[]).chunks(2) {
        let is_set = match pair {
            [word, value] => options.set(word.as_str(), value.as_str()),
            _ => false,
        };
        if !is_set {
            bail!(
                "words are --seed, --seeds, --events (1 to 2000), --nodes (1 to 7), \
                 --clients (1 to 8), --counts and --scripts (0 or 1), each with a number"
            );
        }
    }
    simulate(&rt, &options)
}

// Draws one run after the other, up to the first that fails.
fn simulate(rt: &HostRuntime, options: &Options) -> Result<()> {
    for count in 0..options.seeds {
        simulate_one(rt, options, options.seed.wrapping_add(count))?;
    }
    let (seeds, events) = (options.seeds, options.events);
    println!(rt; "{seeds} runs of {events} events: every check passed")?;
    Ok(())
}

// Draws the run of a seed, and lends it, so that no exit from what follows has to drop it.
fn simulate_one(rt: &HostRuntime, options: &Options, seed: u64) -> Result<()> {
    match drawn(rt.alloc(), options, seed) {
        Some(run) => {
            let shown = show(rt, options, seed, &run);
            drop(run);
            shown
        }
        None => bail!("seed {seed}: out of memory"),
    }
}

// Prints what is asked for of a run, and ends the program if it failed.
fn show(rt: &HostRuntime, options: &Options, seed: u64, run: &Run) -> Result<()> {
    if options.counts {
        print_counts(rt, seed, run.counts)?;
    }
    if options.scripts {
        print(rt, run, &[])?;
    }
    match run.broken {
        Some(broken) => fail(rt, seed, run, broken),
        None => Ok(()),
    }
}

// Prints how far a run went.
fn print_counts(rt: &HostRuntime, seed: u64, counts: Counts) -> Result<()> {
    let (happened, agreed, messages) = (counts.happened, counts.agreed, counts.messages);
    let (ballot, accepted) = (counts.ballot, counts.accepted);
    println!(rt;
        "seed {seed}: {happened} happened, {agreed} agreed, {accepted} accepted, \
         {messages} messages, ballot {ballot}"
    )?;
    Ok(())
}

// Prints the script of a run that fails, shortened, and ends the program.
fn fail(rt: &HostRuntime, seed: u64, run: &Run, broken: Broken) -> Result<()> {
    let count = run.events.len();
    println!(rt; "# seed {seed}, {count} events: {broken}")?;
    let Some(out) = shortened(rt.alloc(), run) else {
        bail!("out of memory");
    };
    print(rt, run, out.as_slice())?;
    bail!("seed {seed}: {broken}");
}

// Prints the script of a run without the events that are left out.
fn print(rt: &HostRuntime, run: &Run, out: &[bool]) -> Result<()> {
    let line = run.opening.line(rt.alloc())?;
    println!(rt; "{line}")?;
    for (at, event) in run.events.iter().enumerate() {
        if !out.get(at).copied().unwrap_or(false) {
            let line = line_of(rt.alloc(), event)?;
            println!(rt; "{line}")?;
        }
    }
    Ok(())
}
