// Applying places of a log to the machine.

ghost use Rattle.std.specs.Prelude.{◌≡◌, ◌<◌, ◌≤◌, ◌++◌, map, OnOk, OnErr};
ghost use Rattle.machine.specs.Machine.{replay_from};
ghost use Rattle.lists.specs.Lists.{IsPrefixOf};
ghost use Rattle.ballot_base.specs.Application.{outputs_from};
ghost use Rattle.ballot_base.specs.Logs.{part, places};

use crate::{Effect, Log};
use machine::{Halted, Machine};
use std::alloc::Global;

// Appends the outputs of one place. On an error some of them may have been appended to `out`.
fn append_outputs<C: Drop, O: Drop>(
    place: u64,
    given: Vec<O>,
    out: &mut Vec<Effect<C, O>>,
) -> Result<(), Halted>
    ensures ok { OnOk result (out.new.items ≡ out.old.items ++ map (Effect.Out place) given.items) }
    ensures err { OnErr result (IsPrefixOf out.old.items out.new.items) }
{
    for output in given {
        out.push(Effect::Out(place, output))?;
    }
    Ok(())
}

/// Applies the places between two lengths of the log and drops their outputs. On an error the
/// machine is in an intermediate state.
pub fn apply_dropping<M: Machine>(
    alloc: Global,
    machine: &mut M,
    log: &Log<M::Command>,
    from: u64,
    to: u64,
) -> Result<(), Halted>
    requires kept { log.now.base ≤ from }
    requires rising { from ≤ to }
    requires within { to ≤ places log.now }
    ensures state { OnOk result
        (machine.new ≡ replay_from M.rules machine.old (part log.now from to)) }
    ensures some { OnErr result (from < to) }
{
    let base = log.base();
    let rest = log.rest();
    for place in from..to {
        let mut given = Vec::new(alloc);
        machine.apply(&rest[(place - base) as usize], &mut given)?;
    }
    Ok(())
}

/// Applies the places between two lengths of the log and appends their outputs. On an error the
/// machine is in an intermediate state, and some outputs may have been appended to `out`.
pub fn apply_places<M: Machine>(
    alloc: Global,
    machine: &mut M,
    log: &Log<M::Command>,
    from: u64,
    to: u64,
    out: &mut Vec<Effect<M::Command, M::Output>>,
) -> Result<(), Halted>
    requires kept { log.now.base ≤ from }
    requires rising { from ≤ to }
    requires within { to ≤ places log.now }
    ensures state { OnOk result
        (machine.new ≡ replay_from M.rules machine.old (part log.now from to)) }
    ensures outputs { OnOk result
        (out.new.items ≡ out.old.items ++
        outputs_from M.rules machine.old from (part log.now from to)) }
    ensures some { OnErr result (from < to) }
    ensures err { OnErr result (IsPrefixOf out.old.items out.new.items) }
{
    let base = log.base();
    let rest = log.rest();
    for place in from..to {
        let mut given = Vec::new(alloc);
        machine.apply(&rest[(place - base) as usize], &mut given)?;
        append_outputs(place, given, out)?;
    }
    Ok(())
}
