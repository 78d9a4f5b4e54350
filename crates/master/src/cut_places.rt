// The record of the places that nodes cut from their logs.

ghost use Rattle.std.specs.Prelude.{◌≡◌, ◌≤◌, ◌-◌, ◌++◌, length, take, drop, OnOk, OnErr};
ghost use Rattle.lists.specs.Lists.{IsPrefixOf};

use machine::{Machine, Memory};
use std::alloc::Global;

/// Appends to the record the places of a log below `committed` that it does not have yet. If memory
/// runs out, some of them may have been appended.
pub fn record<M: Machine>(
    alloc: Global,
    archive: &mut Vec<M::Command>,
    base: u64,
    committed: u64,
    rest: &[M::Command],
) -> Result<(), Memory>
    requires recorded { base ≤ length archive.old.items }
    requires within { committed - base ≤ length rest.now }
    ensures ok { OnOk result (archive.new.items ≡ archive.old.items
        ++ drop (length archive.old.items - base) (take (committed - base) rest.now)) }
    ensures err { OnErr result (IsPrefixOf archive.old.items archive.new.items) }
{
    let from = archive.len() - base as usize;
    let to = committed.saturating_sub(base) as usize;
    if to <= from {
        return Ok(());
    }
    append_copies::<M>(alloc, archive, &rest[from..to])
}

// Appends copies of commands to a list. If memory runs out, some of them may have been appended.
fn append_copies<M: Machine>(
    alloc: Global,
    list: &mut Vec<M::Command>,
    commands: &[M::Command],
) -> Result<(), Memory>
    ensures ok { OnOk result (list.new.items ≡ list.old.items ++ commands.now) }
    ensures err { OnErr result (IsPrefixOf list.old.items list.new.items) }
{
    for command in commands {
        list.push(M::copy(alloc, command)?)?;
    }
    Ok(())
}
