// Copies of logs for messages.

ghost use Rattle.std.specs.Prelude.{◌≡◌, IfOk};

use crate::Log;
use machine::{Machine, Memory};
use std::alloc::Global;

/// Returns a copy of a log, which shares its snapshot. Fails only if memory runs out.
pub fn copy_log<M: Machine>(alloc: Global, log: &Log<M::Command>) -> Result<Log<M::Command>, Memory>
    ensures { IfOk result (λ copied. copied ≡ log.now) }
{
    let snapshot = log.shared_snapshot().clone()?;
    let rest = copy_commands::<M>(alloc, log.rest())?;
    Ok(Log::from_parts(log.base(), snapshot, rest))
}

// Returns a copy of `commands`. Fails only if memory runs out.
fn copy_commands<M: Machine>(
    alloc: Global,
    commands: &[M::Command],
) -> Result<Vec<M::Command>, Memory>
    ensures { IfOk result (λ copied. copied.items ≡ commands.now) }
{
    let mut copied = Vec::new(alloc);
    for command in commands {
        copied.push(M::copy(alloc, command)?)?;
    }
    Ok(copied)
}
