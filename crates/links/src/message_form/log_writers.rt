// Appends logs to a vector. If memory runs out, a part may have been appended.

ghost use Rattle.std.specs.Prelude.{◌≡◌, ◌++◌, ◌<◌, false, OnOk, OnErr, length, nat_lt, take};
ghost use Rattle.std.specs.List.{flat_map, AllByRecursion};
ghost use Rattle.links.specs.message_form.Commands.{IsCommand};
ghost use Rattle.links.specs.message_form.Messages.{log_bytes, sized_command_bytes, IsLog};
ghost use Rattle.links.specs.message_form.Room.{Lacks};

use crate::message_form::command_writers::write_command;
use crate::message_form::numbers::{write_bytes, write_wide_number};
use ballot_base::Log;
use broker_spec::Command;
use std::alloc::AllocError;

/// Appends a log: its base, its snapshot, its commands.
pub(crate) fn write_log(log: &Log<Command>, bytes: &mut Vec<u8>) -> Result<(), AllocError>
    ensures ok { OnOk result (bytes.new.items ≡ bytes.old.items ++ log_bytes log.now) }
    ensures fits { OnOk result (IsLog log.now) }
    ensures err { OnErr result
        (Lacks bytes.old bytes.new (log_bytes log.now) (nat_lt 0 (length log.now.rest))) }
{
    write_wide_number(log.base(), bytes)?;
    write_wide_number(log.snapshot().len() as u64, bytes)?;
    write_bytes(log.snapshot(), bytes)?;
    write_wide_number(log.rest().len() as u64, bytes)?;
    write_commands(log.rest(), bytes)
}

// Appends each command with its length before it.
fn write_commands(commands: &[Command], bytes: &mut Vec<u8>) -> Result<(), AllocError>
    ensures ok { OnOk result
        (bytes.new.items ≡ bytes.old.items ++ flat_map sized_command_bytes commands.now) }
    ensures fits { OnOk result (AllByRecursion IsCommand commands.now) }
    ensures kept { OnErr result
        (take (length bytes.old.items) bytes.new.items ≡ bytes.old.items) }
    ensures some { OnErr result (0 < length commands.now) }
{
    let mut buffer = Vec::new(*bytes.allocator());
    for command in commands {
        write_sized_command(command, &mut buffer, bytes)?;
    }
    Ok(())
}

// Appends a command with its length before it; the buffer is for its bytes.
#[tactic(auto, using(crate::proofs::of_message_form::Lengths::command_short))]
fn write_sized_command(
    command: &Command,
    buffer: &mut Vec<u8>,
    bytes: &mut Vec<u8>,
) -> Result<(), AllocError>
    ensures ok { OnOk result
        (bytes.new.items ≡ bytes.old.items ++ sized_command_bytes command.now) }
    ensures fits { OnOk result (IsCommand command.now) }
    ensures kept { OnErr result
        (take (length bytes.old.items) bytes.new.items ≡ bytes.old.items) }
{
    buffer.clear();
    write_command(command, buffer)?;
    let len = buffer.len() as u32;
    write_bytes(&len.to_be_bytes(), bytes)?;
    write_bytes(buffer, bytes)
}
