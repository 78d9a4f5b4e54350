// Reads logs from the front of a reader, which must not be used after an error.
//
// No room is made for a count or a length that was only read: a vector of commands grows by the
// commands that were read, and the snapshot is copied last, once all else is there.

ghost use Rattle.std.specs.Prelude.{◌≡◌, ◌<◌, ◌≤◌, [], Ok, Bool, true, IfOk, OnErr, length};
ghost use Rattle.packet_base.specs.Outcome.{Gives, IsOutOfMemory, Reads};
ghost use Rattle.session_base.specs.Counted.{counted_items_at, items_after, AddsItem};
ghost use Rattle.links.specs.message_form.Numbers.{wide_number_at};
ghost use Rattle.links.specs.message_form.LogReading.{anything, log_at, sized_command_at};
ghost use Rattle.links.specs.message_form.LogReading.{whole_command};
ghost use Rattle.links.specs.message_form.CommandReading.{command_asks};
ghost use Rattle.links.specs.message_form.Growth.{commands_ask, first_asks, has_some, log_asks};
ghost use Rattle.links.specs.message_form.Growth.{sized_asks};

use crate::message_form::command_readers::read_command;
use crate::message_form::numbers::{read_long_number, read_wide_number};
use ballot_base::Log;
use broker_spec::Command;
use bytes::Bytes;
use packet_base::{OUT_OF_MEMORY, Reader, Stop};
use std::alloc::Global;
use topics::MalformedKind;

/// Reads a log: its base, its snapshot, its commands.
#[tactic(auto, unfolding(crate::specs::message_form::LogReading::log_at, crate::specs::message_form::Growth::log_asks), using(crate::proofs::of_message_form::FewCommands::asked_all))]
pub(crate) fn read_log(alloc: Global, reader: &mut Reader) -> Result<Log<Command>, Stop>
    ensures exact { Reads (λ value. value) result reader.new (log_at reader.old) }
    ensures memory { IsOutOfMemory result → log_asks reader.old ≡ Ok true }
{
    let base = read_wide_number(reader)?;
    let len = read_wide_number(reader)?;
    let snapshot = reader.front(len as usize)?;
    let rest = read_commands(alloc, u64::MAX - base, reader)?;
    let snapshot = shared(alloc, snapshot)?;
    Ok(Log::from_parts(base, snapshot, rest))
}

// Returns a copy of these bytes. The only error is that memory ran out.
fn shared(alloc: Global, bytes: &[u8]) -> Result<Bytes, Stop>
    ensures value { IfOk result (λ copy. copy ≡ bytes.now) }
    ensures memory { OnErr result (IsOutOfMemory result) }
    ensures some { OnErr result (has_some bytes.now ≡ true) }
{
    if bytes.is_empty() {
        return Ok(Bytes::new());
    }
    match Bytes::copy_from_slice(alloc, bytes) {
        Ok(copy) => Ok(copy),
        Err(_) => Err(OUT_OF_MEMORY),
    }
}

// Reads the commands of a log: their count, which is at most `most`, and as many commands.
#[tactic(auto, unfolding(session_base::specs::Counted::counted_items_at, crate::specs::message_form::Growth::commands_ask))]
fn read_commands(alloc: Global, most: u64, reader: &mut Reader) -> Result<Vec<Command>, Stop>
    ensures exact { Reads (λ commands. commands.items) result reader.new
        (counted_items_at wide_number_at anything sized_command_at most reader.old) }
    ensures few { IfOk result (λ commands. length commands.items ≤ most) }
    ensures memory { (copies : Bool) → IsOutOfMemory result
        → commands_ask copies most reader.old ≡ Ok true }
{
    let count = read_wide_number(reader)?;
    if count > most {
        return Err(Stop::Malformed(MalformedKind::Shape));
    }
    read_counted(alloc, count, reader)
}

// Reads this many commands.
fn read_counted(alloc: Global, count: u64, reader: &mut Reader) -> Result<Vec<Command>, Stop>
    ensures exact { Reads (λ commands. commands.items) result reader.new
        (items_after anything sized_command_at count [] reader.old) }
    ensures memory { IsOutOfMemory result → first_asks reader.old ≡ true }
    ensures some { IsOutOfMemory result → 0 < count }
{
    let mut commands = Vec::new(alloc);
    for _ in 0..count {
        let command = read_sized_command(alloc, reader)?;
        add_command(&mut commands, command)?;
    }
    Ok(commands)
}

// Appends a command. The only error is that memory ran out.
fn add_command(commands: &mut Vec<Command>, command: Command) -> Result<(), Stop>
    ensures { AddsItem anything commands.old.items command result commands.new.items }
{
    match commands.push(command) {
        Ok(()) => Ok(()),
        Err(_) => Err(OUT_OF_MEMORY),
    }
}

// Reads a command that has as many bytes as the length before it says.
#[tactic(auto, unfolding(crate::specs::message_form::LogReading::sized_command_at, crate::specs::message_form::Growth::sized_asks))]
fn read_sized_command(alloc: Global, reader: &mut Reader) -> Result<Command, Stop>
    ensures exact { Reads (λ value. value) result reader.new (sized_command_at reader.old) }
    ensures memory { IsOutOfMemory result → sized_asks reader.old ≡ Ok true }
{
    let len = read_long_number(reader)?;
    read_whole_command(alloc, reader.front(len as usize)?)
}

// Reads the command that these bytes are.
#[tactic(auto, unfolding(crate::specs::message_form::LogReading::whole_command))]
fn read_whole_command(alloc: Global, bytes: &[u8]) -> Result<Command, Stop>
    ensures exact { Gives (λ value. value) result (whole_command bytes.now) }
    ensures memory { IsOutOfMemory result → command_asks bytes.now ≡ Ok true }
{
    let mut reader = Reader::new(bytes);
    let command = read_command(alloc, &mut reader)?;
    reader.end()?;
    Ok(command)
}
