// Reading a message from its bytes.

ghost use Rattle.std.specs.Prelude.{◌≡◌, Ok, true, IfOk, IsErrOf, OnErr};
ghost use Rattle.packet_base.specs.Outcome.{Gives, IsOutOfMemory, Reads, TakesNoMemory};
ghost use Rattle.links.specs.message_form.MessageReading.{append_at, ballot_log_at, body_of_kind};
ghost use Rattle.links.specs.message_form.MessageReading.{message_at, new_ballot_at, numbers_of_kind};
ghost use Rattle.links.specs.message_form.MessageReading.{pair_at, whole_message};
ghost use Rattle.links.specs.message_form.LogReading.{members_at};
ghost use Rattle.links.specs.message_form.Growth.{append_asks, ballot_log_asks, body_asks, message_asks};
ghost use Rattle.links.specs.message_form.Growth.{has_some, new_ballot_asks, MayNeedMemory};
ghost use Rattle.links.specs.message_form.Outcome.{fault_of, message_of, IsReadFrom, ReadsWhatIsWritten};
ghost use Rattle.links.specs.message_form.Outcome.{Yields};

use crate::message_form::command_readers::read_command;
use crate::message_form::log_readers::read_log;
use crate::message_form::numbers::read_wide_number;
use ballot_base::{Body, Log, Members, Message};
use broker_spec::Command;
use packet_base::{OUT_OF_MEMORY, Reader, Stop};
use std::alloc::Global;
use topics::MalformedKind;

/// Returns the message that these bytes are, or the kind of their first fault from the left.
///
/// A packet has the faults that `decode` finds, but `Protocol` for a CONNECT that a broker answers
/// by a CONNACK. `Text` and `Identifier` are those of a Client Identifier. All else is `Shape`: a
/// kind that is not there, a name or a length out of its range, bytes that are missing or left
/// over. `Memory` may come only where nothing has a fault up to where it is first taken: after all
/// parts of a NewBallot, or of a command as it is alone, and of a log after its first command.
pub fn read_message(alloc: Global, bytes: &[u8]) -> Result<Message<Command>, MalformedKind>
    ensures exact { Yields result (message_of bytes.now) }

    // What is read is written so, and what is written is read.
    ensures found { IfOk result (IsReadFrom bytes.now) }
    ensures only { ReadsWhatIsWritten bytes.now result }

    // Memory runs out only if it is needed.
    ensures memory { IsErrOf result MalformedKind.Memory → MayNeedMemory bytes.now }
{
    read_kind_of_fault(alloc, bytes)
}

// Returns the message, or the kind of the first fault; its clauses do not speak of writing.
fn read_kind_of_fault(alloc: Global, bytes: &[u8]) -> Result<Message<Command>, MalformedKind>
    ensures exact { Yields result (message_of bytes.now) }
    ensures memory { IsErrOf result MalformedKind.Memory → MayNeedMemory bytes.now }
{
    match read_whole(alloc, bytes) {
        Ok(message) => Ok(message),
        Err(stop) => Err(fault_of(stop)),
    }
}

// Returns the kind of the fault that a reading stopped with.
fn fault_of(stop: Stop) -> MalformedKind
    ensures { result ≡ fault_of stop }
{
    match stop {
        Stop::More => MalformedKind::Shape,
        Stop::Malformed(kind) => kind,
        Stop::Refused(_) => MalformedKind::Protocol,
    }
}

// Reads the message that these bytes are.
#[tactic(auto, unfolding(crate::specs::message_form::MessageReading::whole_message))]
fn read_whole(alloc: Global, bytes: &[u8]) -> Result<Message<Command>, Stop>
    ensures exact { Gives (λ value. value) result (whole_message bytes.now) }
    ensures memory { IsOutOfMemory result → MayNeedMemory bytes.now }
{
    let mut reader = Reader::new(bytes);
    let message = read_front(alloc, &mut reader)?;
    reader.end()?;
    Ok(message)
}

// Reads the message at the front.
#[tactic(auto, unfolding(crate::specs::message_form::MessageReading::message_at, crate::specs::message_form::Growth::message_asks))]
fn read_front(alloc: Global, reader: &mut Reader) -> Result<Message<Command>, Stop>
    ensures exact { Reads (λ value. value) result reader.new (message_at reader.old) }
    ensures memory { IsOutOfMemory result → message_asks reader.old ≡ Ok true }
{
    let kind = reader.byte()?;
    let from = reader.byte()?;
    let body = read_body(alloc, kind, reader)?;
    Ok(Message { from, body })
}

// Reads the body of a message of this kind.
fn read_body(alloc: Global, kind: u8, reader: &mut Reader) -> Result<Body<Command>, Stop>
    ensures exact { Reads (λ value. value) result reader.new (body_of_kind kind reader.old) }
    ensures memory { IsOutOfMemory result → body_asks kind reader.old ≡ Ok true }
{
    match kind {
        1 => read_new_ballot(alloc, reader),
        3 => {
            let (ballot, log) = read_ballot_log(alloc, reader)?;
            Ok(Body::State(ballot, log))
        }
        4 => {
            let (ballot, log) = read_ballot_log(alloc, reader)?;
            Ok(Body::Install(ballot, log))
        }
        9 => read_append(alloc, reader),
        _ => read_numbers(kind, reader),
    }
}

// Reads the body of a kind that has numbers alone.
fn read_numbers(kind: u8, reader: &mut Reader) -> Result<Body<Command>, Stop>
    ensures exact { Reads (λ value. value) result reader.new (numbers_of_kind kind reader.old) }
    ensures memory { TakesNoMemory result }
{
    match kind {
        2 => {
            let (ballot, previous) = read_pair(reader)?;
            Ok(Body::Join(ballot, previous))
        }
        5 => {
            let (ballot, held) = read_pair(reader)?;
            Ok(Body::Installed(ballot, held))
        }
        6 => Ok(Body::Activate(read_wide_number(reader)?)),
        7 => Ok(Body::Activated(read_wide_number(reader)?)),
        8 => Ok(Body::Superseded(read_wide_number(reader)?)),
        10 => {
            let (ballot, held) = read_pair(reader)?;
            Ok(Body::Held(ballot, held))
        }
        11 => {
            let (ballot, held) = read_pair(reader)?;
            Ok(Body::Commit(ballot, held))
        }
        _ => Err(Stop::Malformed(MalformedKind::Shape)),
    }
}

#[tactic(auto, unfolding(crate::specs::message_form::MessageReading::pair_at))]
fn read_pair(reader: &mut Reader) -> Result<(u64, u64), Stop>
    ensures exact { Reads (λ value. value) result reader.new (pair_at reader.old) }
    ensures memory { TakesNoMemory result }
{
    let first = read_wide_number(reader)?;
    let second = read_wide_number(reader)?;
    Ok((first, second))
}

#[tactic(auto, unfolding(crate::specs::message_form::MessageReading::new_ballot_at, crate::specs::message_form::Growth::new_ballot_asks), using(crate::proofs::of_message_form::FewCommands::or_left, crate::proofs::of_message_form::FewCommands::or_right))]
fn read_new_ballot(alloc: Global, reader: &mut Reader) -> Result<Body<Command>, Stop>
    ensures exact { Reads (λ value. value) result reader.new (new_ballot_at reader.old) }
    ensures memory { IsOutOfMemory result → new_ballot_asks reader.old ≡ Ok true }
{
    let ballot = read_wide_number(reader)?;
    let members = read_members(reader)?;
    let previous = read_wide_number(reader)?;
    let previous_members = read_members(reader)?;
    let members = members_of(alloc, members)?;
    let previous_members = members_of(alloc, previous_members)?;
    Ok(Body::NewBallot(ballot, members, previous, previous_members))
}

// Reads the numbers of members, whose count is in the byte before them.
#[tactic(auto, unfolding(crate::specs::message_form::LogReading::members_at))]
fn read_members<'a>(reader: &mut Reader<'a>) -> Result<&'a [u8], Stop>
    ensures exact { Reads (λ numbers. numbers.now) result reader.new (members_at reader.old) }
    ensures memory { TakesNoMemory result }
{
    let count = reader.byte()?;
    reader.front(usize::from(count))
}

// Returns the members of these numbers. The only error is that memory ran out.
fn members_of(alloc: Global, numbers: &[u8]) -> Result<Members, Stop>
    ensures exact { Gives (λ members. members) result (Ok numbers.now) }
    ensures some { OnErr result (has_some numbers.now ≡ true) }
{
    if numbers.is_empty() {
        return Ok(Members::new(alloc));
    }
    match Members::from_slice(alloc, numbers) {
        Ok(members) => Ok(members),
        Err(_) => Err(OUT_OF_MEMORY),
    }
}

#[tactic(auto, unfolding(crate::specs::message_form::MessageReading::ballot_log_at, crate::specs::message_form::Growth::ballot_log_asks))]
fn read_ballot_log(alloc: Global, reader: &mut Reader) -> Result<(u64, Log<Command>), Stop>
    ensures exact { Reads (λ value. value) result reader.new (ballot_log_at reader.old) }
    ensures memory { IsOutOfMemory result → ballot_log_asks reader.old ≡ Ok true }
{
    let ballot = read_wide_number(reader)?;
    let log = read_log(alloc, reader)?;
    Ok((ballot, log))
}

#[tactic(auto, unfolding(crate::specs::message_form::MessageReading::append_at, crate::specs::message_form::Growth::append_asks))]
fn read_append(alloc: Global, reader: &mut Reader) -> Result<Body<Command>, Stop>
    ensures exact { Reads (λ value. value) result reader.new (append_at reader.old) }
    ensures memory { IsOutOfMemory result → append_asks reader.old ≡ Ok true }
{
    let (ballot, place) = read_pair(reader)?;
    let command = read_command(alloc, reader)?;
    Ok(Body::Append(ballot, place, command))
}
