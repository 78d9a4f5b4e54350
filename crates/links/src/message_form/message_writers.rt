// Writing a message.
//
// A message is appended whole or not at all: if memory runs out, the vector is cut back to what it
// had. So it runs out only where the vector has too little room, or for the buffer in which each
// command of a log is made.

ghost use Rattle.std.specs.Prelude.{◌≡◌, ◌<◌, ◌^◌, ◌↔◌, [], ◌∷◌, ◌++◌, OnErr, OnOk, IsErrOf, false};
ghost use Rattle.std.specs.Prelude.{length, nat_lt};
ghost use Rattle.links.specs.message_form.Messages.{are_too_many, body_bytes, has_too_many, kind_of};
ghost use Rattle.links.specs.message_form.Messages.{members_bytes, written, IsBody};
ghost use Rattle.links.specs.message_form.Commands.{command_bytes, IsCommand};
ghost use Rattle.links.specs.message_form.Messages.{log_bytes, AreCounted, IsLog, IsMessage, IsTooLarge};
ghost use Rattle.links.specs.message_form.Numbers.{wide_number, IsWide};
ghost use Rattle.links.specs.message_form.Room.{has_commands, Appends, Lacks, MayRunOut};

use crate::message_form::command_writers::write_command;
use crate::message_form::log_writers::write_log;
use crate::message_form::numbers::{write_bytes, write_wide_number};
use crate::message_form::write_fault::WriteFault;
use ballot_base::{Body, Log, Members, Message};
use broker_spec::Command;
use std::alloc::AllocError;

/// The most members that the one byte of their count can say.
const MAX_COUNTED: usize = 255;

/// Appends the bytes of a message. `TooLarge` comes exactly if a list of it has more than 255
/// members, and before memory is needed; `Memory` only if the vector had too little capacity and
/// could not grow, or for a log with commands, each of which is made in a buffer first. After an
/// error the vector has what it had.
pub fn write_message(message: &Message<Command>, out: &mut Vec<u8>) -> Result<(), WriteFault>
    ensures ok { OnOk result (out.new.items ≡ out.old.items ++ written message.now) }
    ensures fits { OnOk result (IsMessage message.now) }
    ensures large { IsErrOf result WriteFault.TooLarge ↔ IsTooLarge message.now }
    ensures room { IsErrOf result WriteFault.Memory → MayRunOut out.old message.now }
    ensures err { OnErr result (out.new.items ≡ out.old.items) }
{
    if has_too_many(&message.body) {
        return Err(WriteFault::TooLarge);
    }
    append_whole(message, out)?;
    Ok(())
}

// Returns true if a list of the body has too many members.
fn has_too_many(body: &Body<Command>) -> bool
    ensures { result ≡ has_too_many body.now }
{
    match body {
        Body::NewBallot(_, members, _, previous_members) => {
            are_too_many(members) || are_too_many(previous_members)
        }
        _ => false,
    }
}

fn are_too_many(members: &Members) -> bool
    ensures { result ≡ are_too_many members.now }
{
    members.as_slice().len() > MAX_COUNTED
}

// Appends a message. If memory runs out nothing is appended.
fn append_whole(message: &Message<Command>, out: &mut Vec<u8>) -> Result<(), AllocError>
    requires { has_too_many message.now.body ≡ false }
    ensures ok { OnOk result (out.new.items ≡ out.old.items ++ written message.now) }
    ensures fits { OnOk result (IsMessage message.now) }
    ensures room { OnErr result (MayRunOut out.old message.now) }
    ensures err { OnErr result (out.new.items ≡ out.old.items) }
{
    let len = out.len();
    let appended = append(message, out);
    if appended.is_err() {
        out.truncate(len);
    }
    appended
}

// Appends a message. If memory runs out, some of its bytes may have been appended, here and in the
// functions below.
fn append(message: &Message<Command>, bytes: &mut Vec<u8>) -> Result<(), AllocError>
    requires { has_too_many message.now.body ≡ false }
    ensures ok { OnOk result (bytes.new.items ≡ bytes.old.items ++ written message.now) }
    ensures fits { OnOk result (IsMessage message.now) }
    ensures err { OnErr result
        (Lacks bytes.old bytes.new (written message.now) (has_commands message.now.body)) }
{
    write_head(&message.body, message.from, bytes)?;
    write_body(&message.body, bytes)
}

// Appends the number of the kind, and that of the sender.
fn write_head(body: &Body<Command>, from: u8, bytes: &mut Vec<u8>) -> Result<(), AllocError>
    ensures ok { OnOk result (Appends bytes.old bytes.new (kind_of body.now ∷ from ∷ [])) }
    ensures fits { from < 2 ^ 8 }
    ensures err { OnErr result
        (Lacks bytes.old bytes.new (kind_of body.now ∷ from ∷ []) false) }
{
    write_bytes(&[kind_of(body), from], bytes)
}

// Returns the number of the kind.
fn kind_of(body: &Body<Command>) -> u8
    ensures { result ≡ kind_of body.now }
{
    match body {
        Body::NewBallot(_, _, _, _) => 1,
        Body::Join(_, _) => 2,
        Body::State(_, _) => 3,
        Body::Install(_, _) => 4,
        Body::Installed(_, _) => 5,
        Body::Activate(_) => 6,
        Body::Activated(_) => 7,
        Body::Superseded(_) => 8,
        Body::Append(_, _, _) => 9,
        Body::Held(_, _) => 10,
        Body::Commit(_, _) => 11,
    }
}

// Appends the parts of a body.
fn write_body(body: &Body<Command>, bytes: &mut Vec<u8>) -> Result<(), AllocError>
    requires { has_too_many body.now ≡ false }
    ensures ok { OnOk result (bytes.new.items ≡ bytes.old.items ++ body_bytes body.now) }
    ensures fits { OnOk result (IsBody body.now) }
    ensures err { OnErr result
        (Lacks bytes.old bytes.new (body_bytes body.now) (has_commands body.now)) }
{
    match body {
        Body::NewBallot(ballot, members, previous, previous_members) => {
            write_new_ballot(*ballot, members, *previous, previous_members, bytes)
        }
        Body::State(ballot, log) | Body::Install(ballot, log) => {
            write_ballot_log(*ballot, log, bytes)
        }
        Body::Append(ballot, place, command) => write_append(*ballot, *place, command, bytes),
        Body::Join(ballot, number)
        | Body::Installed(ballot, number)
        | Body::Held(ballot, number)
        | Body::Commit(ballot, number) => write_pair(*ballot, *number, bytes),
        Body::Activate(ballot) | Body::Activated(ballot) | Body::Superseded(ballot) => {
            write_wide_number(*ballot, bytes)
        }
    }
}

// Appends a ballot and its members, and the same of the ballot before it.
fn write_new_ballot(
    ballot: u64,
    members: &Members,
    previous: u64,
    previous_members: &Members,
    bytes: &mut Vec<u8>,
) -> Result<(), AllocError>
    requires few { are_too_many members.now ≡ false }
    requires few_previous { are_too_many previous_members.now ≡ false }
    ensures ok { OnOk result (Appends bytes.old bytes.new
        (wide_number ballot
        ++ (members_bytes members.now
        ++ (wide_number previous ++ members_bytes previous_members.now)))) }
    ensures fits { OnOk result (IsWide ballot × AreCounted members.now
        × IsWide previous × AreCounted previous_members.now) }
    ensures err { OnErr result (Lacks bytes.old bytes.new
        (wide_number ballot
        ++ (members_bytes members.now
        ++ (wide_number previous ++ members_bytes previous_members.now))) false) }
{
    write_wide_number(ballot, bytes)?;
    write_members(members.as_slice(), bytes)?;
    write_wide_number(previous, bytes)?;
    write_members(previous_members.as_slice(), bytes)
}

// Appends the numbers of members, their count in one byte before them.
fn write_members(members: &[u8], bytes: &mut Vec<u8>) -> Result<(), AllocError>
    requires { are_too_many members.now ≡ false }
    ensures ok { OnOk result (Appends bytes.old bytes.new (members_bytes members.now)) }
    ensures fits { AreCounted members.now }
    ensures err { OnErr result (Lacks bytes.old bytes.new (members_bytes members.now) false) }
{
    write_bytes(&[members.len() as u8], bytes)?;
    write_bytes(members, bytes)
}

// Appends a ballot and a log.
fn write_ballot_log(ballot: u64, log: &Log<Command>, bytes: &mut Vec<u8>) -> Result<(), AllocError>
    ensures ok { OnOk result
        (bytes.new.items ≡ bytes.old.items ++ (wide_number ballot ++ log_bytes log.now)) }
    ensures fits { OnOk result (IsWide ballot × IsLog log.now) }
    ensures err { OnErr result (Lacks bytes.old bytes.new
        (wide_number ballot ++ log_bytes log.now) (nat_lt 0 (length log.now.rest))) }
{
    write_wide_number(ballot, bytes)?;
    write_log(log, bytes)
}

// Appends a ballot, a place and the command at it.
fn write_append(
    ballot: u64,
    place: u64,
    command: &Command,
    bytes: &mut Vec<u8>,
) -> Result<(), AllocError>
    ensures ok { OnOk result
        (bytes.new.items
        ≡ bytes.old.items
        ++ (wide_number ballot ++ (wide_number place ++ command_bytes command.now))) }
    ensures fits { OnOk result (IsWide ballot × IsWide place × IsCommand command.now) }
    ensures err { OnErr result (Lacks bytes.old bytes.new
        (wide_number ballot ++ (wide_number place ++ command_bytes command.now)) false) }
{
    write_wide_number(ballot, bytes)?;
    write_wide_number(place, bytes)?;
    write_command(command, bytes)
}

// Appends two numbers.
fn write_pair(first: u64, second: u64, bytes: &mut Vec<u8>) -> Result<(), AllocError>
    ensures ok { OnOk result
        (Appends bytes.old bytes.new (wide_number first ++ wide_number second)) }
    ensures fits { IsWide first × IsWide second }
    ensures err { OnErr result
        (Lacks bytes.old bytes.new (wide_number first ++ wide_number second) false) }
{
    write_wide_number(first, bytes)?;
    write_wide_number(second, bytes)
}
