// Messages, commands and outputs of a group of nodes that add numbers, as answers.

ghost use Rattle.std.specs.Prelude.{◌≡◌, ◌++◌, map, IfOk, OnOk};
ghost use Rattle.node_rows.specs.GroupAnswers.{body_fields, command_fields, commands_fields, log_fields, members_fields, message_fields};

use crate::answers::{put_number, put_numbers};
use ballot_base::{Body, Log, Message};
use machine::TallyCommand;
use rows::{Fields, counted};
use std::alloc::{AllocError, Global};

/// Returns the answer of a message and its receiver.
pub(crate) fn message_fields(
    alloc: Global,
    receiver: u8,
    message: &Message<TallyCommand>,
) -> Result<Fields, AllocError>
    ensures { IfOk result (λ answer. answer ≡ message_fields (receiver, message.now)) }
{
    let mut answer = counted(alloc, "from", u64::from(message.from))?;
    put_number("to", u64::from(receiver), &mut answer)?;
    put_body(&message.body, &mut answer)?;
    Ok(answer)
}

fn put_body(body: &Body<TallyCommand>, out: &mut Fields) -> Result<(), AllocError>
    ensures { OnOk result (out.new ≡ out.old ++ body_fields body.now) }
{
    match body {
        Body::NewBallot(ballot, members, previous, before) => {
            put_members("newballot", *ballot, members.as_slice(), out)?;
            put_members("after", *previous, before.as_slice(), out)
        }
        Body::Join(ballot, previous) => put_numbers("join", &[*ballot, *previous], out),
        Body::State(ballot, log) => put_log("state", *ballot, log, out),
        Body::Install(ballot, log) => put_log("install", *ballot, log, out),
        Body::Installed(ballot, held) => put_numbers("installed", &[*ballot, *held], out),
        Body::Activate(ballot) => put_number("activate", *ballot, out),
        Body::Activated(ballot) => put_number("activated", *ballot, out),
        Body::Superseded(ballot) => put_number("superseded", *ballot, out),
        Body::Append(ballot, place, command) => {
            put_numbers("append", &[*ballot, *place], out)?;
            put_command(command, out)
        }
        Body::Held(ballot, held) => put_numbers("held", &[*ballot, *held], out),
        Body::Commit(ballot, held) => put_numbers("commit", &[*ballot, *held], out),
    }
}

/// Appends a word, a ballot and its members.
pub(crate) fn put_members(
    word: &str,
    ballot: u64,
    members: &[u8],
    out: &mut Fields,
) -> Result<(), AllocError>
    ensures { OnOk result (out.new ≡ out.old ++ members_fields word.now ballot members.now) }
{
    put_number(word, ballot, out)?;
    out.bytes(members)
}

fn put_log(
    word: &str,
    ballot: u64,
    log: &Log<TallyCommand>,
    out: &mut Fields,
) -> Result<(), AllocError>
    ensures { OnOk result (out.new ≡ out.old ++ log_fields word.now ballot log.now) }
{
    put_numbers(word, &[ballot, log.base()], out)?;
    out.bytes(log.snapshot())?;
    put_commands(log.rest(), out)
}

fn put_commands(commands: &[TallyCommand], out: &mut Fields) -> Result<(), AllocError>
    ensures { OnOk result (out.new ≡ out.old ++ commands_fields commands.now) }
{
    if let [command, rest @ ..] = commands {
        put_command(command, out)?;
        put_commands(rest, out)?;
    }
    Ok(())
}

fn put_command(command: &TallyCommand, out: &mut Fields) -> Result<(), AllocError>
    ensures { OnOk result (out.new ≡ out.old ++ command_fields command.now) }
{
    match command {
        TallyCommand::Add(number) => put_number("add", *number, out),
        TallyCommand::Start(ballot) => put_number("start", *ballot, out),
    }
}

/// Appends the answer of each command.
pub(crate) fn append_commands(
    alloc: Global,
    commands: &[TallyCommand],
    answers: &mut Vec<Fields>,
) -> Result<(), AllocError>
    ensures { OnOk result (answers.new.items ≡ answers.old.items ++ map command_fields commands.now) }
{
    if let [command, rest @ ..] = commands {
        let mut answer = Fields::new(alloc);
        put_command(command, &mut answer)?;
        answers.push(answer)?;
        append_commands(alloc, rest, answers)?;
    }
    Ok(())
}
