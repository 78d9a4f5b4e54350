// What a broker sends for a command, as answers.

ghost use Rattle.std.specs.Prelude.{◌≡◌, ◌++◌, map, IfOk, OnOk};
ghost use Rattle.broker_base.specs.form.BrokerRules.{broker_rules};
ghost use Rattle.broker_rows.specs.BrokerSteps.{output_fields};

use crate::packets::put_packet;
use broker::BrokerMachine;
use broker_spec::{Command, Output};
use machine::Machine;
use rows::{Fields, StepFault, counted};
use std::alloc::Global;

/// Does a command, and returns the answers of what is sent for it.
pub(crate) fn done(
    alloc: Global,
    broker: &mut BrokerMachine,
    command: Command,
) -> Result<Vec<Fields>, StepFault>
    ensures sends { IfOk result (λ answers.
        answers.items ≡ map output_fields (broker_rules.gives broker.old command)) }
    ensures state { OnOk result (broker.new ≡ broker_rules.after broker.old command) }
{
    let applied = applied(alloc, broker, &command);
    drop(command);
    let sent = applied?;
    Ok(output_answers(alloc, sent.as_slice())?)
}

// Applies a command, and returns what is sent for it.
fn applied(
    alloc: Global,
    broker: &mut BrokerMachine,
    command: &Command,
) -> Result<Vec<Output>, StepFault>
    ensures sends { IfOk result (λ out. out.items ≡ broker_rules.gives broker.old command.now) }
    ensures state { OnOk result (broker.new ≡ broker_rules.after broker.old command.now) }
{
    let mut out = Vec::new(alloc);
    match broker.apply(command, &mut out) {
        Ok(()) => Ok(out),
        Err(_) => Err(StepFault::Memory),
    }
}

// Returns the answers of what a broker sends.
fn output_answers(alloc: Global, sent: &[Output]) -> Result<Vec<Fields>, StepFault>
    ensures { IfOk result (λ answers. answers.items ≡ map output_fields sent.now) }
{
    let mut answers = Vec::new(alloc);
    append_outputs(alloc, sent, &mut answers)?;
    Ok(answers)
}

// Appends the answer of each output.
fn append_outputs(
    alloc: Global,
    sent: &[Output],
    answers: &mut Vec<Fields>,
) -> Result<(), StepFault>
    ensures { OnOk result (answers.new.items ≡ answers.old.items ++ map output_fields sent.now) }
{
    if let [output, rest @ ..] = sent {
        answers.push(output_fields(alloc, output)?)?;
        append_outputs(alloc, rest, answers)?;
    }
    Ok(())
}

// Returns the answer of an output.
fn output_fields(alloc: Global, output: &Output) -> Result<Fields, StepFault>
    ensures { IfOk result (λ answer. answer ≡ output_fields output.now) }
{
    match output {
        Output::Send(connection, packet) => {
            let mut answer = counted(alloc, "send", connection.count())?;
            put_packet(alloc, packet, &mut answer)?;
            Ok(answer)
        }
        Output::Close(connection) => Ok(counted(alloc, "close", connection.count())?),
    }
}
