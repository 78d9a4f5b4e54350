// Steps of a broker: what comes on connections, and what it sends then (MQTT 3, 4); its bytes.

ghost use Rattle.std.specs.Prelude.{◌≡◌, ◌∷◌, [], codes, IfOk};
ghost use Rattle.rows.specs.Playing.{Agrees};
ghost use Rattle.broker_base.specs.form.BrokerRules.{broker_rules};
ghost use Rattle.broker_rows.specs.BrokerSteps.{BrokerAgrees, BrokerDoes, BrokerStep};

use crate::broker_commands::{connect, expel, lost, receive, restart};
use crate::packets::bytes_answer;
use broker::BrokerMachine;
use machine::{Machine, ThawFault};
use rows::{Field, Fields, Line, Outcome, StepFault, Tested, only, play_steps, word};
use std::alloc::Global;

/// A broker.
pub(crate) struct Broker {
    machine: BrokerMachine,
}

impl Drop for Broker {
    fn drop(self) {
        let Broker { machine: _machine } = self;
    }
}

impl Tested for Broker {
    ghost use Rattle.broker_rows.specs.BrokerSteps.{BrokerDoes};

    ghost Does = { BrokerDoes };

    fn step(&mut self, alloc: Global, step: &Fields) -> Result<Vec<Fields>, StepFault> {
        step_of(alloc, &mut self.machine, step.as_slice())
    }
}

/// Plays steps of a broker.
pub(crate) fn play_broker(alloc: Global, steps: &[Line]) -> Outcome
    ensures { result ≡ Outcome.Agrees → BrokerAgrees steps.now }
{
    match BrokerMachine::fresh(alloc) {
        Ok(machine) => play_with(alloc, machine, steps),
        Err(_) => Outcome::Memory,
    }
}

fn play_with(alloc: Global, machine: BrokerMachine, steps: &[Line]) -> Outcome
    ensures { result ≡ Outcome.Agrees
        → Agrees BrokerDoes (record { machine = machine }) steps.now }
{
    let mut broker = Broker { machine };
    let outcome = play_steps(alloc, &mut broker, steps);
    drop(broker);
    outcome
}

// Does a step.
fn step_of(
    alloc: Global,
    broker: &mut BrokerMachine,
    step: &[Field],
) -> Result<Vec<Fields>, StepFault>
    ensures { IfOk result (λ answers.
        BrokerStep broker.old step.now answers.items broker.new) }
{
    match step {
        [word] => alone(alloc, broker, word),
        [word, field] => with_field(alloc, broker, word, field),
        [word, connection, bytes] => with_bytes(alloc, broker, word, connection, bytes),
        [word, connection, client, clean] => {
            with_client(alloc, broker, word, connection, client, clean)
        }
        _ => Err(StepFault::Form),
    }
}

// Does a step of a word alone.
#[tactic(auto, using(crate::proofs::BrokerAnswers::freeze_step))]
fn alone(alloc: Global, broker: &mut BrokerMachine, word: &Field) -> Result<Vec<Fields>, StepFault>
    ensures { IfOk result (λ answers.
        BrokerStep broker.old (word.now ∷ []) answers.items broker.new) }
{
    if word.is(b"freeze") {
        freeze(alloc, broker)
    } else {
        Err(StepFault::Form)
    }
}

// Does a step of a word and one field.
#[tactic(auto, using(crate::proofs::BrokerAnswers::thaw_step, crate::proofs::BrokerAnswers::lost_step, crate::proofs::BrokerAnswers::restart_step, crate::proofs::BrokerAnswers::expel_step))]
fn with_field(
    alloc: Global,
    broker: &mut BrokerMachine,
    word: &Field,
    field: &Field,
) -> Result<Vec<Fields>, StepFault>
    ensures { IfOk result (λ answers.
        BrokerStep broker.old (word.now ∷ field.now ∷ []) answers.items broker.new) }
{
    if word.is(b"thaw") {
        thaw(alloc, broker, field)
    } else if word.is(b"lost") {
        lost(alloc, broker, field)
    } else if word.is(b"restart") {
        restart(alloc, broker, field)
    } else if word.is(b"expel") {
        expel(alloc, broker, field)
    } else {
        Err(StepFault::Form)
    }
}

// Does a step of a word, a connection and bytes.
#[tactic(auto, using(crate::proofs::BrokerAnswers::receive_step))]
fn with_bytes(
    alloc: Global,
    broker: &mut BrokerMachine,
    word: &Field,
    connection: &Field,
    bytes: &Field,
) -> Result<Vec<Fields>, StepFault>
    ensures { IfOk result (λ answers. BrokerStep broker.old
        (word.now ∷ connection.now ∷ bytes.now ∷ []) answers.items broker.new) }
{
    if word.is(b"receive") {
        receive(alloc, broker, connection, bytes)
    } else {
        Err(StepFault::Form)
    }
}

// Does a step of a word, a connection, a client and a flag.
#[tactic(auto, using(crate::proofs::BrokerAnswers::connect_step))]
fn with_client(
    alloc: Global,
    broker: &mut BrokerMachine,
    word: &Field,
    connection: &Field,
    client: &Field,
    clean: &Field,
) -> Result<Vec<Fields>, StepFault>
    ensures { IfOk result (λ answers. BrokerStep broker.old
        (word.now ∷ connection.now ∷ client.now ∷ clean.now ∷ []) answers.items broker.new) }
{
    if word.is(b"connect") {
        connect(alloc, broker, connection, client, clean)
    } else {
        Err(StepFault::Form)
    }
}

// Returns the bytes of a broker.
fn freeze(alloc: Global, broker: &mut BrokerMachine) -> Result<Vec<Fields>, StepFault>
    ensures { IfOk result (λ answers.
        BrokerStep broker.old (codes "freeze" ∷ []) answers.items broker.new) }
{
    let bytes = frozen(alloc, broker)?;
    Ok(only(alloc, bytes_answer(alloc, bytes)?)?)
}

fn frozen(alloc: Global, broker: &BrokerMachine) -> Result<Vec<u8>, StepFault>
    ensures { IfOk result (λ bytes. bytes.items ≡ broker_rules.frozen broker.now) }
{
    let mut bytes = Vec::new(alloc);
    match broker.freeze(&mut bytes) {
        Ok(()) => Ok(bytes),
        Err(_) => Err(StepFault::Memory),
    }
}

// Replaces a broker by the one that was frozen to these bytes, if there is one.
fn thaw(alloc: Global, broker: &mut BrokerMachine, bytes: &Field) -> Result<Vec<Fields>, StepFault>
    ensures { IfOk result (λ answers.
        BrokerStep broker.old (codes "thaw" ∷ bytes.now ∷ []) answers.items broker.new) }
{
    match BrokerMachine::thaw(alloc, bytes.as_slice()) {
        Ok(thawed) => {
            *broker = thawed;
            Ok(only(alloc, word(alloc, "thawed")?)?)
        }
        Err(ThawFault::Shape) => Ok(only(alloc, word(alloc, "refused")?)?),
        Err(ThawFault::Memory) => Err(StepFault::Memory),
    }
}
