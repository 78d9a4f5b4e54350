// Steps that are commands of a broker: what comes on connections, and what an administrator orders.

ghost use Rattle.std.specs.Prelude.{◌≡◌, ◌∷◌, [], codes, Some, IfOk};
ghost use Rattle.rows.specs.Fields.{number_of};
ghost use Rattle.broker_rows.specs.BrokerSteps.{BrokerStep, IsNamed, IsRead, flag_text};

use crate::broker_outputs::done;
use crate::values::client_of;
use broker::BrokerMachine;
use broker_spec::{Command, ConnectionName, SizedPacket};
use packet::{DecodeFault, Packet, Step, decode};
use rows::{Field, Fields, StepFault};
use std::alloc::Global;
use topics::MalformedKind;

/// Opens a connection of a client.
pub(crate) fn connect(
    alloc: Global,
    broker: &mut BrokerMachine,
    connection: &Field,
    client: &Field,
    clean: &Field,
) -> Result<Vec<Fields>, StepFault>
    ensures { IfOk result (λ answers. BrokerStep broker.old
        (codes "connect" ∷ connection.now ∷ client.now ∷ clean.now ∷ []) answers.items broker.new) }
{
    let clean = flag_of(clean)?;
    let connection = connection_of(connection)?;
    let client = client_of(alloc, client)?;
    Ok(done(alloc, broker, Command::Connect(connection, client, clean))?)
}

/// Brings a packet on a connection.
pub(crate) fn receive(
    alloc: Global,
    broker: &mut BrokerMachine,
    connection: &Field,
    bytes: &Field,
) -> Result<Vec<Fields>, StepFault>
    ensures { IfOk result (λ answers. BrokerStep broker.old
        (codes "receive" ∷ connection.now ∷ bytes.now ∷ []) answers.items broker.new) }
{
    let connection = connection_of(connection)?;
    let packet = packet_of(alloc, bytes.as_slice())?;
    Ok(done(alloc, broker, Command::Packet(connection, packet))?)
}

/// Loses a connection.
pub(crate) fn lost(
    alloc: Global,
    broker: &mut BrokerMachine,
    connection: &Field,
) -> Result<Vec<Fields>, StepFault>
    ensures { IfOk result (λ answers. BrokerStep broker.old
        (codes "lost" ∷ connection.now ∷ []) answers.items broker.new) }
{
    let connection = connection_of(connection)?;
    Ok(done(alloc, broker, Command::Lost(connection))?)
}

/// Begins a ballot: all connections of earlier ones are over.
pub(crate) fn restart(
    alloc: Global,
    broker: &mut BrokerMachine,
    ballot: &Field,
) -> Result<Vec<Fields>, StepFault>
    ensures { IfOk result (λ answers. BrokerStep broker.old
        (codes "restart" ∷ ballot.now ∷ []) answers.items broker.new) }
{
    let ballot = ballot_of(ballot)?;
    Ok(done(alloc, broker, Command::Start(ballot))?)
}

/// Ends the session of a client, as an administrator does.
pub(crate) fn expel(
    alloc: Global,
    broker: &mut BrokerMachine,
    client: &Field,
) -> Result<Vec<Fields>, StepFault>
    ensures { IfOk result (λ answers. BrokerStep broker.old
        (codes "expel" ∷ client.now ∷ []) answers.items broker.new) }
{
    let client = client_of(alloc, client)?;
    Ok(done(alloc, broker, Command::Expel(client))?)
}

// Returns the connection whose number a field is.
#[tactic(auto, using(crate::proofs::BrokerAnswers::is_named))]
fn connection_of(field: &Field) -> Result<ConnectionName, StepFault>
    ensures { IfOk result (IsNamed field.now) }
{
    let Some(number) = field.number() else {
        return Err(StepFault::Form);
    };
    match ConnectionName::new(1, number) {
        Some(connection) => Ok(connection),
        None => Err(StepFault::Form),
    }
}

// Returns the ballot whose number a field is.
fn ballot_of(field: &Field) -> Result<u64, StepFault>
    ensures { IfOk result (λ ballot. number_of field.now ≡ Some ballot) }
{
    match field.number() {
        Some(ballot) => Ok(ballot),
        None => Err(StepFault::Form),
    }
}

// Returns the packet that bytes begin with.
#[tactic(auto, using(crate::proofs::BrokerAnswers::is_read))]
fn packet_of(alloc: Global, bytes: &[u8]) -> Result<SizedPacket, StepFault>
    ensures { IfOk result (IsRead bytes.now) }
{
    match decode(alloc, bytes) {
        Ok(Step::Whole(packet, _)) => Ok(sized(packet)?),
        Err(DecodeFault::Malformed(MalformedKind::Memory)) => Err(StepFault::Memory),
        _ => Err(StepFault::Form),
    }
}

fn sized(packet: Packet) -> Result<SizedPacket, StepFault>
    ensures { IfOk result (λ sized. sized ≡ packet) }
{
    match SizedPacket::new(packet) {
        Ok(packet) => Ok(packet),
        Err(_) => Err(StepFault::Form),
    }
}

// Returns the flag whose digit a field is.
#[tactic(auto, using(crate::proofs::Words::same_text))]
fn flag_of(field: &Field) -> Result<bool, StepFault>
    ensures { IfOk result (λ flag. field.now ≡ flag_text flag) }
{
    if field.is(b"0") {
        Ok(false)
    } else if field.is(b"1") {
        Ok(true)
    } else {
        Err(StepFault::Form)
    }
}
