// The values that fields stand for.

ghost use Rattle.std.specs.Prelude.{◌≡◌, Some, IfOk};
ghost use Rattle.rows.specs.Fields.{number_of};
ghost use Rattle.broker_rows.specs.Values.{qos_text};

use packet_base::{ClientId, PacketId, Payload, QoS};
use rows::{Field, StepFault};
use std::alloc::{AllocError, Global};
use topics::{Filter, MalformedKind, TopicName};

/// Returns the Client Identifier that a field is.
pub(crate) fn client_of(alloc: Global, field: &Field) -> Result<ClientId, StepFault>
    ensures { IfOk result (λ client. client ≡ field.now) }
{
    let Some(text) = field.as_text() else {
        return Err(StepFault::Form);
    };
    match ClientId::new(alloc, text) {
        Ok(client) => Ok(client),
        Err(kind) => Err(fault_of(kind)),
    }
}

/// Returns the Topic Filter that a field is.
pub(crate) fn filter_of(alloc: Global, field: &Field) -> Result<Filter, StepFault>
    ensures { IfOk result (λ filter. filter ≡ field.now) }
{
    let Some(text) = field.as_text() else {
        return Err(StepFault::Form);
    };
    match Filter::new(alloc, text) {
        Ok(filter) => Ok(filter),
        Err(kind) => Err(fault_of(kind)),
    }
}

/// Returns the Topic Name that a field is.
pub(crate) fn topic_of(alloc: Global, field: &Field) -> Result<TopicName, StepFault>
    ensures { IfOk result (λ topic. topic ≡ field.now) }
{
    let Some(text) = field.as_text() else {
        return Err(StepFault::Form);
    };
    match TopicName::new(alloc, text) {
        Ok(topic) => Ok(topic),
        Err(kind) => Err(fault_of(kind)),
    }
}

/// Returns the payload that a field is.
pub(crate) fn payload_of(alloc: Global, field: &Field) -> Result<Payload, AllocError>
    ensures { IfOk result (λ payload. payload ≡ field.now) }
{
    Payload::new(alloc, field.as_slice())
}

fn fault_of(kind: MalformedKind) -> StepFault {
    match kind {
        MalformedKind::Memory => StepFault::Memory,
        _ => StepFault::Form,
    }
}

/// Returns the QoS whose digit a field is.
#[tactic(auto, using(crate::proofs::Words::same_text))]
pub(crate) fn qos_of(field: &Field) -> Result<QoS, StepFault>
    ensures { IfOk result (λ qos. field.now ≡ qos_text qos) }
{
    if field.is(b"0") {
        Ok(QoS::AtMostOnce)
    } else if field.is(b"1") {
        Ok(QoS::AtLeastOnce)
    } else if field.is(b"2") {
        Ok(QoS::ExactlyOnce)
    } else {
        Err(StepFault::Form)
    }
}

/// Returns the digit of a QoS.
pub(crate) fn qos_text(qos: QoS) -> &'static str
    ensures { result.now ≡ qos_text qos }
{
    match qos {
        QoS::AtMostOnce => "0",
        QoS::AtLeastOnce => "1",
        QoS::ExactlyOnce => "2",
    }
}

/// Returns the Packet Identifier whose digits a field is.
pub(crate) fn id_of(field: &Field) -> Result<PacketId, StepFault>
    ensures { IfOk result (λ id. number_of field.now ≡ Some id) }
{
    match field.number() {
        Some(number) if number > 0 && number < 65_536 => Ok(PacketId::new(number as u16)),
        _ => Err(StepFault::Form),
    }
}
