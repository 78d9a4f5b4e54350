// The call of a client that a step is.

ghost use Rattle.std.specs.Prelude.{◌≡◌, ◌∷◌, [], IfOk};
ghost use Rattle.node_rows.specs.ClientCalls.{Calls, IsQoS};

use client::ClientCore;
use client_base::ClientError;
use packet_base::{Payload, QoS};
use rows::{Field, StepFault};
use std::alloc::Global;
use topics::{Filter, TopicName};

/// Makes the call of this word, with these values.
pub(crate) fn call(
    alloc: Global,
    core: &mut ClientCore,
    word: &Field,
    values: &[Field],
) -> Result<Result<(), ClientError>, StepFault>
    ensures { IfOk result (λ ended. Calls (word.now ∷ values.now) core.old ended core.new) }
{
    match values {
        [] => call_alone(core, word),
        [value] => call_with_value(alloc, core, word, value),
        [filter, qos] => subscribe(alloc, core, word, filter, qos),
        [topic, qos, payload] => publish(alloc, core, word, topic, qos, payload),
        _ => Err(StepFault::Form),
    }
}

#[tactic(auto, using(crate::proofs::ClientCallAnswers::open_call, crate::proofs::ClientCallAnswers::lost_call, crate::proofs::ClientCallAnswers::disconnect_call))]
fn call_alone(core: &mut ClientCore, word: &Field) -> Result<Result<(), ClientError>, StepFault>
    ensures { IfOk result (λ ended. Calls (word.now ∷ []) core.old ended core.new) }
{
    if word.is(b"open") {
        Ok(core.open())
    } else if word.is(b"lost") {
        core.lost();
        Ok(Ok(()))
    } else if word.is(b"disconnect") {
        Ok(core.disconnect())
    } else {
        Err(StepFault::Form)
    }
}

#[tactic(auto, using(crate::proofs::ClientCallAnswers::bytes_call))]
fn call_with_value(
    alloc: Global,
    core: &mut ClientCore,
    word: &Field,
    value: &Field,
) -> Result<Result<(), ClientError>, StepFault>
    ensures { IfOk result (λ ended. Calls (word.now ∷ value.now ∷ []) core.old ended core.new) }
{
    if word.is(b"bytes") {
        Ok(core.on_bytes(value.as_slice()))
    } else {
        unsubscribe(alloc, core, word, value)
    }
}

fn unsubscribe(
    alloc: Global,
    core: &mut ClientCore,
    word: &Field,
    filter: &Field,
) -> Result<Result<(), ClientError>, StepFault>
    ensures { IfOk result (λ ended. Calls (word.now ∷ filter.now ∷ []) core.old ended core.new) }
{
    if !word.is(b"unsubscribe") {
        return Err(StepFault::Form);
    }
    let filter = filter_of(alloc, filter)?;
    Ok(core.unsubscribe(filter))
}

#[tactic(auto, using(crate::proofs::ClientCallAnswers::subscribe_call))]
fn subscribe(
    alloc: Global,
    core: &mut ClientCore,
    word: &Field,
    filter: &Field,
    digits: &Field,
) -> Result<Result<(), ClientError>, StepFault>
    ensures { IfOk result (λ ended.
        Calls (word.now ∷ filter.now ∷ digits.now ∷ []) core.old ended core.new) }
{
    if !word.is(b"subscribe") {
        return Err(StepFault::Form);
    }
    let qos = qos_of(digits)?;
    let filter = filter_of(alloc, filter)?;
    Ok(core.subscribe(filter, qos))
}

#[tactic(auto, using(crate::proofs::ClientCallAnswers::publish_call))]
fn publish(
    alloc: Global,
    core: &mut ClientCore,
    word: &Field,
    topic: &Field,
    digits: &Field,
    payload: &Field,
) -> Result<Result<(), ClientError>, StepFault>
    ensures { IfOk result (λ ended.
        Calls (word.now ∷ topic.now ∷ digits.now ∷ payload.now ∷ []) core.old ended core.new) }
{
    if !word.is(b"publish") {
        return Err(StepFault::Form);
    }
    let qos = qos_of(digits)?;
    let topic = topic_of(alloc, topic)?;
    let payload = Payload::new(alloc, payload.as_slice())?;
    Ok(core.publish(topic, qos, false, payload))
}

fn filter_of(alloc: Global, field: &Field) -> Result<Filter, StepFault>
    ensures { IfOk result (λ filter. filter ≡ field.now) }
{
    let Some(text) = field.as_text() else {
        return Err(StepFault::Form);
    };
    match Filter::new(alloc, text) {
        Ok(filter) => Ok(filter),
        Err(_) => Err(StepFault::Form),
    }
}

fn topic_of(alloc: Global, field: &Field) -> Result<TopicName, StepFault>
    ensures { IfOk result (λ topic. topic ≡ field.now) }
{
    let Some(text) = field.as_text() else {
        return Err(StepFault::Form);
    };
    match TopicName::new(alloc, text) {
        Ok(topic) => Ok(topic),
        Err(_) => Err(StepFault::Form),
    }
}

fn qos_of(digits: &Field) -> Result<QoS, StepFault>
    ensures { IfOk result (IsQoS digits.now) }
{
    match digits.number() {
        Some(0) => Ok(QoS::AtMostOnce),
        Some(1) => Ok(QoS::AtLeastOnce),
        Some(2) => Ok(QoS::ExactlyOnce),
        _ => Err(StepFault::Form),
    }
}
