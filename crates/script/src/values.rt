// Reading the values of fields.

ghost use Rattle.std.specs.Prelude.{◌≡◌, ◌==◌, Some, None, IfOk, IsErrOf, slice_index};
ghost use Rattle.script.specs.Fields.{parse_amount, parse_client, parse_clients, parse_filter, parse_number, parse_numbers, parse_payload, parse_qos, parse_retain, parse_topic};

use crate::error::FieldFault;
use crate::fields::parts_of;
use crate::numbers::Numbers;
use crate::script_line::Amount;
use hex::FromHexError;
use packet_base::{ClientId, Payload, QoS};
use std::alloc::Global;
use topics::{Filter, TopicName};

/// Reads a decimal number without a sign, below 2^64. Fails with `Form` for any other text.
pub(crate) fn number(text: &str) -> Result<u64, FieldFault>
    ensures value { IfOk result (λ number. parse_number text.now ≡ Some number) }
    ensures form { IsErrOf result FieldFault.Form → parse_number text.now ≡ None }
{
    // `parse` accepts a sign.
    if has_sign(text) {
        return Err(FieldFault::Form);
    }
    match text.parse::<u64>() {
        Ok(number) => Ok(number),
        Err(_) => Err(FieldFault::Form),
    }
}

// Returns true if the text begins with a plus.
fn has_sign(text: &str) -> bool
    ensures { result ≡ (slice_index text.now 0 == 43) }
{
    match text.as_bytes() {
        [first, ..] => *first == b'+',
        [] => false,
    }
}

/// Reads numbers between commas.
pub(crate) fn numbers(alloc: Global, text: &str) -> Result<Numbers, FieldFault>
    ensures value { IfOk result (λ numbers. parse_numbers text.now ≡ Some numbers) }
    ensures form { IsErrOf result FieldFault.Form → parse_numbers text.now ≡ None }
{
    let all = parts_of(alloc, text)?;
    let parts = all.as_slice();
    let mut numbers = Vec::new(alloc);
    for part in parts {
        numbers.push(number(part)?)?;
    }
    Ok(Numbers::new(numbers))
}

/// Reads a QoS, 0 to 2.
#[tactic(auto, unfolding(crate::specs::Fields::parse_qos))]
pub(crate) fn qos(text: &str) -> Result<QoS, FieldFault>
    ensures value { IfOk result (λ qos. parse_qos text.now ≡ Some qos) }
    ensures form { IsErrOf result FieldFault.Form → parse_qos text.now ≡ None }
{
    match number(text)? {
        0 => Ok(QoS::AtMostOnce),
        1 => Ok(QoS::AtLeastOnce),
        2 => Ok(QoS::ExactlyOnce),
        _ => Err(FieldFault::Form),
    }
}

/// Reads a RETAIN flag, `0` or `1`. Fails with `Form` for any other text.
#[tactic(auto, unfolding(crate::specs::Fields::parse_retain))]
pub(crate) fn retain(text: &str) -> Result<bool, FieldFault>
    ensures value { IfOk result (λ retain. parse_retain text.now ≡ Some retain) }
    ensures form { IsErrOf result FieldFault.Form → parse_retain text.now ≡ None }
{
    match number(text)? {
        0 => Ok(false),
        1 => Ok(true),
        _ => Err(FieldFault::Form),
    }
}

/// Reads an amount of bytes: `all`, or a number.
#[tactic(auto, unfolding(crate::specs::Fields::parse_amount))]
pub(crate) fn amount(text: &str) -> Result<Amount, FieldFault>
    ensures value { IfOk result (λ amount. parse_amount text.now ≡ Some amount) }
    ensures form { IsErrOf result FieldFault.Form → parse_amount text.now ≡ None }
{
    if text == "all" {
        return Ok(Amount::All);
    }
    Ok(Amount::Bytes(number(text)?))
}

/// Reads a payload in hexadecimal, `-` if it is empty.
#[tactic(auto, unfolding(crate::specs::Fields::parse_payload))]
pub(crate) fn payload(alloc: Global, text: &str) -> Result<Payload, FieldFault>
    ensures value { IfOk result (λ payload. parse_payload text.now ≡ Some payload) }
    ensures form { IsErrOf result FieldFault.Form → parse_payload text.now ≡ None }
{
    if text == "-" {
        return Ok(Payload::new(alloc, &[])?);
    }
    if text.is_empty() {
        return Err(FieldFault::Form);
    }
    match hex::decode(alloc, text) {
        Ok(bytes) => Ok(Payload::new(alloc, bytes.as_slice())?),
        Err(FromHexError::OutOfMemory) => Err(FieldFault::Memory),
        Err(_) => Err(FieldFault::Form),
    }
}

/// Reads a Client Identifier. Fails with `Form` if the text is none, with `Memory` if memory ran
/// out.
pub(crate) fn client(alloc: Global, text: &str) -> Result<ClientId, FieldFault>
    ensures value { IfOk result (λ client. parse_client text.now ≡ Some client) }
    ensures form { IsErrOf result FieldFault.Form → parse_client text.now ≡ None }
{
    Ok(ClientId::new(alloc, text)?)
}

/// Reads Client Identifiers between commas.
pub(crate) fn clients(alloc: Global, text: &str) -> Result<Vec<ClientId>, FieldFault>
    ensures value { IfOk result (λ clients. parse_clients text.now ≡ Some clients.items) }
    ensures form { IsErrOf result FieldFault.Form → parse_clients text.now ≡ None }
{
    let all = parts_of(alloc, text)?;
    let parts = all.as_slice();
    let mut clients = Vec::new(alloc);
    for part in parts {
        clients.push(client(alloc, part)?)?;
    }
    Ok(clients)
}

/// Reads a Topic Name. Fails with `Form` if the text is none, with `Memory` if memory ran out.
pub(crate) fn topic(alloc: Global, text: &str) -> Result<TopicName, FieldFault>
    ensures value { IfOk result (λ topic. parse_topic text.now ≡ Some topic) }
    ensures form { IsErrOf result FieldFault.Form → parse_topic text.now ≡ None }
{
    Ok(TopicName::new(alloc, text)?)
}

/// Reads a Topic Filter. Fails with `Form` if the text is none, with `Memory` if memory ran out.
pub(crate) fn filter(alloc: Global, text: &str) -> Result<Filter, FieldFault>
    ensures value { IfOk result (λ filter. parse_filter text.now ≡ Some filter) }
    ensures form { IsErrOf result FieldFault.Form → parse_filter text.now ≡ None }
{
    Ok(Filter::new(alloc, text)?)
}
