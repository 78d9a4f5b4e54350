// The item that a step is.

ghost use Rattle.std.specs.Prelude.{◌≡◌, ◌∷◌, [], IfOk, Ok};
ghost use Rattle.links.specs.message_form.Outcome.{message_of};
ghost use Rattle.node_rows.specs.Items.{Items};

use crate::values::{number_of, port_of};
use ballot_base::Message;
use broker_spec::Command;
use links::message_form::read_message;
use packet_base::ClientId;
use rows::{Field, StepFault};
use std::alloc::Global;
use world_base::{Item, Piece};

/// Returns the item of this word, with these values.
pub(crate) fn item_of(alloc: Global, word: &Field, values: &[Field]) -> Result<Item, StepFault>
    ensures { IfOk result (Items (word.now ∷ values.now)) }
{
    match values {
        [] => item_alone(word),
        [value] => item_with_value(alloc, word, value),
        [port, time] => item_opened(word, port, time),
        [port, time, bytes] => item_bytes(alloc, word, port, time, bytes),
        _ => Err(StepFault::Form),
    }
}

#[tactic(auto, using(crate::proofs::ItemAnswers::cut_item, crate::proofs::ItemAnswers::crash_item))]
fn item_alone(word: &Field) -> Result<Item, StepFault>
    ensures { IfOk result (Items (word.now ∷ [])) }
{
    if word.is(b"cut") {
        Ok(Item::Cut)
    } else if word.is(b"crash") {
        Ok(Item::Crash)
    } else {
        Err(StepFault::Form)
    }
}

/// Returns the item of this word, with this value.
#[tactic(auto, using(crate::proofs::ItemAnswers::message_item, crate::proofs::ItemAnswers::tick_item, crate::proofs::ItemAnswers::ended_item, crate::proofs::ItemAnswers::expel_item))]
pub(crate) fn item_with_value(alloc: Global, word: &Field, value: &Field) -> Result<Item, StepFault>
    ensures { IfOk result (Items (word.now ∷ value.now ∷ [])) }
{
    if word.is(b"message") {
        Ok(Item::Peer(message_of(alloc, value.as_slice())?))
    } else if word.is(b"tick") {
        Ok(Item::Tick(number_of(value)?))
    } else if word.is(b"ended") {
        Ok(Item::Ended(port_of(value)?))
    } else if word.is(b"expel") {
        Ok(Item::Expel(client_of(alloc, value)?))
    } else {
        Err(StepFault::Form)
    }
}

#[tactic(auto, using(crate::proofs::ItemAnswers::opened_item))]
fn item_opened(word: &Field, port: &Field, time: &Field) -> Result<Item, StepFault>
    ensures { IfOk result (Items (word.now ∷ port.now ∷ time.now ∷ [])) }
{
    if !word.is(b"opened") {
        return Err(StepFault::Form);
    }
    Ok(Item::Opened(port_of(port)?, number_of(time)?))
}

#[tactic(auto, using(crate::proofs::ItemAnswers::bytes_item))]
fn item_bytes(
    alloc: Global,
    word: &Field,
    port: &Field,
    time: &Field,
    bytes: &Field,
) -> Result<Item, StepFault>
    ensures { IfOk result (Items (word.now ∷ port.now ∷ time.now ∷ bytes.now ∷ [])) }
{
    if !word.is(b"bytes") {
        return Err(StepFault::Form);
    }
    let port = port_of(port)?;
    let time = number_of(time)?;
    Ok(Item::Bytes(port, piece_of(alloc, bytes.as_slice())?, time))
}

/// Returns a piece of these bytes.
pub(crate) fn piece_of(alloc: Global, bytes: &[u8]) -> Result<Piece, StepFault>
    ensures { IfOk result (λ piece. piece ≡ bytes.now) }
{
    match Piece::from_slice(alloc, bytes) {
        Ok(piece) => Ok(piece),
        Err(_) => Err(StepFault::Memory),
    }
}

/// Returns the message of these bytes.
pub(crate) fn message_of(alloc: Global, bytes: &[u8]) -> Result<Message<Command>, StepFault>
    ensures { IfOk result (λ message. message_of bytes.now ≡ Ok message) }
{
    match read_message(alloc, bytes) {
        Ok(message) => Ok(message),
        Err(_) => Err(StepFault::Form),
    }
}

fn client_of(alloc: Global, field: &Field) -> Result<ClientId, StepFault>
    ensures { IfOk result (λ client. client ≡ field.now) }
{
    let Some(text) = field.as_text() else {
        return Err(StepFault::Form);
    };
    match ClientId::new(alloc, text) {
        Ok(client) => Ok(client),
        Err(_) => Err(StepFault::Form),
    }
}
