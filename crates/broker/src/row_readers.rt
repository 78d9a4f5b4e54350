// Reads the rows of a frozen broker from the front of a reader. Bytes that are not of the form stop
// the reading with `Shape`; the reader must not be used after an error.

ghost use Rattle.std.specs.Prelude.{◌≡◌, true, IfOk};
ghost use Rattle.packet_base.specs.ClientId.{is_client};
ghost use Rattle.packet_base.specs.Outcome.{Gives, Reads, TakesNoMemory};
ghost use Rattle.session_base.specs.Counted.{check_form};
ghost use Rattle.broker_base.specs.form.Form.{client_at, connection_at, head_at, name_at, retainable};
ghost use Rattle.broker_base.specs.form.Form.{retained_at, row_at, size_at, wide_number_at};

use crate::one_session::ClientRow;
use broker_spec::{ConnectionName, Window};
use packet::MAX_BODY;
use packet_base::{ClientId, OUT_OF_MEMORY, Reader, Stop};
use retained::RetainedPublication;
use session::Session;
use session_base::{
    Publication, body_length, check_form, payload_of, read_flag, read_long_number, read_qos,
};
use std::alloc::Global;
use topics::{MalformedKind, TopicName};

// ---- the window

/// Reads the number of the form and the window: form 1 has the narrow one, form 2 names it.
#[tactic(auto, unfolding(broker_base::specs::form::Form::head_at))]
pub(crate) fn read_head(reader: &mut Reader) -> Result<Window, Stop>
    ensures exact { Reads (λ value. value) result reader.new (head_at reader.old) }
    ensures memory { TakesNoMemory result }
{
    let form = reader.byte()?;
    check_form(form == 1 || form == 2)?;
    if form == 1 {
        return Ok(Window::narrow());
    }
    read_window(reader)
}

// Reads the window of form 2: one byte, 16 or 64.
#[tactic(auto, unfolding(broker_base::specs::form::Form::size_at))]
fn read_window(reader: &mut Reader) -> Result<Window, Stop>
    ensures exact { Reads (λ value. value) result reader.new (size_at reader.old) }
    ensures memory { TakesNoMemory result }
{
    match Window::of(reader.byte()?) {
        Some(window) => Ok(window),
        None => Err(Stop::Malformed(MalformedKind::Shape)),
    }
}

// ---- a client's session

/// Reads a client with its session. A clean session must have a connection, and no more entries may
/// be in flight than the window allows.
#[tactic(auto, unfolding(broker_base::specs::form::Form::row_at))]
pub(crate) fn read_row(
    alloc: Global,
    window: Window,
    reader: &mut Reader,
) -> Result<(ClientId, ClientRow), Stop>
    ensures { Reads (λ value. value) result reader.new (row_at window reader.old) }
{
    let client = read_client(alloc, reader)?;
    let clean = read_flag(reader)?;
    let connection = read_connection(reader)?;
    check_form(!clean || connection.is_some())?;
    let state = Session::read(alloc, window.size(), reader)?;
    let row = ClientRow {
        clean,
        connection,
        state,
    };
    Ok((client, row))
}

#[tactic(auto, unfolding(broker_base::specs::form::Form::client_at))]
fn read_client(alloc: Global, reader: &mut Reader) -> Result<ClientId, Stop>
    ensures { Reads (λ value. value) result reader.new (client_at reader.old) }
{
    let text = reader.text()?;
    client_of(alloc, text)
}

// Returns the Client Identifier of a text; `Shape` if the text has a fault.
fn client_of(alloc: Global, text: &str) -> Result<ClientId, Stop>
    ensures test { Gives (λ client. tt) result (check_form (is_client text.now)) }
    ensures value { IfOk result (λ client. client ≡ text.now) }
{
    match ClientId::new(alloc, text) {
        Ok(client) => {
            // This call shows that the text is a Client Identifier.
            let _text = client.as_str();
            Ok(client)
        }
        Err(MalformedKind::Memory) => Err(OUT_OF_MEMORY),
        Err(_) => Err(Stop::Malformed(MalformedKind::Shape)),
    }
}

// Reads whether there is a connection, and its name.
#[tactic(auto, unfolding(broker_base::specs::form::Form::connection_at))]
fn read_connection(reader: &mut Reader) -> Result<Option<ConnectionName>, Stop>
    ensures { Reads (λ value. value) result reader.new (connection_at reader.old) }
{
    if read_flag(reader)? {
        read_name(reader)
    } else {
        Ok(None)
    }
}

// Reads the name of a connection: its ballot and its number, both in their ranges.
#[tactic(auto, unfolding(broker_base::specs::form::Form::name_at))]
fn read_name(reader: &mut Reader) -> Result<Option<ConnectionName>, Stop>
    ensures { Reads (λ value. value) result reader.new (name_at reader.old) }
{
    let ballot = read_wide_number(reader)?;
    let count = read_wide_number(reader)?;
    match ConnectionName::new(ballot, count) {
        Some(name) => Ok(Some(name)),
        None => Err(Stop::Malformed(MalformedKind::Shape)),
    }
}

// Reads a number of eight bytes, the high one first.
#[tactic(auto, unfolding(broker_base::specs::form::Form::wide_number_at))]
fn read_wide_number(reader: &mut Reader) -> Result<u64, Stop>
    ensures { Reads (λ value. value) result reader.new (wide_number_at reader.old) }
{
    let front = reader.front(8)?;
    Ok(u64::from_be_bytes([
        front[0], front[1], front[2], front[3], front[4], front[5], front[6], front[7],
    ]))
}

// ---- a retained publication

/// Reads a topic with its retained publication.
#[tactic(auto, unfolding(broker_base::specs::form::Form::retained_at))]
pub(crate) fn read_topic(
    alloc: Global,
    reader: &mut Reader,
) -> Result<(TopicName, RetainedPublication), Stop>
    ensures { Reads (λ value. value) result reader.new (retained_at reader.old) }
{
    let qos = read_qos(reader)?;
    let topic = reader.topic(alloc)?;
    let len = read_long_number(reader)?;
    let payload = payload_of(alloc, reader.front(len as usize)?)?;
    retainable(Publication {
        retain: true,
        qos,
        topic,
        payload,
    })
}

// Returns the retained publication; `Shape` if it has no payload or its PUBLISH is over the limit
// of a packet.
fn retainable(publication: Publication) -> Result<(TopicName, RetainedPublication), Stop>
    requires { publication.retain ≡ true }
    ensures { Gives (λ value. value) result
        (retainable
        (publication.topic, record { qos = publication.qos; payload = publication.payload })) }
{
    check_form(
        !publication.payload.as_slice().is_empty() && body_length(&publication) <= MAX_BODY,
    )?;
    let kept = RetainedPublication {
        qos: publication.qos,
        payload: publication.payload,
    };
    Ok((publication.topic, kept))
}
