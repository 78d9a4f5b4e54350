// Writing the tables of a broker to bytes, form 2.

ghost use Rattle.std.specs.Prelude.{◌≡◌, ◌^◌, ◌<◌, ◌++◌, length, OnErr, OnOk};
ghost use Rattle.std.specs.List.{flat_map, AllByRecursion};
ghost use Rattle.session_base.specs.FormTheorems.{HasForm};
ghost use Rattle.broker_spec.specs.Commands.{usual_limits};
ghost use Rattle.broker_base.specs.form.InRange.{IsBrokerState};
ghost use Rattle.broker_base.specs.form.Bytes.{connection_bytes, frozen, retained_bytes};
ghost use Rattle.broker_base.specs.form.Bytes.{row_bytes, wide_number};
ghost use Rattle.broker.specs.tables.Tables.{state_in};
ghost use Rattle.broker.specs.Inside.{AreRows, ArePayloads};

use crate::one_session::ClientRow;
use crate::tables::Tables;
use broker_spec::ConnectionName;
use packet_base::ClientId;
use retained::{RetainedPublication, RetainedStore};
use session_base::{write_number, write_payload, write_text};
use std::alloc::AllocError;
use std::collections::BTreeMap;
use topics::TopicName;

/// The number of the form.
const FORM: u8 = 2;

/// Appends the bytes of the tables. If memory runs out nothing is appended.
pub(crate) fn freeze_tables(tables: &Tables, bytes: &mut Vec<u8>) -> Result<(), AllocError>
    requires { IsBrokerState usual_limits (state_in tables.now) }
    ensures ok { OnOk result (bytes.new.items ≡ bytes.old.items ++ frozen (state_in tables.now)) }
    ensures err { OnErr result (bytes.new.items ≡ bytes.old.items) }
{
    if !bytes.is_empty() {
        let mut frozen = Vec::new(tables.alloc);
        write_tables(tables, &mut frozen)?;
        return bytes.extend_from_slice(&frozen);
    }
    let written = write_tables(tables, bytes);
    if written.is_err() {
        bytes.clear();
    }
    written
}

// Appends the bytes of the tables. If memory runs out, some of them may have been appended, here
// and in the functions below.
fn write_tables(tables: &Tables, bytes: &mut Vec<u8>) -> Result<(), AllocError>
    requires { IsBrokerState usual_limits (state_in tables.now) }
    ensures { OnOk result (bytes.new.items ≡ bytes.old.items ++ frozen (state_in tables.now)) }
{
    bytes.push(FORM)?;
    bytes.push(tables.window.size() as u8)?;
    write_number(tables.sessions.len() as u16, bytes)?;
    write_sessions(&tables.sessions, bytes)?;
    write_number(tables.retained.len() as u16, bytes)?;
    write_retained(&tables.retained, bytes)
}

// Appends each session, in the order of the clients' bytes.
fn write_sessions(
    sessions: &BTreeMap<ClientId, ClientRow>,
    bytes: &mut Vec<u8>,
) -> Result<(), AllocError>
    requires { AreRows sessions.now.entries }
    ensures { OnOk result
        (bytes.new.items ≡ bytes.old.items ++ flat_map row_bytes sessions.now.entries) }
{
    for (client, row) in sessions {
        write_row(client, row, bytes)?;
    }
    Ok(())
}

// Appends a client with its session.
#[tactic(auto, using(packet_base::proofs::Clients::client_short))]
fn write_row(client: &ClientId, row: &ClientRow, bytes: &mut Vec<u8>) -> Result<(), AllocError>
    requires { HasForm row.now.state }
    ensures { OnOk result (bytes.new.items ≡ bytes.old.items ++ row_bytes (client.now, row.now)) }
{
    write_text(client.as_str(), bytes)?;
    bytes.push(u8::from(row.clean))?;
    write_connection(row.connection, bytes)?;
    row.state.write(bytes)
}

// Appends whether there is a connection, and its name.
fn write_connection(
    connection: Option<ConnectionName>,
    bytes: &mut Vec<u8>,
) -> Result<(), AllocError>
    ensures { OnOk result (bytes.new.items ≡ bytes.old.items ++ connection_bytes connection) }
{
    match connection {
        None => {
            bytes.push(0)?;
            Ok(())
        }
        Some(connection) => {
            bytes.push(1)?;
            write_name(connection, bytes)
        }
    }
}

// Appends the name of a connection: its ballot and its number.
fn write_name(connection: ConnectionName, bytes: &mut Vec<u8>) -> Result<(), AllocError>
    ensures { OnOk result
        (bytes.new.items
        ≡ bytes.old.items ++ (wide_number connection.ballot ++ wide_number connection.count)) }
{
    bytes.extend_from_slice(&connection.ballot().to_be_bytes())?;
    bytes.extend_from_slice(&connection.count().to_be_bytes())
}

// Appends each retained publication, in the order of the topics' bytes.
fn write_retained(retained: &RetainedStore, bytes: &mut Vec<u8>) -> Result<(), AllocError>
    requires { ArePayloads retained.now }
    ensures { OnOk result
        (bytes.new.items ≡ bytes.old.items ++ flat_map retained_bytes retained.now) }
{
    for (topic, kept) in retained.iter() {
        write_topic(topic, kept, bytes)?;
    }
    Ok(())
}

// Appends a topic with its retained publication.
fn write_topic(
    topic: &TopicName,
    kept: &RetainedPublication,
    bytes: &mut Vec<u8>,
) -> Result<(), AllocError>
    requires { length kept.now.payload < 2 ^ 32 }
    ensures { OnOk result
        (bytes.new.items ≡ bytes.old.items ++ retained_bytes (topic.now, kept.now)) }
{
    bytes.push(kept.qos.number())?;
    write_text(topic.as_str(), bytes)?;
    write_payload(kept.payload.as_slice(), bytes)
}
