// The page of connections.

ghost use Rattle.std.specs.Prelude.{◌≡◌};
ghost use Rattle.admin.specs.Json.{Adds, client_member, connection_tokens, connections_tokens};
ghost use Rattle.std.specs.List.{flat_map};

use crate::json_members::{put_number, put_small};
use crate::view::{ConnectionLine, Details};
use json::Writer;
use std::alloc::AllocError;

// Writes all connections.
pub(crate) fn put_connections(writer: &mut Writer, details: &Details) -> Result<(), AllocError>
    ensures { Adds result writer.old writer.new (connections_tokens details.now) }
{
    writer.begin_array()?;
    put_all(writer, &details.connections)?;
    writer.end_array()
}

// Writes these connections.
fn put_all(writer: &mut Writer, connections: &[ConnectionLine]) -> Result<(), AllocError>
    ensures { Adds result writer.old writer.new (flat_map connection_tokens connections.now) }
{
    for connection in connections {
        put_connection(writer, connection)?;
    }
    Ok(())
}

// Writes a connection.
fn put_connection(writer: &mut Writer, connection: &ConnectionLine) -> Result<(), AllocError>
    ensures { Adds result writer.old writer.new (connection_tokens connection.now) }
{
    writer.begin_object()?;
    put_client(writer, &connection.client)?;
    put_small(writer, "node", connection.node)?;
    put_number(writer, "connected_seconds", connection.connected_seconds)?;
    put_number(writer, "unread_bytes", connection.unread_bytes)?;
    writer.end_object()
}

// Writes the client of a connection, or `null`.
fn put_client(writer: &mut Writer, client: &Option<String>) -> Result<(), AllocError>
    ensures { Adds result writer.old writer.new (client_member client.now) }
{
    writer.key("client")?;
    match client {
        Some(client) => writer.string(client.as_str()),
        None => writer.null(),
    }
}
