// Functions on a node's list of connections.

ghost use Rattle.std.specs.Prelude.{◌≡◌, false, true, [], ◌∷◌, ◌++◌, map, filter, OnErr, OnOk};
ghost use Rattle.std.specs.List.{list_any};
ghost use Rattle.world_base.specs.node_connections.Connections.{is_at, is_listed};
ghost use Rattle.world_base.specs.node_connections.ConnectionChanges.{closed_connection};
ghost use Rattle.lists.specs.Lists.{IsPrefixOf};
ghost use Rattle.world_base.specs.node_connections.PendingOutput.{is_idle};
ghost use Rattle.world_base.specs.declared.node_connections.connection.Connection.{Connection};
ghost use Rattle.world_base.specs.node_connections.Silent.{lower, lowest_silent};

use crate::node_connections::connection::Connection;
use crate::node_connections::port::Port;
use machine::Memory;

/// Returns true if a connection of this port is listed.
pub fn has_port(connections: &[Connection], port: Port) -> bool
    ensures { result ≡ list_any (is_at port) connections.now }
{
    connections.iter().any(|connection| connection.is_at(port))
}

/// Returns the lowest port of the silent connections.
pub fn lowest_silent(connections: &[Connection], now: u64) -> Option<Port>
    ensures { result ≡ lowest_silent now connections.now }
{
    let mut lowest = None;
    for connection in connections {
        if connection.is_silent(now) {
            lowest = Some(lower(lowest, connection.port));
        }
    }
    lowest
}

fn lower(low: Option<Port>, port: Port) -> Port
    ensures { result ≡ lower low port }
{
    match low {
        Some(low) if low.0 <= port.0 => low,
        _ => port,
    }
}

/// Appends the ports of the idle connections. If memory runs out, some of them may have been
/// appended.
pub fn push_idle(connections: &[Connection], ports: &mut Vec<Port>) -> Result<(), Memory>
    ensures ok { OnOk result (ports.new.items ≡ ports.old.items
        ++ map (λ (connection : Connection). connection.port) (filter is_idle connections.now)) }
    ensures err { OnErr result (IsPrefixOf ports.old.items ports.new.items) }
{
    for connection in connections {
        if connection.is_idle() {
            ports.push(connection.port)?;
        }
    }
    Ok(())
}

/// Appends a connection. Returns false if memory runs out.
pub fn push(connections: &mut Vec<Connection>, connection: Connection) -> bool
    ensures ok { result ≡ true → connections.new.items ≡ connections.old.items ++ connection ∷ [] }
    ensures same { result ≡ false → connections.new.items ≡ connections.old.items }
{
    connections.push(connection).is_ok()
}

/// Closes all connections. Their pending output is still handed over.
pub fn close_each(connections: &mut Vec<Connection>)
    ensures { connections.new.items ≡ map closed_connection connections.old.items }
{
    for index in 0..connections.len() {
        connections[index].close();
    }
}

/// Removes closed connections without pending output.
pub fn keep_listed(connections: &mut Vec<Connection>)
    ensures { connections.new.items ≡ filter is_listed connections.old.items }
{
    connections.retain(|connection| connection.is_listed());
}
