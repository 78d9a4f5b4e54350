// Snapshots for tests.

use admin::{
    ActiveBallot, AdminView, ConnectionLine, Counters, Details, Filled, NodeLine, OrderCounts,
    RefusalCount, Role, SessionLine,
};
use std::alloc::{AllocError, Global};

// Returns `count` of `limit`.
fn filled(count: u64, limit: u64) -> Filled {
    Filled { count, limit }
}

// Returns a node.
fn node(number: u8, ballot: u64, role: Role, held: u64, committed: u64) -> NodeLine {
    let is_member = number < 3;
    NodeLine {
        number,
        ballot,
        role,
        is_member,
        held,
        committed,
    }
}

// Returns a session.
pub(super) fn session(
    alloc: Global,
    client: &str,
    connected_seconds: Option<u64>,
    queued: u64,
) -> Result<SessionLine, AllocError> {
    let in_flight = connected_seconds.map_or(0, |_| 1);
    let subscriptions = 1 + in_flight;
    let client = String::from_str(alloc, client)?;
    Ok(SessionLine {
        client,
        connected_seconds,
        queued,
        in_flight,
        subscriptions,
    })
}

// Returns counts.
fn counters() -> Counters {
    Counters {
        connections: filled(2, 60),
        sessions: filled(2, 4_096),
        retained: filled(9, 16_384),
        queue: filled(4_096, 4_096),
        publications: 1_000,
        losses: 0,
        received_bytes: 12,
        sent_bytes: 34,
    }
}

// Returns what orders did.
fn orders(alloc: Global) -> Result<OrderCounts, AllocError> {
    let refused = RefusalCount {
        number: 18,
        count: 2,
    };
    Ok(OrderCounts {
        takeovers: 1,
        refusals: Vec::from_slice(alloc, &[refused])?,
    })
}

// Returns what is known of a broker into which nobody looked.
pub(super) fn unlooked(alloc: Global) -> Result<AdminView, AllocError> {
    Ok(AdminView {
        active: None,
        nodes: Vec::new(alloc),
        orders: orders(alloc)?,
        details: None,
    })
}

// Returns what is seen by a look into a broker with these sessions and connections.
pub(super) fn details(sessions: Vec<SessionLine>, connections: Vec<ConnectionLine>) -> Details {
    Details {
        sessions,
        connections,
        counters: counters(),
    }
}

// Returns a connection.
fn connection(client: Option<String>, connected_seconds: u64) -> ConnectionLine {
    ConnectionLine {
        client,
        node: 1,
        connected_seconds,
        unread_bytes: 0,
    }
}

// Returns sessions.
fn sessions(alloc: Global) -> Result<Vec<SessionLine>, AllocError> {
    let mut sessions = Vec::new(alloc);
    sessions.push(session(alloc, "a", Some(7), 3)?)?;
    sessions.push(session(alloc, "b\"\n", None, 4_096)?)?;
    Ok(sessions)
}

// Returns connections.
fn connections(alloc: Global) -> Result<Vec<ConnectionLine>, AllocError> {
    let mut connections = Vec::new(alloc);
    let client = Some(String::from_str(alloc, "a")?);
    connections.push(connection(client, 7))?;
    connections.push(connection(None, 0))?;
    Ok(connections)
}

// Adds nodes, sessions and connections.
pub(super) fn fill(alloc: Global, view: &mut AdminView) -> Result<(), AllocError> {
    let members = Vec::from_slice(alloc, &[1, 2])?;
    view.active = Some(ActiveBallot {
        number: 2,
        members,
        primary: 1,
    });
    view.nodes.push(node(1, 2, Role::Primary, 55, 54))?;
    view.nodes.push(node(3, 1, Role::Crashed, 2, 2))?;
    view.details = Some(details(sessions(alloc)?, connections(alloc)?));
    Ok(())
}
