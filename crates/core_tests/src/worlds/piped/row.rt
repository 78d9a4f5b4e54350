// Rows of what a client with its pipes does, and what is seen of it. The server's part is played by
// hand.

use client_base::ClientError;
use packet_base::{ClientId, Payload, QoS};
use std::alloc::Global;
use topics::{Filter, TopicName};
use world_base::node_connections::Port;
use world_pipes::{PipedClient, Sending};

/// What a client does, or what is seen of it.
#[derive(Clone, Copy, Debug, PartialEq, Eq)]
pub enum Row<'a> {
    /// It opens a connection to this node, by this port.
    Open(usize, u64),
    /// There are this many connections.
    Count(usize),
    /// A connection leads to this node, by this port.
    Leads(usize, usize, u64),
    /// These bytes wait to go up on a connection, and go.
    Up(usize, &'a [u8]),
    /// These bytes wait, and this many of them go up.
    UpSome(usize, &'a [u8], usize),
    /// The server sends these bytes on the newest connection, and they come, this many of them
    /// first.
    Down(&'a [u8], usize),
    /// It sends these, which wait there.
    Sent(&'a [u8]),
    /// This many bytes wait to come, and end the connection.
    Violates(usize),
    /// It publishes `x` on `t/1` at QoS 2.
    Publish,
    /// It subscribes to `t/#` at QoS 2.
    Subscribe,
    /// It cannot.
    CannotSubscribe,
    /// It unsubscribes from `t/#`.
    Unsubscribe,
    Abandon,
    Disconnect,
    /// It cannot, since it has no connection.
    CannotDisconnect,
    /// Its CONNECT was accepted.
    Connected,
    /// It holds the newest connection, or none.
    IsOpen(bool),
    /// It keeps this many publications until they are acknowledged.
    Kept(usize),
    /// It accepted this many publications.
    Accepted(usize),
}

/// How many bytes are shown at most of what waits.
const SHOWN: usize = 24;

/// What came of a row, besides what a `Fault` shows of each client.
#[derive(Clone, Copy, Debug, PartialEq, Eq)]
pub enum Came {
    /// Nothing more, or memory ran out.
    Nothing,
    /// This many bytes wait on the connection, and these are the first of them (zeros after the
    /// last).
    Bytes(usize, [u8; SHOWN]),
    /// The connection leads to this node, by this port.
    Leads(usize, u64),
}

/// Why rows fail.
#[derive(Clone, Copy, Debug, PartialEq, Eq)]
pub enum Fault<'a> {
    /// There was no memory for a client.
    NoMemory,
    /// At this index this row did not hold, and this came instead. Then how many connections there
    /// are, and how many publications are kept and were accepted.
    Row(usize, Row<'a>, Came, usize, (usize, usize)),
}

/// Returns the first row that does not hold for client `a`, and what came.
pub fn fault_of<'a>(alloc: Global, rows: &[Row<'a>]) -> Option<Fault<'a>> {
    match ClientId::new(alloc, "a") {
        Ok(client) => {
            let mut client = PipedClient::new(alloc, client);
            first_fault(alloc, &mut client, rows)
        }
        Err(_) => Some(Fault::NoMemory),
    }
}

// Returns the first row that does not hold for this client, and what came.
fn first_fault<'a>(alloc: Global, client: &mut PipedClient, rows: &[Row<'a>]) -> Option<Fault<'a>> {
    for (at, row) in rows.iter().enumerate() {
        if !is_right(alloc, client, *row) {
            return Some(fault_at(client, at, *row));
        }
    }
    None
}

// Returns a row that does not hold, by its index, with what this client shows then.
fn fault_at<'a>(client: &PipedClient, at: usize, row: Row<'a>) -> Fault<'a> {
    let core = client.core();
    let counts = (core.kept(), core.accepted().len());
    Fault::Row(at, row, came_instead(client, row), client.len(), counts)
}

// Returns what this client shows in place of what a row says.
fn came_instead(client: &PipedClient, row: Row<'_>) -> Came {
    match row {
        Row::Up(at, _) => waiting_up(client, at),
        Row::UpSome(at, _, _) => waiting_up(client, at),
        Row::Down(_, _) => waiting_down(client),
        Row::Sent(_) => waiting_down(client),
        Row::Violates(_) => waiting_down(client),
        Row::Leads(at, _, _) => target_of(client, at),
        _ => Came::Nothing,
    }
}

// Returns what waits to go up on a connection, if there is such a one.
fn waiting_up(client: &PipedClient, at: usize) -> Came {
    if at >= client.len() {
        return Came::Nothing;
    }
    waiting(client.up(at))
}

// Returns what waits to come on the newest connection, if there is one.
fn waiting_down(client: &PipedClient) -> Came {
    if client.len() == 0 {
        return Came::Nothing;
    }
    waiting(client.down(client.len() - 1))
}

// Returns where a connection leads, if there is such a one.
fn target_of(client: &PipedClient, at: usize) -> Came {
    if at >= client.len() {
        return Came::Nothing;
    }
    let (node, port) = client.leads_to(at);
    Came::Leads(node, port.0)
}

// Returns how many bytes wait, and the first of them.
fn waiting(bytes: &[u8]) -> Came {
    let mut first = [0; SHOWN];
    for (to, byte) in first.iter_mut().zip(bytes) {
        *to = *byte;
    }
    Came::Bytes(bytes.len(), first)
}

fn is_right(alloc: Global, client: &mut PipedClient, row: Row<'_>) -> bool {
    match row {
        Row::Open(node, port) => !client.is_open() && client.open(node, Port(port)).is_ok(),
        Row::Count(count) => client.len() == count,
        Row::Leads(at, node, port) => at < client.len()
            && client.leads_to(at) == (node, Port(port)),
        Row::Up(at, bytes) => carry_up(client, at, bytes, bytes.len()),
        Row::UpSome(at, bytes, count) => carry_up(client, at, bytes, count),
        Row::Down(bytes, first) => send_and_carry_down(alloc, client, bytes, first),
        Row::Sent(bytes) => is_sent(alloc, client, bytes),
        Row::Violates(count) => violates(client, count),
        Row::Publish => publish(alloc, client) == Some(Sending::Sent),
        Row::Subscribe => subscribe(alloc, client) == Some(Sending::Sent),
        Row::CannotSubscribe => subscribe(alloc, client).is_none(),
        Row::Unsubscribe => unsubscribe(alloc, client) == Some(Sending::Sent),
        Row::Abandon => is_abandoned(client),
        Row::Disconnect => client.disconnect() == Ok(Sending::Sent),
        Row::CannotDisconnect => client.disconnect() == Err(ClientError::NotActive),
        Row::Connected => client.core().connected(),
        Row::IsOpen(open) => client.is_open() == open,
        Row::Kept(count) => client.core().kept() == count,
        Row::Accepted(count) => client.core().accepted().len() == count,
    }
}

// Returns true if these bytes wait to go up on a connection, and this many of them go.
fn carry_up(client: &mut PipedClient, at: usize, bytes: &[u8], count: usize) -> bool {
    if at >= client.len() || client.up(at) != bytes || count > client.up(at).len() {
        return false;
    }
    client.take_up(at, count);
    match bytes.get(count..) {
        Some(rest) => client.up(at) == rest,
        None => false,
    }
}

// Returns true if the server can send these bytes on the newest connection, after what waits there.
fn is_sent(alloc: Global, client: &mut PipedClient, bytes: &[u8]) -> bool {
    if client.len() == 0 {
        return false;
    }
    let newest = client.len() - 1;
    let mut waiting = Vec::new(alloc);
    client.swap_down(newest, &mut waiting);
    let is_room = waiting.extend_from_slice(bytes).is_ok();
    client.swap_down(newest, &mut waiting);
    is_room
}

// Returns true if these bytes are sent and come, this many of them first.
fn send_and_carry_down(
    alloc: Global,
    client: &mut PipedClient,
    bytes: &[u8],
    first: usize,
) -> bool {
    first <= bytes.len()
        && is_sent(alloc, client, bytes)
        && carry_down(client, first)
        && carry_down(client, bytes.len() - first)
}

// Returns true if this many bytes come on the connection that the client holds.
fn carry_down(client: &mut PipedClient, count: usize) -> bool {
    if client.len() == 0 || !client.is_open() || count > client.down(client.len() - 1).len() {
        return false;
    }
    client.carry_down(count).is_ok()
}

// Returns true if this many bytes wait to come, and are against the protocol.
fn violates(client: &mut PipedClient, count: usize) -> bool {
    if client.len() == 0 || !client.is_open() || count != client.down(client.len() - 1).len() {
        return false;
    }
    client.carry_down(count) == Err(ClientError::Protocol)
}

fn is_abandoned(client: &mut PipedClient) -> bool {
    client.abandon();
    true
}

fn publish(alloc: Global, client: &mut PipedClient) -> Option<Sending> {
    let topic = TopicName::new(alloc, "t/1").ok()?;
    let payload = Payload::new(alloc, b"x").ok()?;
    client.publish(topic, QoS::ExactlyOnce, false, payload).ok()
}

fn subscribe(alloc: Global, client: &mut PipedClient) -> Option<Sending> {
    let filter = Filter::new(alloc, "t/#").ok()?;
    client.subscribe(filter, QoS::ExactlyOnce).ok()
}

fn unsubscribe(alloc: Global, client: &mut PipedClient) -> Option<Sending> {
    let filter = Filter::new(alloc, "t/#").ok()?;
    client.unsubscribe(filter).ok()
}
