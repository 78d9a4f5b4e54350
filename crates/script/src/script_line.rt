// The meaning of a line.

use crate::numbers::Numbers;
use packet_base::{ClientId, QoS};
use session_base::Publication;
use topics::Filter;

/// How many bytes are carried.
#[derive(Clone, Copy, Debug, PartialEq, Eq)]
pub enum Amount {
    /// All that wait.
    All,
    /// This many.
    Bytes(u64),
}

/// The meaning of a line. Numbers are as they are written: whether there is such a node, message or
/// connection is checked only when the line is played.
#[derive(Drop)]
pub enum ScriptLine {
    /// A configuration of these members and this primary is assigned.
    Assign(Numbers, u64),
    /// The message of this number reaches its receiver.
    Deliver(u64),
    /// Time passes at this node.
    Tick(u64),
    /// A cut of this node's log.
    Cut(u64),
    /// This node proposes that the session of this client ends.
    Expel(ClientId, u64),
    /// This node stops for good.
    Crash(u64),
    /// This client opens a connection to this node.
    Open(ClientId, u64),
    /// Bytes of this connection reach its node.
    CarryUp(u64, Amount),
    /// Bytes of this connection reach its client.
    CarryDown(u64, Amount),
    /// This client loses its connection.
    Abandon(ClientId),
    /// This client sends DISCONNECT and ends its connection.
    Disconnect(ClientId),
    /// A node notices the end of this connection.
    Notice(u64),
    /// This client publishes.
    Publish(ClientId, Publication),
    /// This client subscribes to a filter, at most at this QoS.
    Subscribe(ClientId, Filter, QoS),
    /// This client unsubscribes from a filter.
    Unsubscribe(ClientId, Filter),
}
