// The input of a node.

use crate::node_connections::{Piece, Port};
use ballot_base::Message;
use broker_spec::Command;
use packet_base::ClientId;

/// The input of a node's step. Times are in milliseconds since a moment that the caller chooses.
#[derive(Drop)]
pub enum Item {
    /// A message of another node.
    Peer(Message<Command>),
    /// The time: the replica retransmits, and connections whose keep alive has expired are closed.
    Tick(u64),
    /// A stream was opened at this time. The node does not use the time.
    Opened(Port, u64),
    /// Bytes arrived on it, at this time.
    Bytes(Port, Piece, u64),
    /// The stream ended, or failed.
    Ended(Port),
    /// An administrator ends a client's session: the node proposes an `Expel`.
    Expel(ClientId),
    /// The replica cuts its log: a snapshot replaces the commands that it has applied.
    Cut,
    /// The node crashes: its replica stops for good.
    Crash,
}
