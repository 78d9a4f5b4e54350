// The events of a world.

use ballot_base::Config;
use packet_base::{ClientId, QoS};
use session_base::Publication;
use topics::Filter;

/// An event of a world. Nodes are numbered from 1, messages from 0 in the order of their sending,
/// connections from 1 in the order of [`Event::Open`].
#[derive(Drop)]
pub enum Event {
    /// The master assigns the next ballot to a configuration. Idle if it refuses: for members or a
    /// primary that no ballot may have, and after the last ballot.
    Assign(Config),
    /// The message of this number reaches its receiver. Idle if no such message was sent, or its
    /// receiver is unknown or has stopped.
    Deliver(u64),
    /// Time passes at a node. Idle if it is unknown or has stopped.
    Tick(u8),
    /// A node cuts its log: a snapshot replaces the commands that it has applied. Idle if the node
    /// is unknown or has stopped, or has applied none since its last cut.
    Cut(u8),
    /// An administrator ends a client's session: a node proposes an Expel. Idle if there is no such
    /// client, if the node is no running active primary, and if its log is full.
    Expel(ClientId, u8),
    /// A node stops for good, and closes its connections. Idle if it is unknown or has stopped.
    Crash(u8),
    /// A client opens a connection to a node. Idle if there is no such client, if it has a
    /// connection, and if the node is no running active primary.
    Open(ClientId, u8),
    /// The first bytes in transit on the connection of the first number, as many as the second
    /// number, reach its node. Idle if its end at the node is closed, or the node has stopped, for
    /// no bytes, and for more than are in transit.
    CarryUp(u64, u64),
    /// The first bytes in transit on the connection of the first number, as many as the second
    /// number, reach its client. Idle if the client holds another connection or none, for no bytes,
    /// and for more than are in transit.
    CarryDown(u64, u64),
    /// A client loses its connection; what it wrote is still in transit. Idle if there is no such
    /// client, or it has no connection.
    Abandon(ClientId),
    /// A client disconnects, and ends its connection. Idle if there is no such client, or it has no
    /// connection.
    Disconnect(ClientId),
    /// A node notices the end of a connection. Idle if its end at the node is closed, or the node
    /// has stopped.
    Notice(u64),
    /// A client publishes. Idle if it refuses, and if there is no such client.
    Publish(ClientId, Publication),
    /// A client subscribes to a filter, at most at this QoS. Idle as for a publication.
    Subscribe(ClientId, Filter, QoS),
    /// A client unsubscribes from a filter. Idle as for a publication.
    Unsubscribe(ClientId, Filter),
}
