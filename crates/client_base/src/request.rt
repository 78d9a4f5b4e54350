// A request that the server has not acknowledged yet.

use packet_base::PacketId;

/// A request that waits for its acknowledgement, with its Packet Identifier.
#[derive(Clone, Copy, Debug, PartialEq, Eq)]
pub enum Request {
    /// A SUBSCRIBE, which waits for SUBACK (MQTT 3.8.4).
    Subscribes(PacketId),
    /// An UNSUBSCRIBE, which waits for UNSUBACK (MQTT 3.10.4).
    Unsubscribes(PacketId),
}
