// A publication that a client would retransmit.

use packet_base::PacketId;
use session_base::Publication;

/// A publication at QoS 1 or 2 that is queued, or sent and unacknowledged: its PUBACK or PUBREC has
/// not come. Of a released one the client keeps only the identifier (MQTT 4.3.2, 4.3.3).
#[derive(Clone, Debug, PartialEq, Eq, Drop)]
pub struct UnacknowledgedPublication {
    /// Its Packet Identifier, assigned when it was published.
    pub id: PacketId,
    /// The publication itself.
    pub publication: Publication,
}
