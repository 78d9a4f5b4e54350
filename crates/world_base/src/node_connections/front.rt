// The next packet of a connection, or why there is none.

use packet::Packet;
use packet_base::RefusalCode;

/// The result of reading at the front of a connection's bytes.
#[derive(Drop)]
pub enum Front {
    /// Less than a packet: more bytes are needed.
    More,
    /// A whole packet.
    Packet(Packet),
    /// A CONNECT that is refused with a code.
    Refused(RefusalCode),
    /// Bytes that begin no packet that this broker accepts. The connection is closed (MQTT 4.8).
    Fault,
    /// Memory ran out.
    OutOfMemory,
}
