// A publication that a client accepted.

use packet_base::{Payload, QoS};
use topics::TopicName;

/// A publication that a client accepted (MQTT 4.3), with the number of the session in which it was
/// accepted.
#[derive(Clone, Debug, PartialEq, Eq, Drop)]
pub struct Accepted {
    /// The number of the session: 1 from the first accepted connection on, and one more each time
    /// the server lost the session.
    pub session: u64,
    /// The QoS at which it was delivered.
    pub qos: QoS,
    /// RETAIN: true if the server had stored it before the subscription (MQTT 3.3.1.3).
    pub retain: bool,
    /// The Topic Name.
    pub topic: TopicName,
    /// The payload.
    pub payload: Payload,
}
