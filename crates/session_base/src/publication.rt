// A publication: a PUBLISH without how it is delivered (MQTT 3.3).

ghost use Rattle.std.specs.Prelude.{◌≡◌};
ghost use Rattle.session_base.specs.Publication.{delivery_with};

use packet::Delivery;
use packet_base::{PacketId, Payload, QoS};
use topics::TopicName;

/// A publication, MQTT's Application Message, as a session's queue holds it.
#[derive(Clone, Debug, PartialEq, Eq, Drop)]
pub struct Publication {
    /// RETAIN: store this for later subscribers, or this had been stored (MQTT 3.3.1.3).
    pub retain: bool,
    /// The QoS at which it is delivered.
    pub qos: QoS,
    /// The Topic Name.
    pub topic: TopicName,
    /// The payload.
    pub payload: Payload,
}

/// Returns the delivery of a PUBLISH at this QoS; at QoS 0 `dup` and `id` are not used.
pub fn delivery(qos: QoS, dup: bool, id: PacketId) -> Delivery
    ensures { result ≡ delivery_with qos dup id }
{
    match qos {
        QoS::AtMostOnce => Delivery::AtMostOnce,
        QoS::AtLeastOnce => Delivery::AtLeastOnce(dup, id),
        QoS::ExactlyOnce => Delivery::ExactlyOnce(dup, id),
    }
}
