// QoS, DUP and Packet Identifier of a PUBLISH.

ghost use Rattle.std.specs.Prelude.{◌≡◌, ◌+◌, ◌≤◌, ◌++◌, length, vec_len, vec_capacity};
ghost use Rattle.packet_base.specs.Outcome.{Reads, TakesNoMemory};
ghost use Rattle.packet.specs.Delivery.{
  delivery_flags,
  delivery_id,
  delivery_qos,
  id_of,
  delivery_at,
  FitsDelivery,
};

use packet_base::{DeliveryFlags, PacketId, QoS, Reader, Stop, put_number};

/// The QoS of a PUBLISH, with DUP and the Packet Identifier if the QoS has them (MQTT 3.3.1,
/// 3.3.2.2). The bool is DUP: true if this may be a retransmission.
#[derive(Clone, Copy, Debug, PartialEq, Eq)]
pub enum Delivery {
    /// QoS 0: neither an identifier nor DUP.
    AtMostOnce,
    /// QoS 1.
    AtLeastOnce(bool, PacketId),
    /// QoS 2.
    ExactlyOnce(bool, PacketId),
}

impl Delivery {
    /// Returns the QoS.
    pub fn qos(self) -> QoS
        ensures { result ≡ delivery_qos self }
    {
        match self {
            Delivery::AtMostOnce => QoS::AtMostOnce,
            Delivery::AtLeastOnce(_, _) => QoS::AtLeastOnce,
            Delivery::ExactlyOnce(_, _) => QoS::ExactlyOnce,
        }
    }

    /// Returns the Packet Identifier, which QoS 0 does not have.
    pub fn id(self) -> Option<PacketId>
        ensures { result ≡ id_of self }
    {
        match self {
            Delivery::AtMostOnce => None,
            Delivery::AtLeastOnce(_, id) => Some(id),
            Delivery::ExactlyOnce(_, id) => Some(id),
        }
    }

    /// Returns DUP and QoS as the first byte has them.
    pub(crate) fn flags(self) -> DeliveryFlags
        ensures { result ≡ delivery_flags self }
    {
        match self {
            Delivery::AtMostOnce => DeliveryFlags::AtMostOnce,
            Delivery::AtLeastOnce(dup, _) => DeliveryFlags::AtLeastOnce(dup),
            Delivery::ExactlyOnce(dup, _) => DeliveryFlags::ExactlyOnce(dup),
        }
    }

    /// Reads the identifier if these flags have one, up to the first fault.
    #[tactic(auto, unfolding(crate::specs::Delivery::delivery_at))]
    pub(crate) fn read(flags: DeliveryFlags, body: &mut Reader) -> Result<Delivery, Stop>
        ensures exact { Reads (λ value. value) result body.new (delivery_at flags body.old) }
        ensures memory { TakesNoMemory result }
    {
        match flags {
            DeliveryFlags::AtMostOnce => Ok(Delivery::AtMostOnce),
            DeliveryFlags::AtLeastOnce(dup) => Ok(Delivery::AtLeastOnce(dup, body.id()?)),
            DeliveryFlags::ExactlyOnce(dup) => Ok(Delivery::ExactlyOnce(dup, body.id()?)),
        }
    }

    /// Returns how many bytes the identifier takes: 2, or 0 at QoS 0.
    pub(crate) fn id_len(self) -> usize
        ensures { result ≡ length (delivery_id self) }
    {
        match self {
            Delivery::AtMostOnce => 0,
            _ => 2,
        }
    }

    /// Appends the Packet Identifier in two bytes; at QoS 0 there is none (MQTT 3.3.2.2).
    pub(crate) fn put_id(self, out: &mut Vec<u8>)
        requires { vec_len out.old + length (delivery_id self) ≤ vec_capacity out.old }
        ensures items { out.new.items ≡ out.old.items ++ delivery_id self }
        ensures len { vec_len out.new ≡ vec_len out.old + length (delivery_id self) }
        ensures capacity { vec_capacity out.old ≤ vec_capacity out.new }
    {
        match self {
            Delivery::AtMostOnce => {}
            Delivery::AtLeastOnce(_, id) => put_number(out, id.number()),
            Delivery::ExactlyOnce(_, id) => put_number(out, id.number()),
        }
    }

    /// Ensures that the identifier is in its range.
    pub(crate) fn ensure_ranges(self)
        ensures { FitsDelivery self }
    {
        match self {
            Delivery::AtMostOnce => {}
            Delivery::AtLeastOnce(_, id) => {
                let _number = id.number();
            }
            Delivery::ExactlyOnce(_, id) => {
                let _number = id.number();
            }
        }
    }
}
