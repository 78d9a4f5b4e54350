// PUBLISH: a publication in transit (MQTT 3.3).

ghost use Rattle.std.specs.Prelude.{
  ◌≡◌,
  ◌+◌,
  ◌≤◌,
  ◌++◌,
  length,
  min,
  vec_len,
  vec_capacity,
  IsOk,
};
ghost use Rattle.packet_base.specs.Outcome.{Gives, IsOutOfMemory};
ghost use Rattle.packet.specs.Publish.{publish_body, publish_of, FitsPublish};

use crate::delivery::Delivery;
use packet_base::{DeliveryFlags, Payload, Reader, Stop, put_bytes, put_text};
use std::alloc::Global;
use topics::TopicName;

/// A publication sent to the server or to a subscriber (MQTT 3.3).
#[derive(Clone, Debug, PartialEq, Eq, Drop)]
pub struct Publish {
    /// The topic of the publication.
    pub topic: TopicName,
    /// QoS, DUP and Packet Identifier.
    pub delivery: Delivery,
    /// RETAIN: to the server, store this for later subscribers; from the server, this had been
    /// stored (MQTT 3.3.1.3).
    pub retain: bool,
    /// What the publication carries.
    pub payload: Payload,
}

impl Publish {
    /// Reads the body of a PUBLISH with these flags (MQTT 3.3), up to its first fault.
    #[tactic(auto, unfolding(crate::specs::Publish::publish_of))]
    pub(crate) fn read(
        alloc: Global,
        flags: DeliveryFlags,
        retain: bool,
        body: &mut Reader,
    ) -> Result<Publish, Stop>
        ensures exact { Gives (λ value. value) result (publish_of flags retain body.old) }
        ensures memory { IsOutOfMemory result → IsOk (publish_of flags retain body.old) }
    {
        let topic = body.topic_text()?;
        let delivery = Delivery::read(flags, body)?;
        let topic = TopicName::of_faultless(alloc, topic)?;
        let payload = Payload::new(alloc, body.rest())?;
        Ok(Publish {
            topic,
            delivery,
            retain,
            payload,
        })
    }

    /// Returns the length of the body in bytes.
    pub(crate) fn body_len(&self) -> usize
        ensures { result ≡ min (length (publish_body self.now)) usize.MAX }
    {
        let names = 2 + self.topic.as_str().len() + self.delivery.id_len();
        names.saturating_add(self.payload.as_slice().len())
    }

    /// Appends the body. The caller has reserved the capacity.
    pub(crate) fn put(&self, out: &mut Vec<u8>)
        requires { vec_len out.old + length (publish_body self.now) ≤ vec_capacity out.old }
        ensures { out.new.items ≡ out.old.items ++ publish_body self.now }
    {
        put_text(out, self.topic.as_str());
        self.delivery.put_id(out);
        put_bytes(out, self.payload.as_slice());
    }

    /// Ensures, for a proof, that the fields are in their ranges; it does nothing else.
    pub(crate) fn ensure_ranges(&self)
        ensures { FitsPublish self.now }
    {
        let _topic = self.topic.as_str();
        self.delivery.ensure_ranges();
    }
}
