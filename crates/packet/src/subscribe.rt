// SUBSCRIBE: a client subscribes (MQTT 3.8).

ghost use Rattle.std.specs.Prelude.{
  ◌≡◌,
  ◌+◌,
  ◌≤◌,
  ◌++◌,
  length,
  min,
  vec_len,
  vec_capacity,
  true,
};
ghost use Rattle.packet_base.specs.Outcome.{Gives, IsOutOfMemory};
ghost use Rattle.packet_base.specs.Lists.{begins_list};
ghost use Rattle.packet.specs.Subscribe.{
  subscription,
  subscription_at,
  subscribe_body,
  subscribe_of,
  FitsSubscribe,
};

use packet_base::{
    ListItem, PacketId, PacketList, QoS, Reader, Stop, put_byte, put_number, put_text,
};
use std::alloc::{AllocError, Global};
use topics::Filter;

/// A filter that a client subscribes to, and the maximum QoS at which it is sent publications (MQTT
/// 3.8.3).
#[derive(Debug, PartialEq, Eq, Drop)]
pub struct Subscription {
    /// The Topic Filter.
    pub filter: Filter,
    /// The requested maximum QoS.
    pub qos: QoS,
}

impl Clone for Subscription {
    ghost is_clone = { λ subscription copy. copy ≡ subscription };

    fn clone(&self) -> Result<Subscription, AllocError> {
        Ok(Subscription {
            filter: self.filter.clone()?,
            qos: self.qos,
        })
    }
}

impl ListItem for Subscription {
    ghost use Rattle.packet.specs.Subscribe.{FitsSubscription};

    ghost spelled = { subscription };

    ghost item_at = { subscription_at };

    ghost Fits = { FitsSubscription };

    #[tactic(auto, unfolding(crate::specs::Subscribe::subscription_at))]
    fn read(alloc: Global, body: &mut Reader) -> Result<Subscription, Stop> {
        let filter = body.filter_text()?;
        let qos = QoS::of(body.byte()?)?;
        let filter = Filter::of_faultless(alloc, filter)?;
        Ok(Subscription { filter, qos })
    }

    fn spelled_len(&self) -> usize {
        3 + self.filter.as_str().len()
    }

    fn put(&self, out: &mut Vec<u8>) {
        put_text(out, self.filter.as_str());
        put_byte(out, self.qos.number());
    }

    fn ensure_ranges(&self) {
        let _filter = self.filter.as_str();
    }
}

/// A client subscribes (MQTT 3.8). `decode` returns no empty list, and `encode` requires that there
/// is none.
#[derive(Clone, Debug, PartialEq, Eq, Drop)]
pub struct Subscribe {
    /// The identifier, which the SUBACK repeats.
    pub id: PacketId,
    /// The requested subscriptions; SUBACK has its return codes in the same order.
    pub filters: PacketList<Subscription>,
}

impl Subscribe {
    /// Reads the body of a SUBSCRIBE (MQTT 3.8), up to its first fault.
    #[tactic(auto, unfolding(crate::specs::Subscribe::subscribe_of))]
    pub(crate) fn read(alloc: Global, body: &mut Reader) -> Result<Subscribe, Stop>
        ensures exact { Gives (λ value. value) result (subscribe_of body.old) }
        ensures memory { IsOutOfMemory result → begins_list subscription_at body.old ≡ true }
    {
        let id = body.id()?;
        let filters = PacketList::read(alloc, body)?;
        Ok(Subscribe { id, filters })
    }

    /// Returns the length of the body in bytes.
    pub(crate) fn body_len(&self) -> usize
        ensures { result ≡ min (length (subscribe_body self.now)) usize.MAX }
    {
        self.filters.len_after(2)
    }

    /// Appends the body. The caller has reserved the capacity.
    pub(crate) fn put(&self, out: &mut Vec<u8>)
        requires { vec_len out.old + length (subscribe_body self.now) ≤ vec_capacity out.old }
        ensures { out.new.items ≡ out.old.items ++ subscribe_body self.now }
    {
        put_number(out, self.id.number());
        self.filters.put(out);
    }

    /// Ensures, for a proof, that the fields are in their ranges; it does nothing else.
    pub(crate) fn ensure_ranges(&self)
        ensures { FitsSubscribe self.now }
    {
        let _id = self.id.number();
        self.filters.ensure_ranges();
    }
}
