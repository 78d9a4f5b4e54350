// UNSUBSCRIBE: a client unsubscribes (MQTT 3.10).

ghost use Rattle.std.specs.Prelude.{
  ◌≡◌,
  ◌+◌,
  ◌≤◌,
  ◌++◌,
  length,
  min,
  vec_len,
  vec_capacity,
  true,
};
ghost use Rattle.packet_base.specs.Outcome.{Gives, IsOutOfMemory};
ghost use Rattle.packet_base.specs.TopicFields.{filter_at};
ghost use Rattle.packet_base.specs.Lists.{begins_list};
ghost use Rattle.packet.specs.Unsubscribe.{unsubscribe_body, unsubscribe_of, FitsUnsubscribe};

use packet_base::{PacketId, PacketList, Reader, Stop, put_number};
use std::alloc::Global;
use topics::Filter;

/// A client unsubscribes (MQTT 3.10). `decode` returns no empty list, and `encode` requires that
/// there is none.
#[derive(Clone, Debug, PartialEq, Eq, Drop)]
pub struct Unsubscribe {
    /// The identifier, which the UNSUBACK repeats.
    pub id: PacketId,
    /// The filters to unsubscribe from.
    pub filters: PacketList<Filter>,
}

impl Unsubscribe {
    /// Reads the body of an UNSUBSCRIBE (MQTT 3.10), up to its first fault.
    #[tactic(auto, unfolding(crate::specs::Unsubscribe::unsubscribe_of))]
    pub(crate) fn read(alloc: Global, body: &mut Reader) -> Result<Unsubscribe, Stop>
        ensures exact { Gives (λ value. value) result (unsubscribe_of body.old) }
        ensures memory { IsOutOfMemory result → begins_list filter_at body.old ≡ true }
    {
        let id = body.id()?;
        let filters = PacketList::read(alloc, body)?;
        Ok(Unsubscribe { id, filters })
    }

    /// Returns the length of the body in bytes.
    pub(crate) fn body_len(&self) -> usize
        ensures { result ≡ min (length (unsubscribe_body self.now)) usize.MAX }
    {
        self.filters.len_after(2)
    }

    /// Appends the body. The caller has reserved the capacity.
    pub(crate) fn put(&self, out: &mut Vec<u8>)
        requires { vec_len out.old + length (unsubscribe_body self.now) ≤ vec_capacity out.old }
        ensures { out.new.items ≡ out.old.items ++ unsubscribe_body self.now }
    {
        put_number(out, self.id.number());
        self.filters.put(out);
    }

    /// Ensures, for a proof, that the fields are in their ranges; it does nothing else.
    pub(crate) fn ensure_ranges(&self)
        ensures { FitsUnsubscribe self.now }
    {
        let _id = self.id.number();
        self.filters.ensure_ranges();
    }
}
