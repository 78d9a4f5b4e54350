// SUBACK: the server's acknowledgement of a SUBSCRIBE (MQTT 3.9).

ghost use Rattle.std.specs.Prelude.{
  ◌≡◌,
  ◌+◌,
  ◌≤◌,
  ◌++◌,
  length,
  min,
  vec_len,
  vec_capacity,
  true,
};
ghost use Rattle.packet_base.specs.Outcome.{Gives, IsOutOfMemory};
ghost use Rattle.packet_base.specs.Lists.{begins_list};
ghost use Rattle.packet.specs.Suback.{
  granted_number,
  granted,
  suback_code_of,
  granted_at,
  suback_body,
  suback_of,
  FitsSuback,
};

use packet_base::{ListItem, PacketId, PacketList, QoS, Reader, Stop, put_byte, put_number};
use std::alloc::Global;

/// The return code of one filter of a SUBSCRIBE (MQTT 3.9.3).
#[derive(Clone, Copy, Debug, PartialEq, Eq)]
pub enum SubackCode {
    /// The subscription is granted with this maximum QoS.
    Granted(QoS),
    /// The subscription is refused.
    Failure,
}

impl SubackCode {
    /// Returns the return code: 0 to 2, or 0x80.
    pub fn number(self) -> u8
        ensures { result ≡ granted_number self }
    {
        match self {
            SubackCode::Granted(qos) => qos.number(),
            SubackCode::Failure => 0x80,
        }
    }

    // Decodes a return code; any other byte is `Qos`.
    fn of(byte: u8) -> Result<SubackCode, Stop>
        ensures { result ≡ suback_code_of byte }
    {
        if byte == 0x80 {
            return Ok(SubackCode::Failure);
        }
        Ok(SubackCode::Granted(QoS::of(byte)?))
    }
}

impl ListItem for SubackCode {
    ghost spelled = { granted };

    ghost item_at = { granted_at };

    ghost Fits = { λ _. Unit {0} };

    #[tactic(auto, unfolding(crate::specs::Suback::granted_at))]
    fn read(_alloc: Global, body: &mut Reader) -> Result<SubackCode, Stop> {
        let byte = body.byte()?;
        SubackCode::of(byte)
    }

    fn spelled_len(&self) -> usize {
        1
    }

    fn put(&self, out: &mut Vec<u8>) {
        put_byte(out, self.number());
    }

    fn ensure_ranges(&self) {}
}

/// The acknowledgement of a SUBSCRIBE (MQTT 3.9). `decode` returns no empty list, and `encode`
/// requires that there is none.
#[derive(Clone, Debug, PartialEq, Eq, Drop)]
pub struct Suback {
    /// The identifier of the SUBSCRIBE.
    pub id: PacketId,
    /// The return code of each of its filters, in order.
    pub codes: PacketList<SubackCode>,
}

impl Suback {
    /// Reads the body of a SUBACK (MQTT 3.9), up to its first fault.
    #[tactic(auto, unfolding(crate::specs::Suback::suback_of))]
    pub(crate) fn read(alloc: Global, body: &mut Reader) -> Result<Suback, Stop>
        ensures exact { Gives (λ value. value) result (suback_of body.old) }
        ensures memory { IsOutOfMemory result → begins_list granted_at body.old ≡ true }
    {
        let id = body.id()?;
        let codes = PacketList::read(alloc, body)?;
        Ok(Suback { id, codes })
    }

    /// Returns the length of the body in bytes.
    pub(crate) fn body_len(&self) -> usize
        ensures { result ≡ min (length (suback_body self.now)) usize.MAX }
    {
        self.codes.len_after(2)
    }

    /// Appends the body. The caller has reserved the capacity.
    pub(crate) fn put(&self, out: &mut Vec<u8>)
        requires { vec_len out.old + length (suback_body self.now) ≤ vec_capacity out.old }
        ensures { out.new.items ≡ out.old.items ++ suback_body self.now }
    {
        put_number(out, self.id.number());
        self.codes.put(out);
    }

    /// Ensures, for a proof, that the fields are in their ranges; it does nothing else.
    pub(crate) fn ensure_ranges(&self)
        ensures { FitsSuback self.now }
    {
        let _id = self.id.number();
    }
}
