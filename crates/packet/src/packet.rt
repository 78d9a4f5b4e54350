// The Control Packets.

ghost use Rattle.std.specs.Prelude.{
  ◌≡◌,
  ◌↔◌,
  ◌≤◌,
  ◌+◌,
  ◌++◌,
  length,
  min,
  vec_len,
  vec_capacity,
  IsTrue,
  true,
  IfOk,
};
ghost use Rattle.packet_base.specs.Outcome.{Gives, TakesNoMemory, IsOutOfMemory};
ghost use Rattle.packet_base.specs.Spelling.{IsId};
ghost use Rattle.packet.specs.Spelling.{header, body, Fits, IsListed, IsTooLarge};
ghost use Rattle.packet.specs.Verdict.{body_of, empty_of, asks_in_body};

use crate::connack::Connack;
use crate::connect::Connect;
use crate::id_alone::read_id_alone;
use crate::publish::Publish;
use crate::suback::Suback;
use crate::subscribe::Subscribe;
use crate::unsubscribe::Unsubscribe;
use packet_base::{Header, PacketId, Reader, Stop, put_number};
use std::alloc::{AllocError, Global};

/// The most bytes of a body, which is what follows the Remaining Length. This broker's own limit:
/// with the first byte and three bytes of length a packet has at most 2^20 bytes.
pub const MAX_BODY: usize = 1_048_572;

/// A Control Packet (MQTT 2). What MQTT's table of packets does not allow cannot be built, except
/// empty lists.
#[derive(Clone, Debug, PartialEq, Eq, Drop)]
pub enum Packet {
    /// A client asks for a connection (MQTT 3.1).
    Connect(Connect),
    /// The acknowledgement of a CONNECT (MQTT 3.2).
    Connack(Connack),
    /// A publication (MQTT 3.3).
    Publish(Publish),
    /// The acknowledgement of a PUBLISH at QoS 1 (MQTT 3.4).
    Puback(PacketId),
    /// The first acknowledgement of a PUBLISH at QoS 2 (MQTT 3.5).
    Pubrec(PacketId),
    /// The response to a PUBREC (MQTT 3.6).
    Pubrel(PacketId),
    /// The response to a PUBREL, which completes QoS 2 (MQTT 3.7).
    Pubcomp(PacketId),
    /// A client subscribes (MQTT 3.8).
    Subscribe(Subscribe),
    /// The acknowledgement of a SUBSCRIBE (MQTT 3.9).
    Suback(Suback),
    /// A client unsubscribes (MQTT 3.10).
    Unsubscribe(Unsubscribe),
    /// The acknowledgement of an UNSUBSCRIBE (MQTT 3.11).
    Unsuback(PacketId),
    /// A client shows that it is alive (MQTT 3.12).
    Pingreq,
    /// The response to a PINGREQ (MQTT 3.13).
    Pingresp,
    /// A client ends the connection (MQTT 3.14).
    Disconnect,
}

impl Packet {
    /// Returns a packet equal to this one.
    pub fn copy(&self) -> Result<Packet, AllocError>
        ensures { IfOk result (λ packet. packet ≡ self.now) }
    {
        self.clone()
    }

    /// Ensures, for a proof, that the fields of this packet are in their ranges; it does nothing
    /// else.
    pub fn ensure_ranges(&self)
        ensures { Fits self.now }
    {
        match self {
            Packet::Connect(connect) => connect.ensure_ranges(),
            Packet::Publish(publish) => publish.ensure_ranges(),
            Packet::Subscribe(subscribe) => subscribe.ensure_ranges(),
            Packet::Suback(suback) => suback.ensure_ranges(),
            Packet::Unsubscribe(unsubscribe) => unsubscribe.ensure_ranges(),
            Packet::Puback(id) => ensure_id_range(*id),
            Packet::Pubrec(id) => ensure_id_range(*id),
            Packet::Pubrel(id) => ensure_id_range(*id),
            Packet::Pubcomp(id) => ensure_id_range(*id),
            Packet::Unsuback(id) => ensure_id_range(*id),
            Packet::Connack(_) | Packet::Pingreq | Packet::Pingresp | Packet::Disconnect => {}
        }
    }

    /// Returns true if `encode` would return `TooLarge`: the body has more than [`MAX_BODY`] bytes.
    pub fn is_too_large(&self) -> bool
        ensures { IsTrue result ↔ IsTooLarge self.now }
    {
        self.body_len() > MAX_BODY
    }

    /// Returns true if no list of the packet is empty, which `encode` requires.
    pub fn has_no_empty_list(&self) -> bool
        ensures { IsTrue result ↔ IsListed self.now }
    {
        match self {
            Packet::Subscribe(subscribe) => !subscribe.filters.as_slice().is_empty(),
            Packet::Suback(suback) => !suback.codes.as_slice().is_empty(),
            Packet::Unsubscribe(unsubscribe) => !unsubscribe.filters.as_slice().is_empty(),
            _ => true,
        }
    }

    /// Returns the type and the flags, which the first byte has.
    pub(crate) fn header(&self) -> Header
        ensures { result ≡ header self.now }
    {
        match self {
            Packet::Connect(_) => Header::Connect,
            Packet::Connack(_) => Header::Connack,
            Packet::Publish(publish) => Header::Publish(publish.delivery.flags(), publish.retain),
            Packet::Puback(_) => Header::Puback,
            Packet::Pubrec(_) => Header::Pubrec,
            Packet::Pubrel(_) => Header::Pubrel,
            Packet::Pubcomp(_) => Header::Pubcomp,
            Packet::Subscribe(_) => Header::Subscribe,
            Packet::Suback(_) => Header::Suback,
            Packet::Unsubscribe(_) => Header::Unsubscribe,
            Packet::Unsuback(_) => Header::Unsuback,
            Packet::Pingreq => Header::Pingreq,
            Packet::Pingresp => Header::Pingresp,
            Packet::Disconnect => Header::Disconnect,
        }
    }

    /// Reads the body of a packet with this header, up to its first fault.
    pub(crate) fn read(alloc: Global, header: Header, body: &mut Reader) -> Result<Packet, Stop>
        ensures exact { Gives (λ value. value) result (body_of header body.old) }
        ensures memory { IsOutOfMemory result → asks_in_body header body.old ≡ true }
    {
        Ok(match header {
            Header::Connect => Packet::Connect(Connect::read(alloc, body)?),
            Header::Connack => Packet::Connack(Connack::read(body)?),
            Header::Publish(flags, retain) => {
                Packet::Publish(Publish::read(alloc, flags, retain, body)?)
            }
            Header::Puback => Packet::Puback(read_id_alone(body)?),
            Header::Pubrec => Packet::Pubrec(read_id_alone(body)?),
            Header::Pubrel => Packet::Pubrel(read_id_alone(body)?),
            Header::Pubcomp => Packet::Pubcomp(read_id_alone(body)?),
            Header::Subscribe => Packet::Subscribe(Subscribe::read(alloc, body)?),
            Header::Suback => Packet::Suback(Suback::read(alloc, body)?),
            Header::Unsubscribe => Packet::Unsubscribe(Unsubscribe::read(alloc, body)?),
            Header::Unsuback => Packet::Unsuback(read_id_alone(body)?),
            Header::Pingreq => empty(Packet::Pingreq, body)?,
            Header::Pingresp => empty(Packet::Pingresp, body)?,
            Header::Disconnect => empty(Packet::Disconnect, body)?,
        })
    }

    /// Returns the length of the body in bytes, saturating at `usize::MAX`.
    pub(crate) fn body_len(&self) -> usize
        ensures { result ≡ min (length (body self.now)) usize.MAX }
    {
        match self {
            Packet::Connect(connect) => connect.body_len(),
            Packet::Connack(connack) => connack.body_len(),
            Packet::Publish(publish) => publish.body_len(),
            Packet::Subscribe(subscribe) => subscribe.body_len(),
            Packet::Suback(suback) => suback.body_len(),
            Packet::Unsubscribe(unsubscribe) => unsubscribe.body_len(),
            Packet::Pingreq | Packet::Pingresp | Packet::Disconnect => 0,
            Packet::Puback(_)
            | Packet::Pubrec(_)
            | Packet::Pubrel(_)
            | Packet::Pubcomp(_)
            | Packet::Unsuback(_) => 2,
        }
    }

    /// Appends the body. The caller has reserved the capacity.
    pub(crate) fn put_body(&self, out: &mut Vec<u8>)
        requires { vec_len out.old + length (body self.now) ≤ vec_capacity out.old }
        ensures { out.new.items ≡ out.old.items ++ body self.now }
    {
        match self {
            Packet::Connect(connect) => connect.put(out),
            Packet::Connack(connack) => connack.put(out),
            Packet::Publish(publish) => publish.put(out),
            Packet::Puback(id) => put_number(out, id.number()),
            Packet::Pubrec(id) => put_number(out, id.number()),
            Packet::Pubrel(id) => put_number(out, id.number()),
            Packet::Pubcomp(id) => put_number(out, id.number()),
            Packet::Subscribe(subscribe) => subscribe.put(out),
            Packet::Suback(suback) => suback.put(out),
            Packet::Unsubscribe(unsubscribe) => unsubscribe.put(out),
            Packet::Unsuback(id) => put_number(out, id.number()),
            Packet::Pingreq | Packet::Pingresp | Packet::Disconnect => {}
        }
    }
}

// Ensures, for a proof, that the identifier is in its range.
fn ensure_id_range(id: PacketId)
    ensures { IsId id }
{
    let _number = id.number();
}

// Returns the packet if its body is empty, as it has to be.
fn empty(packet: Packet, body: &mut Reader) -> Result<Packet, Stop>
    ensures exact { Gives (λ value. value) result (empty_of packet body.old) }
    ensures memory { TakesNoMemory result }
{
    body.end()?;
    Ok(packet)
}
