// The first byte of a packet.

ghost use Rattle.std.specs.Prelude.{◌≡◌};
ghost use Rattle.packet_base.specs.Outcome.{TakesNoMemory};
ghost use Rattle.packet_base.specs.Header.{
  header_of,
  first_byte,
  plain_header,
  publish_header,
  delivery_bits,
};

use crate::stop::Stop;
use topics::MalformedKind;

/// The flags DUP and QoS of a PUBLISH (MQTT 3.3.1). A bool is DUP, which QoS 0 does not have.
#[derive(Clone, Copy, Debug, PartialEq, Eq)]
pub enum DeliveryFlags {
    /// QoS 0.
    AtMostOnce,
    /// QoS 1.
    AtLeastOnce(bool),
    /// QoS 2.
    ExactlyOnce(bool),
}

impl DeliveryFlags {
    // Returns the bits of these flags in the first byte.
    fn bits(self) -> u8
        ensures { result ≡ delivery_bits self }
    {
        match self {
            DeliveryFlags::AtMostOnce => 0,
            DeliveryFlags::AtLeastOnce(dup) => 2 + 8 * u8::from(dup),
            DeliveryFlags::ExactlyOnce(dup) => 4 + 8 * u8::from(dup),
        }
    }
}

/// The first byte of a packet, decoded: its type and its flags (MQTT 2.2.1, 2.2.2).
#[derive(Clone, Copy, Debug, PartialEq, Eq)]
pub enum Header {
    /// CONNECT, type 1.
    Connect,
    /// CONNACK, type 2.
    Connack,
    /// PUBLISH, type 3: DUP and QoS, and RETAIN.
    Publish(DeliveryFlags, bool),
    /// PUBACK, type 4.
    Puback,
    /// PUBREC, type 5.
    Pubrec,
    /// PUBREL, type 6.
    Pubrel,
    /// PUBCOMP, type 7.
    Pubcomp,
    /// SUBSCRIBE, type 8.
    Subscribe,
    /// SUBACK, type 9.
    Suback,
    /// UNSUBSCRIBE, type 10.
    Unsubscribe,
    /// UNSUBACK, type 11.
    Unsuback,
    /// PINGREQ, type 12.
    Pingreq,
    /// PINGRESP, type 13.
    Pingresp,
    /// DISCONNECT, type 14.
    Disconnect,
}

impl Header {
    /// Decodes a first byte. A reserved type is `PacketType`. A PUBLISH of QoS 3 is `Qos`, and one
    /// of QoS 0 with DUP `Flags`. For any other type, flags that are not those of the type are
    /// `Flags`.
    pub fn of(first: u8) -> Result<Header, Stop>
        ensures exact { result ≡ header_of first }
        ensures memory { TakesNoMemory result }
    {
        let flags = first % 16;
        match first / 16 {
            1 => plain(Header::Connect, 0, flags),
            2 => plain(Header::Connack, 0, flags),
            3 => publish(flags),
            4 => plain(Header::Puback, 0, flags),
            5 => plain(Header::Pubrec, 0, flags),
            6 => plain(Header::Pubrel, 2, flags),
            7 => plain(Header::Pubcomp, 0, flags),
            8 => plain(Header::Subscribe, 2, flags),
            9 => plain(Header::Suback, 0, flags),
            10 => plain(Header::Unsubscribe, 2, flags),
            11 => plain(Header::Unsuback, 0, flags),
            12 => plain(Header::Pingreq, 0, flags),
            13 => plain(Header::Pingresp, 0, flags),
            14 => plain(Header::Disconnect, 0, flags),
            _ => Err(Stop::Malformed(MalformedKind::PacketType)),
        }
    }

    /// Returns the first byte of such a packet.
    pub fn first_byte(self) -> u8
        ensures { result ≡ first_byte self }
    {
        match self {
            Header::Connect => 0x10,
            Header::Connack => 0x20,
            Header::Publish(delivery, retain) => 0x30 + delivery.bits() + u8::from(retain),
            Header::Puback => 0x40,
            Header::Pubrec => 0x50,
            Header::Pubrel => 0x62,
            Header::Pubcomp => 0x70,
            Header::Subscribe => 0x82,
            Header::Suback => 0x90,
            Header::Unsubscribe => 0xA2,
            Header::Unsuback => 0xB0,
            Header::Pingreq => 0xC0,
            Header::Pingresp => 0xD0,
            Header::Disconnect => 0xE0,
        }
    }
}

// Returns the header if the flags are the ones that its type always has.
fn plain(header: Header, wanted: u8, flags: u8) -> Result<Header, Stop>
    ensures exact { result ≡ plain_header header wanted flags }
    ensures memory { TakesNoMemory result }
{
    if flags == wanted {
        return Ok(header);
    }
    Err(Stop::Malformed(MalformedKind::Flags))
}

// Decodes the flags of a PUBLISH: DUP, two bits of QoS, RETAIN.
fn publish(flags: u8) -> Result<Header, Stop>
    ensures exact { result ≡ publish_header flags }
    ensures memory { TakesNoMemory result }
{
    let dup = flags > 7;
    let retain = flags % 2 == 1;
    match flags / 2 % 4 {
        0 if dup => Err(Stop::Malformed(MalformedKind::Flags)),
        0 => Ok(Header::Publish(DeliveryFlags::AtMostOnce, retain)),
        1 => Ok(Header::Publish(DeliveryFlags::AtLeastOnce(dup), retain)),
        2 => Ok(Header::Publish(DeliveryFlags::ExactlyOnce(dup), retain)),
        _ => Err(Stop::Malformed(MalformedKind::Qos)),
    }
}
