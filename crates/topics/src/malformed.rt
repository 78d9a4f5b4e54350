// The thirteen kinds of malformed bytes and texts, with their numbers.

ghost use Rattle.std.specs.Prelude.{◌≡◌};
ghost use Rattle.topics.specs.Refusals.{malformed_number};

use machine::{MEMORY_NUMBER, MEMORY_TEXT};
use std::alloc::{AllocError, AllocFailed};
use std::error::Error;
use std::fmt;

/// Why bytes or a text do not have the form that MQTT requires, or that memory ran out. Each kind
/// has a number of its own ([`MalformedKind::number`]); `docs/MANUAL.md` has the whole table.
#[derive(Clone, Copy, Debug, PartialEq, Eq, Hash)]
pub enum MalformedKind {
    /// A packet type that is reserved (MQTT 2.2.1).
    PacketType,
    /// Fixed header flags that are not those of the packet type (MQTT 2.2.2).
    Flags,
    /// A Remaining Length of more than four bytes (MQTT 2.2.3), or, by this broker's own rule, not
    /// in its shortest spelling.
    Length,
    /// A packet above the size limit of this broker.
    TooLarge,
    /// A text that is not well-formed UTF-8, or that has U+0000 (MQTT 1.5.3).
    Text,
    /// A Packet Identifier of zero (MQTT 2.3.1), or a Client Identifier outside its limits.
    Identifier,
    /// A QoS above 2 (MQTT 3.3.1.2, 3.8.3), or a SUBACK byte outside its table (MQTT 3.9.3).
    Qos,
    /// A Topic Name that is empty, too long, or has a wildcard (MQTT 4.7).
    Topic,
    /// A Topic Filter that is empty, too long, or has a wildcard out of its place (MQTT 4.7.1).
    Filter,
    /// A field that does not fit, bytes left over, an empty list, or a byte outside its table.
    Shape,
    /// A CONNECT of another protocol, or a packet that is not allowed here (MQTT 3.1.2).
    Protocol,
    /// Memory ran out.
    Memory,
    /// A topic or a filter with more levels than this broker accepts.
    TooDeep,
}

impl MalformedKind {
    /// Returns the number of this refusal, the same in every program and document of this broker.
    pub fn number(self) -> u8
        ensures { result ≡ malformed_number self }
    {
        match self {
            MalformedKind::PacketType => 1,
            MalformedKind::Flags => 2,
            MalformedKind::Length => 3,
            MalformedKind::TooLarge => 4,
            MalformedKind::Text => 5,
            MalformedKind::Identifier => 6,
            MalformedKind::Qos => 7,
            MalformedKind::Topic => 8,
            MalformedKind::Filter => 9,
            MalformedKind::Shape => 10,
            MalformedKind::Protocol => 11,
            MalformedKind::Memory => MEMORY_NUMBER,
            MalformedKind::TooDeep => 14,
        }
    }
}

impl fmt::Display for MalformedKind {
    fn fmt<W: fmt::Write>(&self, f: &mut fmt::Formatter<W>) -> fmt::Result {
        let text = match self {
            MalformedKind::PacketType => "reserved packet type",
            MalformedKind::Flags => "flags of the fixed header",
            MalformedKind::Length => "remaining length",
            MalformedKind::TooLarge => "packet too large",
            MalformedKind::Text => "text",
            MalformedKind::Identifier => "identifier",
            MalformedKind::Qos => "quality of service",
            MalformedKind::Topic => "topic name",
            MalformedKind::Filter => "topic filter",
            MalformedKind::Shape => "shape of the packet",
            MalformedKind::Protocol => "protocol",
            MalformedKind::Memory => MEMORY_TEXT,
            MalformedKind::TooDeep => "too many levels",
        };
        write!(f, "{text}")
    }
}

impl Error for MalformedKind {}

impl From<AllocError> for MalformedKind {
    ghost use Rattle.topics.specs.declared.malformed.MalformedKind.TheVariants.{Memory};

    ghost from_gives = { λ _ kind. kind ≡ Memory };

    fn from(_error: AllocError) -> MalformedKind {
        MalformedKind::Memory
    }
}

impl<T: Drop> From<AllocFailed<T>> for MalformedKind {
    ghost use Rattle.topics.specs.declared.malformed.MalformedKind.TheVariants.{Memory};

    ghost from_gives = { λ _ kind. kind ≡ Memory };

    fn from(_error: AllocFailed<T>) -> MalformedKind {
        MalformedKind::Memory
    }
}
