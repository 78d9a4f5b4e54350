// The errors of `decode` and `encode`.

ghost use Rattle.std.specs.Prelude.{◌≡◌};
ghost use Rattle.packet.specs.Refusals.{decode_number, encode_number};

use machine::{MEMORY_NUMBER, MEMORY_TEXT};
use packet_base::RefusalCode;
use std::alloc::AllocError;
use std::error::Error;
use std::fmt;
use topics::MalformedKind;

/// Why `decode` returns no packet.
#[derive(Clone, Copy, Debug, PartialEq, Eq)]
pub enum DecodeFault {
    /// The bytes begin no packet, or memory ran out.
    Malformed(MalformedKind),
    /// A CONNECT that is answered by a CONNACK with this code.
    Refused(RefusalCode),
}

impl DecodeFault {
    /// Returns the number of the refusal; a CONNECT that is answered by a CONNACK has none.
    pub fn number(self) -> Option<u8>
        ensures { result ≡ decode_number self }
    {
        match self {
            DecodeFault::Malformed(kind) => Some(kind.number()),
            DecodeFault::Refused(_) => None,
        }
    }
}

impl fmt::Display for DecodeFault {
    fn fmt<W: fmt::Write>(&self, f: &mut fmt::Formatter<W>) -> fmt::Result {
        match self {
            DecodeFault::Malformed(kind) => write!(f, "malformed packet: {kind}"),
            DecodeFault::Refused(code) => write!(f, "connection refused: {code}"),
        }
    }
}

impl Error for DecodeFault {}

/// Why `encode` does not write a packet.
#[derive(Clone, Copy, Debug, PartialEq, Eq)]
pub enum EncodeFault {
    /// The packet is over this broker's limit of 1,048,576 bytes.
    TooLarge,
    /// Memory ran out.
    Memory,
}

impl EncodeFault {
    /// Returns the number of the refusal.
    pub fn number(self) -> u8
        ensures { result ≡ encode_number self }
    {
        match self {
            EncodeFault::TooLarge => 4,
            EncodeFault::Memory => MEMORY_NUMBER,
        }
    }
}

impl fmt::Display for EncodeFault {
    fn fmt<W: fmt::Write>(&self, f: &mut fmt::Formatter<W>) -> fmt::Result {
        match self {
            EncodeFault::TooLarge => write!(f, "packet too large"),
            EncodeFault::Memory => write!(f, "{MEMORY_TEXT}"),
        }
    }
}

impl Error for EncodeFault {}

impl From<AllocError> for EncodeFault {
    ghost use Rattle.packet.specs.declared.error.EncodeFault.TheVariants.{Memory};

    ghost from_gives = { λ _ fault. fault ≡ Memory };

    fn from(_error: AllocError) -> EncodeFault {
        EncodeFault::Memory
    }
}
