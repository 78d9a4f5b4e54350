// Why a decoder stops before the end of a packet.

ghost use Rattle.std.specs.Prelude.{◌≡◌};

use crate::refusal_code::RefusalCode;
use std::alloc::{AllocError, AllocFailed};
use topics::MalformedKind;

/// Why reading a packet stops before its end.
#[derive(Clone, Copy, Debug, PartialEq, Eq)]
pub enum Stop {
    /// The bytes end before the packet does.
    More,
    /// No packet begins with these bytes, or memory ran out.
    Malformed(MalformedKind),
    /// A CONNECT that is answered by a CONNACK with this code.
    Refused(RefusalCode),
}

/// Memory ran out.
pub const OUT_OF_MEMORY: Stop = Stop::Malformed(MalformedKind::Memory);

impl From<MalformedKind> for Stop {
    ghost use Rattle.packet_base.specs.declared.stop.Stop.TheVariants.{Malformed};

    ghost from_gives = { λ kind stop. stop ≡ Malformed kind };

    fn from(kind: MalformedKind) -> Stop {
        Stop::Malformed(kind)
    }
}

impl From<AllocError> for Stop {
    ghost use Rattle.packet_base.specs.declared.stop.Stop.TheVariants.{Malformed};
    ghost use Rattle.topics.specs.declared.malformed.MalformedKind.TheVariants.{Memory};

    ghost from_gives = { λ _ stop. stop ≡ Malformed Memory };

    fn from(_error: AllocError) -> Stop {
        Stop::Malformed(MalformedKind::Memory)
    }
}

impl<T: Drop> From<AllocFailed<T>> for Stop {
    ghost use Rattle.packet_base.specs.declared.stop.Stop.TheVariants.{Malformed};
    ghost use Rattle.topics.specs.declared.malformed.MalformedKind.TheVariants.{Memory};

    ghost from_gives = { λ _ stop. stop ≡ Malformed Memory };

    fn from(_error: AllocFailed<T>) -> Stop {
        Stop::Malformed(MalformedKind::Memory)
    }
}
