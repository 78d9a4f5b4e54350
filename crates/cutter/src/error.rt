// The errors of a `Cutter`.

ghost use Rattle.std.specs.Prelude.{◌≡◌};
ghost use Rattle.cutter.specs.Refusals.{cut_number};

use machine::{MEMORY_NUMBER, MEMORY_TEXT};
use packet::DecodeFault;
use std::alloc::AllocError;
use std::error::Error;
use std::fmt;

/// Why a call of a [`crate::Cutter`] fails.
#[derive(Clone, Copy, Debug, PartialEq, Eq)]
pub enum CutError {
    /// The stream continues with bytes that are no packet, or with a CONNECT that is to be refused.
    /// Never that memory ran out.
    Decode(DecodeFault),
    /// Memory ran out; the cutter is unchanged.
    Memory,
    /// An earlier call reported a fault of the stream.
    Failed,
}

impl CutError {
    /// Returns the number of the refusal; a CONNECT that is answered by a CONNACK has none.
    pub fn number(self) -> Option<u8>
        ensures { result ≡ cut_number self }
    {
        match self {
            CutError::Decode(fault) => fault.number(),
            CutError::Memory => Some(MEMORY_NUMBER),
            CutError::Failed => Some(13),
        }
    }
}

impl fmt::Display for CutError {
    fn fmt<W: fmt::Write>(&self, f: &mut fmt::Formatter<W>) -> fmt::Result {
        match self {
            CutError::Decode(fault) => write!(f, "{fault}"),
            CutError::Memory => write!(f, "{MEMORY_TEXT}"),
            CutError::Failed => write!(f, "the stream has failed before"),
        }
    }
}

impl Error for CutError {}

impl From<AllocError> for CutError {
    ghost use Rattle.cutter.specs.declared.error.CutError.TheVariants.{Memory};

    ghost from_gives = { λ _ error. error ≡ Memory };

    fn from(_error: AllocError) -> CutError {
        CutError::Memory
    }
}
