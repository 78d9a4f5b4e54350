// The errors of a `Joiner`.

ghost use Rattle.std.specs.Prelude.{◌≡◌};

use machine::MEMORY_TEXT;
use std::alloc::AllocError;
use std::error::Error;
use std::fmt;

/// Why the bytes of a stream are no parts of messages.
#[derive(Clone, Copy, Debug, PartialEq, Eq)]
pub enum PartFault {
    /// A part begins with a byte that is neither 0 nor 1.
    Flag,
    /// A part has more than [`crate::frames::MAX_PART`] bytes.
    Length,
    /// With this part a message has more bytes than the joiner takes.
    TooLarge,
}

impl fmt::Display for PartFault {
    fn fmt<W: fmt::Write>(&self, f: &mut fmt::Formatter<W>) -> fmt::Result {
        let text = match self {
            PartFault::Flag => "a part begins with no flag",
            PartFault::Length => "a part is longer than 65536 bytes",
            PartFault::TooLarge => "a message is too large",
        };
        write!(f, "{text}")
    }
}

impl Error for PartFault {}

/// Why a call of a [`crate::frames::Joiner`] fails.
#[derive(Clone, Copy, Debug, PartialEq, Eq)]
pub enum JoinError {
    /// The stream continues with bytes that are no part.
    Part(PartFault),
    /// Memory ran out; the joiner is unchanged.
    Memory,
    /// An earlier call reported a fault of the stream.
    Failed,
}

impl fmt::Display for JoinError {
    fn fmt<W: fmt::Write>(&self, f: &mut fmt::Formatter<W>) -> fmt::Result {
        match self {
            JoinError::Part(fault) => write!(f, "{fault}"),
            JoinError::Memory => write!(f, "{MEMORY_TEXT}"),
            JoinError::Failed => write!(f, "the stream has failed before"),
        }
    }
}

impl Error for JoinError {}

impl From<AllocError> for JoinError {
    ghost use Rattle.links.specs.declared.frames.error.JoinError.TheVariants.{Memory};

    ghost from_gives = { λ _ error. error ≡ Memory };

    fn from(_error: AllocError) -> JoinError {
        JoinError::Memory
    }
}
