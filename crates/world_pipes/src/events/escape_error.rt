// Why there is no recovery.

ghost use Rattle.std.specs.Prelude.{◌≡◌};
ghost use Rattle.world_pipes.specs.events.Refusals.{escape_number};

use machine::{MEMORY_NUMBER, MEMORY_TEXT, Memory};
use std::alloc::{AllocError, AllocFailed};
use std::error::Error;
use std::fmt;

/// Why no recovery of a world is returned.
#[derive(Clone, Copy, Debug, PartialEq, Eq)]
pub enum EscapeError {
    /// There is none for these members and this client.
    Idle,
    /// Memory ran out.
    Memory,
}

impl EscapeError {
    /// Returns the number of this refusal, the same in every program and document of this broker.
    pub fn number(self) -> u8
        ensures { result ≡ escape_number self }
    {
        match self {
            EscapeError::Idle => 24,
            EscapeError::Memory => MEMORY_NUMBER,
        }
    }
}

impl fmt::Display for EscapeError {
    fn fmt<W: fmt::Write>(&self, f: &mut fmt::Formatter<W>) -> fmt::Result {
        let text = match self {
            EscapeError::Idle => "no way out",
            EscapeError::Memory => MEMORY_TEXT,
        };
        write!(f, "{text}")
    }
}

impl Error for EscapeError {}

impl From<Memory> for EscapeError {
    ghost use Rattle.std.specs.Prelude.{◌≡◌};
    ghost use Rattle.world_pipes.specs.declared.events.escape_error.EscapeError.TheVariants as errors;

    ghost from_gives = { λ _ error. error ≡ errors.Memory };

    fn from(_error: Memory) -> EscapeError {
        EscapeError::Memory
    }
}

impl From<AllocError> for EscapeError {
    ghost use Rattle.std.specs.Prelude.{◌≡◌};
    ghost use Rattle.world_pipes.specs.declared.events.escape_error.EscapeError.TheVariants as errors;

    ghost from_gives = { λ _ error. error ≡ errors.Memory };

    fn from(_error: AllocError) -> EscapeError {
        EscapeError::Memory
    }
}

impl<T: Drop> From<AllocFailed<T>> for EscapeError {
    ghost use Rattle.std.specs.Prelude.{◌≡◌};
    ghost use Rattle.world_pipes.specs.declared.events.escape_error.EscapeError.TheVariants as errors;

    ghost from_gives = { λ _ error. error ≡ errors.Memory };

    fn from(_error: AllocFailed<T>) -> EscapeError {
        EscapeError::Memory
    }
}
