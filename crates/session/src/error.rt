// Why a session refused a publication.

ghost use Rattle.std.specs.Prelude.{◌≡◌};
ghost use Rattle.session.specs.Refusals.{enqueue_error_number};

use machine::{MEMORY_NUMBER, MEMORY_TEXT, Memory};
use std::alloc::{AllocError, AllocFailed};
use std::error::Error;
use std::fmt;

/// Why a publication was not queued. The session is unchanged.
#[derive(Clone, Copy, Debug, PartialEq, Eq)]
pub enum EnqueueError {
    /// The session holds [`session_base::MAX_ENTRIES`] entries.
    QueueFull,
    /// Memory ran out.
    Memory,
}

impl EnqueueError {
    /// Returns the number of this refusal, the same in every program and document of this broker.
    pub fn number(self) -> u8
        ensures { result ≡ enqueue_error_number self }
    {
        match self {
            EnqueueError::QueueFull => 15,
            EnqueueError::Memory => MEMORY_NUMBER,
        }
    }
}

impl fmt::Display for EnqueueError {
    fn fmt<W: fmt::Write>(&self, f: &mut fmt::Formatter<W>) -> fmt::Result {
        let text = match self {
            EnqueueError::QueueFull => "the session's queue is full",
            EnqueueError::Memory => MEMORY_TEXT,
        };
        write!(f, "{text}")
    }
}

impl Error for EnqueueError {}

impl From<AllocError> for EnqueueError {
    ghost use Rattle.session.specs.declared.error.EnqueueError.TheVariants.{Memory};

    ghost from_gives = { λ _ error. error ≡ Memory };

    fn from(_error: AllocError) -> EnqueueError {
        EnqueueError::Memory
    }
}

impl<T: Drop> From<AllocFailed<T>> for EnqueueError {
    ghost use Rattle.session.specs.declared.error.EnqueueError.TheVariants.{Memory};

    ghost from_gives = { λ _ error. error ≡ Memory };

    fn from(_error: AllocFailed<T>) -> EnqueueError {
        EnqueueError::Memory
    }
}

impl From<Memory> for EnqueueError {
    ghost use Rattle.session.specs.declared.error.EnqueueError.TheVariants.{Memory};

    ghost from_gives = { λ _ error. error ≡ Memory };

    fn from(_error: Memory) -> EnqueueError {
        EnqueueError::Memory
    }
}
