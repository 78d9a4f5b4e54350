// The errors of the store.

ghost use Rattle.std.specs.Prelude.{◌≡◌};
ghost use Rattle.retained.specs.Refusals.{retained_error_number};

use machine::{MEMORY_NUMBER, MEMORY_TEXT};
use std::alloc::{AllocError, AllocFailed};
use std::error::Error;
use std::fmt;

/// Why a publication was not retained. The store is unchanged.
#[derive(Clone, Copy, Debug, PartialEq, Eq)]
pub enum RetainedError {
    /// The topic would be the 16,385th retained one.
    RetainedFull,
    /// Memory ran out.
    Memory,
}

impl RetainedError {
    /// Returns the number of this refusal, the same in every program and document of this broker.
    pub fn number(self) -> u8
        ensures { result ≡ retained_error_number self }
    {
        match self {
            RetainedError::RetainedFull => 16,
            RetainedError::Memory => MEMORY_NUMBER,
        }
    }
}

impl fmt::Display for RetainedError {
    fn fmt<W: fmt::Write>(&self, f: &mut fmt::Formatter<W>) -> fmt::Result {
        let text = match self {
            RetainedError::RetainedFull => "too many retained topics",
            RetainedError::Memory => MEMORY_TEXT,
        };
        write!(f, "{text}")
    }
}

impl Error for RetainedError {}

impl From<AllocError> for RetainedError {
    ghost use Rattle.retained.specs.declared.error.RetainedError.TheVariants.{Memory};

    ghost from_gives = { λ _ error. error ≡ Memory };

    fn from(_error: AllocError) -> RetainedError {
        RetainedError::Memory
    }
}

impl<T: Drop> From<AllocFailed<T>> for RetainedError {
    ghost use Rattle.retained.specs.declared.error.RetainedError.TheVariants.{Memory};

    ghost from_gives = { λ _ error. error ≡ Memory };

    fn from(_error: AllocFailed<T>) -> RetainedError {
        RetainedError::Memory
    }
}
