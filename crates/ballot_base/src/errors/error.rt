// Why a replica did not open, or did not take a proposal.

ghost use Rattle.std.specs.Prelude.{◌≡◌};
ghost use Rattle.ballot_base.specs.errors.Refusals.{opening_number, propose_number};

use machine::{MEMORY_NUMBER, MEMORY_TEXT, Memory};
use std::alloc::{AllocError, AllocFailed};
use std::error::Error;
use std::fmt;

/// Why no replica was opened.
#[derive(Clone, Copy, Debug, PartialEq, Eq)]
pub enum OpeningError {
    /// No member, more than 7, not strictly rising, one below 1 or above the greatest number (15
    /// unless the call takes it), or a primary that is no member.
    BadMembers,
    /// Memory ran out.
    Memory,
}

impl OpeningError {
    /// Returns the number of this refusal, the same in every program and document of this broker.
    pub fn number(self) -> u8
        ensures { result ≡ opening_number self }
    {
        match self {
            OpeningError::BadMembers => 20,
            OpeningError::Memory => MEMORY_NUMBER,
        }
    }
}

impl fmt::Display for OpeningError {
    fn fmt<W: fmt::Write>(&self, f: &mut fmt::Formatter<W>) -> fmt::Result {
        let text = match self {
            OpeningError::BadMembers => "members or primary of the ballot",
            OpeningError::Memory => MEMORY_TEXT,
        };
        write!(f, "{text}")
    }
}

impl Error for OpeningError {}

impl From<Memory> for OpeningError {
    ghost use Rattle.ballot_base.specs.declared.errors.error.OpeningError.TheVariants.{Memory};

    ghost from_gives = { λ _ error. error ≡ Memory };

    fn from(_error: Memory) -> OpeningError {
        OpeningError::Memory
    }
}

impl From<AllocError> for OpeningError {
    ghost use Rattle.ballot_base.specs.declared.errors.error.OpeningError.TheVariants.{Memory};

    ghost from_gives = { λ _ error. error ≡ Memory };

    fn from(_error: AllocError) -> OpeningError {
        OpeningError::Memory
    }
}

impl<T: Drop> From<AllocFailed<T>> for OpeningError {
    ghost use Rattle.ballot_base.specs.declared.errors.error.OpeningError.TheVariants.{Memory};

    ghost from_gives = { λ _ error. error ≡ Memory };

    fn from(_error: AllocFailed<T>) -> OpeningError {
        OpeningError::Memory
    }
}

/// Why a proposal was not taken.
#[derive(Clone, Copy, Debug, PartialEq, Eq)]
pub enum ProposeError {
    /// This is no active primary.
    NotActive,
    /// The log has 2^40 places.
    LogFull,
    /// Memory for the log ran out.
    Memory,
    /// The replica stopped: memory ran out, now or before, or its node crashed.
    Halted,
}

impl ProposeError {
    /// Returns the number of this refusal, the same in every program and document of this broker.
    pub fn number(self) -> u8
        ensures { result ≡ propose_number self }
    {
        match self {
            ProposeError::NotActive => 18,
            ProposeError::LogFull => 19,
            ProposeError::Memory => MEMORY_NUMBER,
            ProposeError::Halted => 17,
        }
    }
}

impl fmt::Display for ProposeError {
    fn fmt<W: fmt::Write>(&self, f: &mut fmt::Formatter<W>) -> fmt::Result {
        let text = match self {
            ProposeError::NotActive => "no active primary",
            ProposeError::LogFull => "the log is full",
            ProposeError::Memory => MEMORY_TEXT,
            ProposeError::Halted => "the replica stopped",
        };
        write!(f, "{text}")
    }
}

impl Error for ProposeError {}
