// Why a script was not played to its end, or lost something.

use ballot_base::errors::OpeningError;
use machine::Memory;
use script::ScriptFault;
use std::alloc::{AllocError, AllocFailed};
use std::error::Error;
use std::fmt;
use world_pipes::events::EscapeError;

/// Why a script was not played to its end, or lost something.
#[derive(Clone, Copy, Debug, PartialEq, Eq)]
pub enum PlayError {
    /// The text is no script: its first malformed line, counted from 1. Nothing was played.
    Line(u64),
    /// Memory ran out. The transcript ends before its last line, maybe within a line.
    Memory,
    /// The script was played to its end, but memory ran out in some event.
    Losses,
    /// The world in which it ends has no recovery for these members and this client.
    Idle,
}

impl fmt::Display for PlayError {
    fn fmt<W: fmt::Write>(&self, f: &mut fmt::Formatter<W>) -> fmt::Result {
        match self {
            PlayError::Line(number) => ScriptFault::Line(*number).fmt(f),
            PlayError::Memory => Memory.fmt(f),
            PlayError::Losses => write!(f, "the world ran out of memory"),
            PlayError::Idle => write!(f, "no way out"),
        }
    }
}

impl Error for PlayError {}

impl From<ScriptFault> for PlayError {
    ghost use Rattle.std.specs.Prelude.{◌≡◌};
    ghost use Rattle.play.specs.Errors.{error_of_script};

    ghost from_gives = { λ fault error. error ≡ error_of_script fault };

    fn from(fault: ScriptFault) -> PlayError {
        match fault {
            ScriptFault::Line(number) => PlayError::Line(number),
            ScriptFault::Memory => PlayError::Memory,
        }
    }
}

impl From<AllocError> for PlayError {
    ghost use Rattle.std.specs.Prelude.{◌≡◌};
    ghost use Rattle.play.specs.declared.error.PlayError.TheVariants.{Memory};

    ghost from_gives = { λ _ error. error ≡ Memory };

    fn from(_error: AllocError) -> PlayError {
        PlayError::Memory
    }
}

impl<T: Drop> From<AllocFailed<T>> for PlayError {
    ghost use Rattle.std.specs.Prelude.{◌≡◌};
    ghost use Rattle.play.specs.declared.error.PlayError.TheVariants.{Memory};

    ghost from_gives = { λ _ error. error ≡ Memory };

    fn from(_error: AllocFailed<T>) -> PlayError {
        PlayError::Memory
    }
}

impl From<Memory> for PlayError {
    ghost use Rattle.std.specs.Prelude.{◌≡◌};
    ghost use Rattle.play.specs.declared.error.PlayError.TheVariants as errors;

    ghost from_gives = { λ _ error. error ≡ errors.Memory };

    fn from(_error: Memory) -> PlayError {
        PlayError::Memory
    }
}

impl From<OpeningError> for PlayError {
    ghost use Rattle.std.specs.Prelude.{◌≡◌};
    ghost use Rattle.play.specs.Errors.{error_of_opening};

    ghost from_gives = { λ cause error. error ≡ error_of_opening cause };

    fn from(error: OpeningError) -> PlayError {
        match error {
            // A script that was read opens a world that may open.
            OpeningError::BadMembers => PlayError::Line(1),
            OpeningError::Memory => PlayError::Memory,
        }
    }
}

impl From<EscapeError> for PlayError {
    ghost use Rattle.std.specs.Prelude.{◌≡◌};
    ghost use Rattle.play.specs.Errors.{error_of_escape};

    ghost from_gives = { λ cause error. error ≡ error_of_escape cause };

    fn from(error: EscapeError) -> PlayError {
        match error {
            EscapeError::Idle => PlayError::Idle,
            EscapeError::Memory => PlayError::Memory,
        }
    }
}
