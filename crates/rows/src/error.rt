// Why rows cannot be read or played.

use std::alloc::{AllocError, AllocFailed};

/// Why a text was not read as rows.
#[derive(Clone, Copy, Debug, PartialEq, Eq)]
pub enum RowsFault {
    /// This line is malformed, counted from 1.
    Line(u64),
    /// Memory ran out.
    Memory,
}

/// Why a step was not done, or a field was not read.
#[derive(Clone, Copy, Debug, PartialEq, Eq)]
pub enum StepFault {
    /// It is malformed.
    Form,
    /// Memory ran out.
    Memory,
}

impl From<AllocError> for RowsFault {
    ghost use Rattle.std.specs.Prelude.{◌≡◌};
    ghost use Rattle.rows.specs.declared.error.RowsFault.TheVariants.{Memory};

    ghost from_gives = { λ _ fault. fault ≡ Memory };

    fn from(_error: AllocError) -> RowsFault {
        RowsFault::Memory
    }
}

impl<T: Drop> From<AllocFailed<T>> for RowsFault {
    ghost use Rattle.std.specs.Prelude.{◌≡◌};
    ghost use Rattle.rows.specs.declared.error.RowsFault.TheVariants.{Memory};

    ghost from_gives = { λ _ fault. fault ≡ Memory };

    fn from(_error: AllocFailed<T>) -> RowsFault {
        RowsFault::Memory
    }
}

impl From<AllocError> for StepFault {
    ghost use Rattle.std.specs.Prelude.{◌≡◌};
    ghost use Rattle.rows.specs.declared.error.StepFault.TheVariants.{Memory};

    ghost from_gives = { λ _ fault. fault ≡ Memory };

    fn from(_error: AllocError) -> StepFault {
        StepFault::Memory
    }
}

impl<T: Drop> From<AllocFailed<T>> for StepFault {
    ghost use Rattle.std.specs.Prelude.{◌≡◌};
    ghost use Rattle.rows.specs.declared.error.StepFault.TheVariants.{Memory};

    ghost from_gives = { λ _ fault. fault ≡ Memory };

    fn from(_error: AllocFailed<T>) -> StepFault {
        StepFault::Memory
    }
}
