// The errors of a machine's calls.

ghost use Rattle.std.specs.Prelude.{◌≡◌};
ghost use Rattle.machine.specs.Machine.{thaw_number};

use std::alloc::{AllocError, AllocFailed};
use std::error::Error;
use std::fmt;

/// The number of each refusal for want of memory, in every program and document of this broker.
pub const MEMORY_NUMBER: u8 = 12;

/// The text of each refusal for want of memory.
pub const MEMORY_TEXT: &str = "out of memory";

/// Memory ran out. Nothing was changed.
#[derive(Clone, Copy, Debug, PartialEq, Eq)]
pub struct Memory;

impl Memory {
    /// Returns the number of this refusal, the same in every program and document of this broker.
    pub fn number(self) -> u8
        ensures { result ≡ 12 }
    {
        MEMORY_NUMBER
    }
}

impl fmt::Display for Memory {
    fn fmt<W: fmt::Write>(&self, f: &mut fmt::Formatter<W>) -> fmt::Result {
        write!(f, "{MEMORY_TEXT}")
    }
}

impl Error for Memory {}

impl From<AllocError> for Memory {
    fn from(_error: AllocError) -> Memory {
        Memory
    }
}

impl<T: Drop> From<AllocFailed<T>> for Memory {
    fn from(_error: AllocFailed<T>) -> Memory {
        Memory
    }
}

/// Memory ran out in the middle of a command: a part of it may have been applied, and the machine
/// must not be used again. A replica returns this, too, once its node has crashed; the text names
/// memory in that case as well.
#[derive(Clone, Copy, Debug, PartialEq, Eq)]
pub struct Halted;

impl Halted {
    /// Returns the number of this refusal, the same in every program and document of this broker.
    pub fn number(self) -> u8
        ensures { result ≡ 17 }
    {
        17
    }
}

impl fmt::Display for Halted {
    fn fmt<W: fmt::Write>(&self, f: &mut fmt::Formatter<W>) -> fmt::Result {
        write!(f, "halted: {MEMORY_TEXT}")
    }
}

impl Error for Halted {}

impl From<AllocError> for Halted {
    fn from(_error: AllocError) -> Halted {
        Halted
    }
}

impl<T: Drop> From<AllocFailed<T>> for Halted {
    fn from(_error: AllocFailed<T>) -> Halted {
        Halted
    }
}

impl From<Memory> for Halted {
    fn from(_error: Memory) -> Halted {
        Halted
    }
}

/// Why bytes cannot be thawed to a machine.
#[derive(Clone, Copy, Debug, PartialEq, Eq)]
pub enum ThawFault {
    /// The bytes are not of the frozen form.
    Shape,
    /// Memory ran out.
    Memory,
}

impl ThawFault {
    /// Returns the number of this refusal, the same in every program and document of this broker.
    pub fn number(self) -> u8
        ensures { result ≡ thaw_number self }
    {
        match self {
            ThawFault::Shape => 10,
            ThawFault::Memory => MEMORY_NUMBER,
        }
    }
}

impl fmt::Display for ThawFault {
    fn fmt<W: fmt::Write>(&self, f: &mut fmt::Formatter<W>) -> fmt::Result {
        let text = match self {
            ThawFault::Shape => "shape of the frozen machine",
            ThawFault::Memory => MEMORY_TEXT,
        };
        write!(f, "{text}")
    }
}

impl Error for ThawFault {}

impl From<AllocError> for ThawFault {
    ghost use Rattle.machine.specs.declared.error.ThawFault.TheVariants.{Memory};

    ghost from_gives = { λ _ fault. fault ≡ Memory };

    fn from(_error: AllocError) -> ThawFault {
        ThawFault::Memory
    }
}

impl<T: Drop> From<AllocFailed<T>> for ThawFault {
    ghost use Rattle.machine.specs.declared.error.ThawFault.TheVariants.{Memory};

    ghost from_gives = { λ _ fault. fault ≡ Memory };

    fn from(_error: AllocFailed<T>) -> ThawFault {
        ThawFault::Memory
    }
}

impl From<Memory> for ThawFault {
    ghost use Rattle.machine.specs.declared.error.ThawFault.TheVariants.{Memory};

    ghost from_gives = { λ _ fault. fault ≡ Memory };

    fn from(_error: Memory) -> ThawFault {
        ThawFault::Memory
    }
}
