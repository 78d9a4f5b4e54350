// Why a message is not written.

ghost use Rattle.std.specs.Prelude.{◌≡◌};
ghost use Rattle.links.specs.message_form.Refusals.{write_number};

use machine::{MEMORY_NUMBER, MEMORY_TEXT};
use std::alloc::AllocError;
use std::error::Error;
use std::fmt;

/// Why a message is not written.
#[derive(Clone, Copy, Debug, PartialEq, Eq)]
pub enum WriteFault {
    /// A list of more than 255 members, which one byte does not count.
    TooLarge,
    /// Memory ran out.
    Memory,
}

impl WriteFault {
    /// Returns the number of this refusal, the same in every program and document of this broker.
    pub fn number(self) -> u8
        ensures { result ≡ write_number self }
    {
        match self {
            WriteFault::TooLarge => 4,
            WriteFault::Memory => MEMORY_NUMBER,
        }
    }
}

impl fmt::Display for WriteFault {
    fn fmt<W: fmt::Write>(&self, f: &mut fmt::Formatter<W>) -> fmt::Result {
        f.write_str(match self {
            WriteFault::TooLarge => "message too large",
            WriteFault::Memory => MEMORY_TEXT,
        })
    }
}

impl Error for WriteFault {}

impl From<AllocError> for WriteFault {
    ghost use Rattle.links.specs.declared.message_form.write_fault.WriteFault.TheVariants.{Memory};

    ghost from_gives = { λ _ fault. fault ≡ Memory };

    fn from(_error: AllocError) -> WriteFault {
        WriteFault::Memory
    }
}
