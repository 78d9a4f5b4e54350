// Why a command line or a table of nodes is refused.

ghost use Rattle.std.specs.Prelude.{◌≡◌};
ghost use Rattle.command_line.specs.Refusals.{table_number};

use clap::Error;
use machine::{MEMORY_NUMBER, MEMORY_TEXT};
use std::alloc::{AllocError, AllocFailed};
use std::{error, fmt};

/// Why a command line gives no job.
#[derive(Debug, Drop)]
pub enum LineFault {
    /// The program does not know the words, or they ask for help or the version. The text is for
    /// the user.
    Words(Error),
    /// The words were accepted, but a value that the job needs is missing among their matches.
    Incomplete,
    /// Memory ran out.
    Memory,
}

/// Why a text gives no table of nodes.
#[derive(Clone, Copy, Debug, PartialEq, Eq)]
pub enum TableFault {
    /// The text is no TOML document of a lawful table.
    Shape,
    /// Memory ran out.
    Memory,
}

impl TableFault {
    /// Returns the number of this refusal, the same in every program and document of this broker.
    pub fn number(self) -> u8
        ensures { result ≡ table_number self }
    {
        match self {
            TableFault::Shape => 10,
            TableFault::Memory => MEMORY_NUMBER,
        }
    }
}

impl fmt::Display for TableFault {
    fn fmt<W: fmt::Write>(&self, f: &mut fmt::Formatter<W>) -> fmt::Result {
        let text = match self {
            TableFault::Shape => "table of nodes",
            TableFault::Memory => MEMORY_TEXT,
        };
        write!(f, "{text}")
    }
}

impl error::Error for TableFault {}

impl From<AllocError> for LineFault {
    ghost use Rattle.command_line.specs.declared.fault.LineFault.TheVariants.{Memory};

    ghost from_gives = { λ _ fault. fault ≡ Memory };

    fn from(_error: AllocError) -> LineFault {
        LineFault::Memory
    }
}

impl From<AllocError> for TableFault {
    ghost use Rattle.command_line.specs.declared.fault.TableFault.TheVariants.{Memory};

    ghost from_gives = { λ _ fault. fault ≡ Memory };

    fn from(_error: AllocError) -> TableFault {
        TableFault::Memory
    }
}

impl<T: Drop> From<AllocFailed<T>> for TableFault {
    ghost use Rattle.command_line.specs.declared.fault.TableFault.TheVariants.{Memory};

    ghost from_gives = { λ _ fault. fault ≡ Memory };

    fn from(_error: AllocFailed<T>) -> TableFault {
        TableFault::Memory
    }
}
