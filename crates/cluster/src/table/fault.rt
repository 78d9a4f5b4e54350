// Why a command line, or the table of a cluster, is refused.

use crate::table::table_text::MAX_ROWS;
use clap::Error;
use machine::MEMORY_TEXT;
use std::alloc::{AllocError, AllocFailed};
use std::{error, fmt};

/// Why a command line gives no job.
#[derive(Debug, Drop)]
pub enum LineFault {
    /// The program does not know the words, or they ask for help or the version. The text is for
    /// the user.
    Words(Error),
    /// The words were accepted, but a value that the job needs is missing among their matches.
    Incomplete,
    /// Memory ran out.
    Memory,
}

/// Why a text is no table of a cluster: its first fault. Rows are counted from 1; row 0 is the
/// document itself.
#[derive(Debug, Drop)]
pub enum TableFault {
    /// The text is no TOML.
    Toml(toml::de::Error),
    /// The row has this key, which it may not have.
    Unknown(usize, String),
    /// The row has no such key.
    Missing(usize, &'static str),
    /// The value of this key is of another kind.
    Kind(usize, &'static str),
    /// There is no row, or there are more than fifteen.
    Count,
    /// A later row has the address that the row has at this key.
    Twice(usize, &'static str),
    /// Memory ran out.
    Memory,
}

impl TableFault {
    /// Returns the row and the key that are wrong, if it is a single key that the text has.
    pub fn key(&self) -> Option<(usize, &str)> {
        match self {
            TableFault::Unknown(row, key) => Some((*row, key.as_str())),
            TableFault::Kind(row, key) | TableFault::Twice(row, key) => Some((*row, key)),
            _ => None,
        }
    }
}

impl fmt::Display for TableFault {
    fn fmt<W: fmt::Write>(&self, f: &mut fmt::Formatter<W>) -> fmt::Result {
        match self {
            TableFault::Toml(error) => write!(f, "{}", error.message()),
            TableFault::Unknown(_, key) => write!(f, "unknown key {key:?}"),
            TableFault::Missing(0, key) => write!(f, "no key {key}"),
            TableFault::Missing(row, key) => write!(f, "row {row} of [[node]] has no key {key}"),
            TableFault::Kind(0, "node") => write!(f, "node has to be written as [[node]]"),
            TableFault::Kind(_, key) => write!(f, "{key} has to be a text in quotes"),
            TableFault::Count => write!(f, "there have to be 1 to {MAX_ROWS} rows [[node]]"),
            TableFault::Twice(_, key) => write!(f, "two rows have the same {key}"),
            TableFault::Memory => write!(f, "{MEMORY_TEXT}"),
        }
    }
}

impl error::Error for TableFault {}

impl From<AllocError> for LineFault {
    ghost use Rattle.std.specs.Prelude.{◌≡◌};
    ghost use Rattle.cluster.specs.declared.table.fault.LineFault.TheVariants.{Memory};

    ghost from_gives = { λ _ fault. fault ≡ Memory };

    fn from(_error: AllocError) -> LineFault {
        LineFault::Memory
    }
}

impl From<AllocError> for TableFault {
    ghost use Rattle.std.specs.Prelude.{◌≡◌};
    ghost use Rattle.cluster.specs.declared.table.fault.TableFault.TheVariants.{Memory};

    ghost from_gives = { λ _ fault. fault ≡ Memory };

    fn from(_error: AllocError) -> TableFault {
        TableFault::Memory
    }
}

impl<T: Drop> From<AllocFailed<T>> for TableFault {
    ghost use Rattle.std.specs.Prelude.{◌≡◌};
    ghost use Rattle.cluster.specs.declared.table.fault.TableFault.TheVariants.{Memory};

    ghost from_gives = { λ _ fault. fault ≡ Memory };

    fn from(_error: AllocFailed<T>) -> TableFault {
        TableFault::Memory
    }
}
