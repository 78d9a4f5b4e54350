// Why the program fails.

ghost use Rattle.std.specs.Prelude.{◌≡◌};
ghost use Rattle.cluster.specs.master.Errors.{exit_status};

use crate::desk::OpenError;
use crate::master::key_file::{KEY_BYTES, KeyFault};
use crate::table::TableFault;
use machine::Memory;
use std::alloc::{AllocError, AllocFailed};
use std::io::ErrorKind;
use thiserror::Error;

/// Why the program ends with a status other than 0. Its text is for the user.
#[derive(Debug, Drop, Error)]
pub enum MasterError {
    /// Memory ran out.
    #[error("{cause}", cause = Memory)]
    Memory,
    /// Standard input could not be read.
    #[error("standard input could not be read")]
    Input,
    /// The clock could not be read.
    #[error("the clock could not be read")]
    Clock,
    /// The system gave no random bytes.
    #[error("the system gave no random bytes")]
    Random,
    /// Fewer threads could be started than the master needs.
    #[error("too few threads could be started")]
    Threads,
    /// A file could not be read or written.
    #[error("cannot use {0}: {1}")]
    File(String, ErrorKind),
    /// An address cannot be listened on.
    #[error("cannot listen on {0}: {1}")]
    Address(String, ErrorKind),
    /// The words of the command line are not UTF-8, or a value is missing.
    #[error("the words of the command line could not be read; try vcluster --help")]
    Words,
    /// The file is no table of a cluster.
    #[error("config")]
    Table(TableFault),
    /// Others than its owner may read or write the file of the key.
    #[error("key {0} may be read or written by others (chmod 600)")]
    OpenKey(String),
    /// The file has no key.
    #[error("key {0} has not {bytes} to 4096 bytes", bytes = KEY_BYTES)]
    Key(String),
    /// The file has no state of a master.
    #[error("state {0}: {1}")]
    State(String, OpenError),
}

impl MasterError {
    /// Returns the exit status: 1 for a fault of file, network, memory, clock, random bytes or
    /// threads; 2 for a refused command line; 3 for a refused table, key or state.
    pub fn status(&self) -> u8
        ensures { result ≡ exit_status self.now }
    {
        match self {
            MasterError::Memory
            | MasterError::Input
            | MasterError::Clock
            | MasterError::Random
            | MasterError::Threads
            | MasterError::File(_, _)
            | MasterError::Address(_, _) => 1,
            MasterError::Words => 2,
            MasterError::Table(_)
            | MasterError::OpenKey(_)
            | MasterError::Key(_)
            | MasterError::State(_, _) => 3,
        }
    }

    /// Returns the error of a file with a key.
    pub(crate) fn of_key(path: String, fault: KeyFault) -> MasterError {
        match fault {
            KeyFault::File(kind) => MasterError::File(path, kind),
            KeyFault::Open => MasterError::OpenKey(path),
            KeyFault::Length => MasterError::Key(path),
        }
    }
}

impl From<AllocError> for MasterError {
    fn from(_error: AllocError) -> MasterError {
        MasterError::Memory
    }
}

impl<T: Drop> From<AllocFailed<T>> for MasterError {
    fn from(_error: AllocFailed<T>) -> MasterError {
        MasterError::Memory
    }
}

impl From<Memory> for MasterError {
    fn from(_error: Memory) -> MasterError {
        MasterError::Memory
    }
}
