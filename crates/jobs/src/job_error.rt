// Why the program fails.

ghost use Rattle.std.specs.Prelude.{◌≡◌};
ghost use Rattle.jobs.specs.Errors.{exit_status};

use crate::loss_cause::LossCause;
use command_line::TableFault;
use machine::Memory;
use play::PlayError;
use server::ServeError;
use server::node_threads::THREADS;
use std::alloc::{AllocError, AllocFailed};
use std::io::ErrorKind;
use thiserror::Error;
use user_client::{Denial, UserClientError};

/// Why the program ends with a status other than 0. Its text is for the user.
#[derive(Debug, Drop, Error)]
pub enum JobError {
    /// Memory ran out.
    #[error("{cause}", cause = Memory)]
    Memory,
    /// Standard input could not be read.
    #[error("standard input could not be read")]
    Input,
    /// Standard output could not be written.
    #[error("standard output could not be written")]
    Output,
    /// The clock could not be read.
    #[error("{cause}", cause = ServeError::Clock)]
    Clock,
    /// Fewer threads could be started than the nodes need.
    #[error("{cause}: a node needs {count}", cause = ServeError::Threads, count = THREADS)]
    Threads,
    /// Fewer files can be open at once than the nodes need.
    #[error("too few files can be open at once: {0} more are needed (ulimit -n)")]
    Files(usize),
    /// A file could not be read.
    #[error("cannot read {0}: {1}")]
    File(String, ErrorKind),
    /// An address cannot be listened on.
    #[error("cannot listen on {0}: {1}")]
    Address(String, ErrorKind),
    /// A word of the command line is not UTF-8, or a value is missing.
    #[error("the words of the command line could not be read; try vbroker --help")]
    Words,
    /// The word of `--log` is no level.
    #[error("--log has to be off, error, warn, info or debug")]
    LogWord,
    /// The file is no table of nodes.
    #[error("config")]
    Table,
    /// A text is no script: its first malformed line, counted from 1.
    #[error("{cause}", cause = PlayError::Line(*.0))]
    Script(u64),
    /// A script was played to its end and its transcript was written, but its world ran out of
    /// memory.
    #[error("{cause}: the transcript shows a world that lost something", cause = Memory)]
    Losses,
    /// The world in which a script ends has no recovery for the members and the client that were
    /// named.
    #[error("idle")]
    Idle,
    /// A client's identifier, topic, filter or message was refused.
    #[error("refused {0}")]
    Refused(u8),
    /// The server already had a session of the client's identifier.
    #[error("session present")]
    SessionPresent,
    /// All connections of a client were lost, or its session was, or a server refused it.
    #[error("lost")]
    Lost(LossCause),
    /// A server refused the subscription of a client.
    #[error("not subscribed")]
    NotSubscribed,
}

impl JobError {
    /// Returns the exit status: 1 for an error of file, network, memory, clock or threads, and for
    /// `session present`, `lost` and `not subscribed`; 2 for a refused command line; 3 for a refused table, script or
    /// argument, and if there is no recovery.
    pub fn status(&self) -> u8
        ensures { result ≡ exit_status self.now }
    {
        match self {
            JobError::Memory
            | JobError::Input
            | JobError::Output
            | JobError::Clock
            | JobError::Threads
            | JobError::Files(_)
            | JobError::File(_, _)
            | JobError::Address(_, _)
            | JobError::Losses
            | JobError::SessionPresent
            | JobError::Lost(_)
            | JobError::NotSubscribed => 1,
            JobError::Words | JobError::LogWord => 2,
            JobError::Table | JobError::Script(_) | JobError::Idle | JobError::Refused(_) => 3,
        }
    }
}

impl From<AllocError> for JobError {
    ghost use Rattle.jobs.specs.declared.job_error.JobError.TheVariants.{Memory};

    ghost from_gives = { λ _ error. error ≡ Memory };

    fn from(_error: AllocError) -> JobError {
        JobError::Memory
    }
}

impl<T: Drop> From<AllocFailed<T>> for JobError {
    ghost use Rattle.jobs.specs.declared.job_error.JobError.TheVariants.{Memory};

    ghost from_gives = { λ _ error. error ≡ Memory };

    fn from(_error: AllocFailed<T>) -> JobError {
        JobError::Memory
    }
}

impl From<Memory> for JobError {
    ghost use Rattle.jobs.specs.declared.job_error.JobError.TheVariants as errors;

    ghost from_gives = { λ _ error. error ≡ errors.Memory };

    fn from(_error: Memory) -> JobError {
        JobError::Memory
    }
}

impl From<ServeError> for JobError {
    ghost use Rattle.jobs.specs.Errors.{error_of_serving};

    ghost from_gives = { λ cause error. error ≡ error_of_serving cause };

    fn from(error: ServeError) -> JobError {
        match error {
            ServeError::BadMembers => JobError::Table,
            ServeError::Memory => JobError::Memory,
            ServeError::Clock => JobError::Clock,
            ServeError::Threads => JobError::Threads,
        }
    }
}

impl From<TableFault> for JobError {
    ghost use Rattle.jobs.specs.Errors.{error_of_table};

    ghost from_gives = { λ fault error. error ≡ error_of_table fault };

    fn from(fault: TableFault) -> JobError {
        match fault {
            TableFault::Shape => JobError::Table,
            TableFault::Memory => JobError::Memory,
        }
    }
}

impl From<UserClientError> for JobError {
    ghost use Rattle.jobs.specs.Errors.{error_of_client};

    ghost from_gives = { λ cause error. error ≡ error_of_client cause };

    fn from(error: UserClientError) -> JobError {
        match error {
            UserClientError::Refused(number) => JobError::Refused(number),
            UserClientError::SessionPresent => JobError::SessionPresent,
            UserClientError::Lost => JobError::Lost(LossCause::Closed),
            UserClientError::SessionLost => JobError::Lost(LossCause::SessionLost),
            UserClientError::Denied(Denial::Connack(code)) => {
                JobError::Lost(LossCause::Connack(code))
            }
            UserClientError::Denied(Denial::Suback) => JobError::NotSubscribed,
            UserClientError::Memory => JobError::Memory,
            UserClientError::Output => JobError::Output,
        }
    }
}

impl From<PlayError> for JobError {
    ghost use Rattle.jobs.specs.Errors.{error_of_play};

    ghost from_gives = { λ cause error. error ≡ error_of_play cause };

    fn from(error: PlayError) -> JobError {
        match error {
            PlayError::Line(number) => JobError::Script(number),
            PlayError::Memory => JobError::Memory,
            PlayError::Losses => JobError::Losses,
            PlayError::Idle => JobError::Idle,
        }
    }
}
