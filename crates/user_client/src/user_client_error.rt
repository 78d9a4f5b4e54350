// Why a client failed.

ghost use Rattle.std.specs.Prelude.{◌≡◌};

use crate::denial::Denial;
use client_base::ClientError;
use std::alloc::{AllocError, AllocFailed};
use topics::MalformedKind;

/// Why a client failed.
#[derive(Clone, Copy, Debug, PartialEq, Eq)]
pub enum UserClientError {
    /// The identifier, the topic, the filter or the message is refused, with this number. No
    /// connection was opened.
    Refused(u8),
    /// The server already had a session of this identifier.
    SessionPresent,
    /// All connections were lost.
    Lost,
    /// The server lost or ended the session between two connections.
    SessionLost,
    /// A server denied the client what it asked for, and would on another connection.
    Denied(Denial),
    /// Memory ran out.
    Memory,
    /// A line could not be written.
    Output,
}

impl From<MalformedKind> for UserClientError {
    ghost use Rattle.user_client.specs.Refusals.{error_of_text};

    ghost from_gives = { λ kind error. error ≡ error_of_text kind };

    fn from(kind: MalformedKind) -> UserClientError {
        match kind {
            MalformedKind::Memory => UserClientError::Memory,
            other => UserClientError::Refused(other.number()),
        }
    }
}

impl From<ClientError> for UserClientError {
    ghost use Rattle.user_client.specs.Refusals.{error_of_call};

    ghost from_gives = { λ cause error. error ≡ error_of_call cause };

    fn from(error: ClientError) -> UserClientError {
        match error {
            ClientError::Memory => UserClientError::Memory,
            other => UserClientError::Refused(other.number()),
        }
    }
}

impl From<AllocError> for UserClientError {
    ghost use Rattle.user_client.specs.declared.user_client_error.UserClientError.TheVariants.{Memory};

    ghost from_gives = { λ _ error. error ≡ Memory };

    fn from(_error: AllocError) -> UserClientError {
        UserClientError::Memory
    }
}

impl<T: Drop> From<AllocFailed<T>> for UserClientError {
    ghost use Rattle.user_client.specs.declared.user_client_error.UserClientError.TheVariants.{Memory};

    ghost from_gives = { λ _ error. error ≡ Memory };

    fn from(_error: AllocFailed<T>) -> UserClientError {
        UserClientError::Memory
    }
}
