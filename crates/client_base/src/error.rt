// The errors of a client.

ghost use Rattle.std.specs.Prelude.{◌≡◌};
ghost use Rattle.client_base.specs.Refusals.{client_number};

use machine::{MEMORY_NUMBER, MEMORY_TEXT};
use std::alloc::{AllocError, AllocFailed};
use std::error::Error;
use std::fmt;
use topics::MalformedKind;

/// Why a call of a client is refused, or ends its connection.
#[derive(Clone, Copy, Debug, PartialEq, Eq)]
pub enum ClientError {
    /// The client is not connected, or the server refused its connection.
    NotActive,
    /// Sixty-four publications are kept, or all Packet Identifiers are in use.
    WindowFull,
    /// The packet would be over the size limit.
    TooLarge,
    /// The server lost the client's session: what was kept is dropped, and the connection stays
    /// open.
    SessionLost,
    /// The server sent a packet that is not allowed there.
    Protocol,
    /// The server's bytes are no packet. The kind is never `Memory`.
    Malformed(MalformedKind),
    /// Memory ran out.
    Memory,
}

impl ClientError {
    /// Returns the number of this refusal, the same in every program and document of this broker.
    pub fn number(self) -> u8
        ensures { result ≡ client_number self }
    {
        match self {
            ClientError::NotActive => 18,
            ClientError::WindowFull => 22,
            ClientError::TooLarge => 4,
            ClientError::SessionLost => 23,
            ClientError::Protocol => 11,
            ClientError::Malformed(kind) => kind.number(),
            ClientError::Memory => MEMORY_NUMBER,
        }
    }
}

impl fmt::Display for ClientError {
    fn fmt<W: fmt::Write>(&self, f: &mut fmt::Formatter<W>) -> fmt::Result {
        match self {
            ClientError::NotActive => write!(f, "not connected"),
            ClientError::WindowFull => write!(f, "too many publications under way"),
            ClientError::TooLarge => write!(f, "packet too large"),
            ClientError::SessionLost => write!(f, "session lost"),
            ClientError::Protocol => write!(f, "packet out of its place"),
            ClientError::Malformed(kind) => write!(f, "malformed packet: {kind}"),
            ClientError::Memory => write!(f, "{MEMORY_TEXT}"),
        }
    }
}

impl Error for ClientError {}

impl From<AllocError> for ClientError {
    ghost use Rattle.client_base.specs.declared.error.ClientError.TheVariants.{Memory};

    ghost from_gives = { λ _ error. error ≡ Memory };

    fn from(_error: AllocError) -> ClientError {
        ClientError::Memory
    }
}

impl<T: Drop> From<AllocFailed<T>> for ClientError {
    ghost use Rattle.client_base.specs.declared.error.ClientError.TheVariants.{Memory};

    ghost from_gives = { λ _ error. error ≡ Memory };

    fn from(_error: AllocFailed<T>) -> ClientError {
        ClientError::Memory
    }
}
