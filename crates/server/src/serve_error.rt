// Why nodes are not served.

ghost use Rattle.std.specs.Prelude.{◌≡◌};

use ballot_base::errors::OpeningError;
use machine::Memory;
use std::error::Error;
use std::fmt;

/// Why nodes are not served.
#[derive(Clone, Copy, Debug, PartialEq, Eq)]
pub enum ServeError {
    /// No ballot may have the configuration: no member, more than 7, not strictly rising, one
    /// outside 1 to 15, or a primary that is no member. Or a node has a number outside 1 to 15, or
    /// that of another.
    BadMembers,
    /// Memory ran out.
    Memory,
    /// The clock cannot be read.
    Clock,
    /// Fewer threads can be started than the nodes need.
    Threads,
}

impl fmt::Display for ServeError {
    fn fmt<W: fmt::Write>(&self, f: &mut fmt::Formatter<W>) -> fmt::Result {
        match self {
            ServeError::BadMembers => OpeningError::BadMembers.fmt(f),
            ServeError::Memory => Memory.fmt(f),
            ServeError::Clock => f.write_str("the clock could not be read"),
            ServeError::Threads => f.write_str("too few threads could be started"),
        }
    }
}

impl Error for ServeError {}

impl From<Memory> for ServeError {
    ghost use Rattle.server.specs.declared.serve_error.ServeError.TheVariants.{Memory};

    ghost from_gives = { λ _ error. error ≡ Memory };

    fn from(_error: Memory) -> ServeError {
        ServeError::Memory
    }
}

impl From<OpeningError> for ServeError {
    ghost use Rattle.server.specs.Refusals.{serve_error_of};

    ghost from_gives = { λ opening error. error ≡ serve_error_of opening };

    fn from(error: OpeningError) -> ServeError {
        match error {
            OpeningError::BadMembers => ServeError::BadMembers,
            OpeningError::Memory => ServeError::Memory,
        }
    }
}
