// Why an order was not done.

ghost use Rattle.std.specs.Prelude.{◌≡◌};
ghost use Rattle.post.specs.outbox.Refusals.{order_number};

use machine::Memory;
use master::AssignError;
use std::error::Error;
use std::fmt;

/// Why an order was not done.
#[derive(Clone, Copy, Debug, PartialEq, Eq)]
pub enum OrderError {
    /// The master refuses the configuration.
    Refused(AssignError),
    /// Memory ran out. Nothing was changed.
    Memory,
}

impl OrderError {
    /// Returns the number of this refusal, the same in every program and document of this broker.
    pub fn number(self) -> u8
        ensures { result ≡ order_number self }
    {
        match self {
            OrderError::Refused(error) => error.number(),
            OrderError::Memory => Memory.number(),
        }
    }
}

impl fmt::Display for OrderError {
    fn fmt<W: fmt::Write>(&self, f: &mut fmt::Formatter<W>) -> fmt::Result {
        match self {
            OrderError::Refused(error) => error.fmt(f),
            OrderError::Memory => Memory.fmt(f),
        }
    }
}

impl Error for OrderError {}

impl From<Memory> for OrderError {
    ghost use Rattle.post.specs.declared.outbox.order_error.OrderError.TheVariants.{Memory};

    ghost from_gives = { λ _ error. error ≡ Memory };

    fn from(_error: Memory) -> OrderError {
        OrderError::Memory
    }
}
