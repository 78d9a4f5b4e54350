// Why a master refuses to assign a ballot.

ghost use Rattle.std.specs.Prelude.{◌≡◌};
ghost use Rattle.master.specs.Refusals.{assign_number};

use std::error::Error;
use std::fmt;

/// Why a ballot was not assigned.
#[derive(Clone, Copy, Debug, PartialEq, Eq)]
pub enum AssignError {
    /// No member, more than 7, not strictly rising, one below 1 or above the greatest number (15
    /// unless the master has another), or a primary that is no member.
    BadMembers,
    /// Ballot 2^32, the last one, was already assigned.
    BallotsSpent,
}

impl AssignError {
    /// Returns the number of this refusal, the same in every program and document of this broker.
    pub fn number(self) -> u8
        ensures { result ≡ assign_number self }
    {
        match self {
            AssignError::BadMembers => 20,
            AssignError::BallotsSpent => 21,
        }
    }
}

impl fmt::Display for AssignError {
    fn fmt<W: fmt::Write>(&self, f: &mut fmt::Formatter<W>) -> fmt::Result {
        let text = match self {
            AssignError::BadMembers => "members or primary of the ballot",
            AssignError::BallotsSpent => "no ballot left",
        };
        write!(f, "{text}")
    }
}

impl Error for AssignError {}
