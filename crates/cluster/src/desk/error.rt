// Why a desk does not answer, or does not open.

use machine::{MEMORY_TEXT, Memory};
use std::error::Error;
use std::fmt;

/// Why a state was not kept, as far as is known: what stands is the earlier one or this one.
#[derive(Clone, Copy, Debug, PartialEq, Eq)]
pub struct NotKept;

/// Why a call of a [`crate::desk::Desk`] is refused. Nothing was promised then.
#[derive(Clone, Copy, Debug, PartialEq, Eq)]
pub enum DeskError {
    /// Number 254 was given.
    NumbersSpent,
    /// The members are not 1 to 7, not strictly rising, or outside 1 to 254, or the primary is none
    /// of them.
    BadMembers,
    /// A member is a number that was never given.
    NeverGiven,
    /// Ballot 2^32 was given.
    BallotsSpent,
    /// The new state was not kept.
    NotKept,
}

impl fmt::Display for DeskError {
    fn fmt<W: fmt::Write>(&self, f: &mut fmt::Formatter<W>) -> fmt::Result {
        f.write_str(match self {
            DeskError::NumbersSpent => "no number is left for a node",
            DeskError::BadMembers => "no ballot may have these members",
            DeskError::NeverGiven => "no node has this number",
            DeskError::BallotsSpent => "no ballot is left",
            DeskError::NotKept => "the master's state was not kept",
        })
    }
}

impl Error for DeskError {}

/// Why bytes are no state of a desk.
#[derive(Clone, Copy, Debug, PartialEq, Eq)]
pub enum FormFault {
    /// They are of this other version.
    Version(u8),
    /// They are none, or not as many as a state has.
    Length,
    /// Their check sum is another.
    Sum,
    /// No state has these bytes.
    Shape,
}

impl fmt::Display for FormFault {
    fn fmt<W: fmt::Write>(&self, f: &mut fmt::Formatter<W>) -> fmt::Result {
        match self {
            FormFault::Version(version) => write!(f, "the state is of version {version}"),
            FormFault::Length => write!(f, "the state is not whole"),
            FormFault::Sum => write!(f, "the state was altered"),
            FormFault::Shape => write!(f, "the state is none of a master"),
        }
    }
}

impl Error for FormFault {}

/// Why a desk does not open.
#[derive(Clone, Copy, Debug, PartialEq, Eq)]
pub enum OpenError {
    /// The bytes are no state.
    Form(FormFault),
    /// The state was not kept.
    NotKept,
    /// Memory ran out.
    Memory,
}

impl fmt::Display for OpenError {
    fn fmt<W: fmt::Write>(&self, f: &mut fmt::Formatter<W>) -> fmt::Result {
        match self {
            OpenError::Form(fault) => write!(f, "{fault}"),
            OpenError::NotKept => write!(f, "the master's state was not kept"),
            OpenError::Memory => write!(f, "{MEMORY_TEXT}"),
        }
    }
}

impl Error for OpenError {}

impl From<Memory> for OpenError {
    ghost use Rattle.std.specs.Prelude.{◌≡◌};
    ghost use Rattle.cluster.specs.declared.desk.error.OpenError.TheVariants.{Memory};

    ghost from_gives = { λ _ error. error ≡ Memory };

    fn from(_error: Memory) -> OpenError {
        OpenError::Memory
    }
}
