// Why a link ends.

use links::LinkFault;
use machine::{MEMORY_TEXT, Memory};
use std::fmt;

/// Why a link ends.
#[derive(Clone, Copy, Debug, PartialEq, Eq)]
pub(crate) enum Cause {
    /// The connection ended, was silent or was replaced, or all links end. This is nothing to tell.
    Over,
    /// Memory ran out for what was to go out or came in.
    Memory,
    /// A message for the other end has more than 1 GiB.
    TooLarge,
    /// There is no number left, for a frame or for the link.
    Spent,
    /// What the other end wrote has this fault.
    Fault(LinkFault),
}

impl fmt::Display for Cause {
    fn fmt<W: fmt::Write>(&self, f: &mut fmt::Formatter<W>) -> fmt::Result {
        match self {
            Cause::Over => write!(f, "the connection has ended"),
            Cause::Memory => write!(f, "{MEMORY_TEXT}"),
            Cause::TooLarge => write!(f, "a message for it has more than 1 GiB"),
            Cause::Spent => write!(f, "no number is left for a frame or a link"),
            Cause::Fault(fault) => write!(f, "{fault}"),
        }
    }
}

impl From<Memory> for Cause {
    fn from(_error: Memory) -> Cause {
        Cause::Memory
    }
}
