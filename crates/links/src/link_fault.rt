// Why a link's reader takes no more.

ghost use Rattle.std.specs.Prelude.{◌≡◌};
ghost use Rattle.links.specs.Faults.{frame_fault, join_fault, kind_fault};

use crate::frames::{JoinError, PartFault};
use crate::parcel::WayFault;
use crate::seal::FrameError;
use machine::MEMORY_TEXT;
use std::error::Error;
use std::fmt;
use topics::MalformedKind;

/// Why a link's reader takes no more. Each is final.
#[derive(Clone, Copy, Debug, PartialEq, Eq)]
pub enum LinkFault {
    /// A frame is longer than 64 KiB.
    TooLong,
    /// A frame does not bear its tag.
    Tag,
    /// 2^64 - 1 frames were opened.
    Spent,
    /// The bytes in the frames are no parts.
    Part(PartFault),
    /// The parts are those of no parcel, which has this first fault.
    Malformed(MalformedKind),
    /// The parcel may not come this way.
    Way(WayFault),
    /// Memory ran out, and with it a frame or a parcel was lost.
    Memory,
    /// An earlier call reported a fault.
    Failed,
}

impl LinkFault {
    /// Returns the fault for an error of a reader of frames that has not failed before.
    pub(crate) fn of_frame(error: FrameError) -> LinkFault
        ensures { result ≡ frame_fault error }
    {
        match error {
            FrameError::TooLong => LinkFault::TooLong,
            FrameError::Tag => LinkFault::Tag,
            FrameError::Memory => LinkFault::Memory,
            FrameError::Failed => LinkFault::Spent,
        }
    }

    /// Returns the fault for an error of a joiner.
    pub(crate) fn of_join(error: JoinError) -> LinkFault
        ensures { result ≡ join_fault error }
    {
        match error {
            JoinError::Part(fault) => LinkFault::Part(fault),
            JoinError::Memory => LinkFault::Memory,
            JoinError::Failed => LinkFault::Failed,
        }
    }

    /// Returns the fault for the kind of a parcel's first fault.
    pub(crate) fn of_kind(kind: MalformedKind) -> LinkFault
        ensures { result ≡ kind_fault kind }
    {
        match kind {
            MalformedKind::Memory => LinkFault::Memory,
            kind => LinkFault::Malformed(kind),
        }
    }
}

impl fmt::Display for LinkFault {
    fn fmt<W: fmt::Write>(&self, f: &mut fmt::Formatter<W>) -> fmt::Result {
        match self {
            LinkFault::TooLong => write!(f, "a frame is too long"),
            LinkFault::Tag => write!(f, "a frame does not bear its tag"),
            LinkFault::Spent => write!(f, "the link has no number left for a frame"),
            LinkFault::Part(fault) => write!(f, "{fault}"),
            LinkFault::Malformed(kind) => write!(f, "malformed: {kind}"),
            LinkFault::Way(WayFault::Sender) => write!(f, "a message of another sender"),
            LinkFault::Way(WayFault::Notice) => write!(f, "a notice that goes another way"),
            LinkFault::Memory => write!(f, "{MEMORY_TEXT}"),
            LinkFault::Failed => write!(f, "the link has failed before"),
        }
    }
}

impl Error for LinkFault {}
