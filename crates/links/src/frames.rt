//! Cuts the messages that nodes send each other into parts of at most 64 KiB, and joins parts to
//! messages, in whatever chunks their bytes come.

mod error;
mod head;
mod joiner;
mod parts;
mod theorems;

pub use error::{JoinError, PartFault};
pub use head::MAX_PART;
pub use joiner::Joiner;
pub use parts::write_parts;
pub use theorems::{
    every_stream_begins, joinings_agree, no_message_begins_another, one_front,
    parts_are_one_message, what_was_cut_is_joined,
};
