//! Writing to a node's connections what it queued for them. Threads do so after their turns. What a
//! full socket does not take is left to the blocked writer, a thread of its own.

mod blocked_links;
mod blocked_writer;
mod stream_writes;
mod writer;

pub use blocked_links::BlockedLinks;
pub use writer::{FIRST_INDEX, Writer};
