//! What waits for a link between nodes: the messages in the order in which they were queued, with
//! bounds, and at most one log of a kind and ballot.

mod cover;
mod logs;
mod queue;
mod theorems;

pub use cover::covers;
pub use logs::{LogName, log_name};
pub use queue::{Fate, LinkQueue, MAX_BYTES, MAX_WAITING, Waiting};
pub use theorems::{each_log_is_there_once, nothing_else_is_lost, what_comes_out_is_in_order};
