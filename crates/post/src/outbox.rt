//! What waits for one node: messages of other nodes, answers of the master, and orders. Also the
//! master, whose answers are messages, and the waker of the thread that takes what waits.

mod messaging_master;
mod order_error;
mod outbox;
mod replacement;
mod theorems;
mod urgency;
mod waker;

pub use messaging_master::{Answer, MessagingMaster};
pub use order_error::OrderError;
pub use outbox::Outbox;
pub use theorems::{later_commits_suffice, later_counts_suffice};
pub use urgency::is_urgent;
pub(crate) use urgency::is_urgent_message;
pub use waker::Waker;
