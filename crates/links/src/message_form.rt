//! The bytes of messages between nodes: each message has one spelling, and no message begins
//! another.

mod command_readers;
mod command_writers;
mod log_readers;
mod log_writers;
mod message_readers;
mod message_writers;
mod numbers;
mod rows;
mod theorems;
mod write_fault;

pub use message_readers::read_message;
pub use message_writers::write_message;
pub use rows::{each_kind_is_read, each_kind_is_written, first_fault_counts, members_are_counted};
pub use theorems::{none_begins_another, others_are_short, read_is_written, written_is_read};
pub use write_fault::WriteFault;
