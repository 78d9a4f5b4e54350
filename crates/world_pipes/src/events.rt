//! The events of a world of nodes and clients, and those of its recovery.

mod escape_error;
mod event;
mod schedule;

pub use escape_error::EscapeError;
pub use event::Event;
pub use schedule::{push_answers, push_client, push_group};
