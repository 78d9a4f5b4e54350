//! One client's session: its subscriptions, the received QoS 2 identifiers, and its queue of
//! publications with their handshakes (MQTT 4.1, 4.3, 4.4, 4.6).
#![tactic(auto)]

mod arrival;
mod entry_packets;
mod error;
mod form_readers;
mod form_writers;
mod received;
mod session;
mod session_queue;
mod subscriptions;

pub use arrival::Arrival;
pub use error::EnqueueError;
pub use machine::Memory;
pub use session::{Session, WINDOW};
pub use session_base::{MAX_ENTRIES, MAX_SUBSCRIPTIONS, Publication};
