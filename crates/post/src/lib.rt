//! Messages between nodes and their master. Each node of a program has an outbox in which messages
//! and orders for it wait, and a waker for the thread that takes them. A node whose others are in
//! other programs has a route to each of them, on which messages wait for a link.
#![tactic(auto)]

mod addressed_message;
mod cluster;
mod given_effects;
mod linked;
mod neighbours;
mod opening_status;
pub mod outbox;
mod peer;
mod recipients;
mod rows;

pub use crate::outbox::OrderError;
pub use addressed_message::AddressedMessage;
pub use cluster::Cluster;
pub use given_effects::{GivenEffects, Receivers, queue_all};
pub use linked::{LinkedNode, Route};
pub use master::Idle;
pub use neighbours::Neighbours;
pub use opening_status::nodes_show_how_they_open;
pub use peer::{AdmittedBytes, Peer};
pub use rows::numbers_of_an_outbox;
