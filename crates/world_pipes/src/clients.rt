//! The clients of a world, and the pipes between a client and a node.

mod client_calls;
mod connection_slot;
mod node_output;
mod opening;
mod transport;
mod world_client;

pub use client_calls::{leave, lose_connection, publish_copy, subscribe_copy, unsubscribe_copy};
pub use connection_slot::ConnectionSlot;
pub use node_output::hand_down;
pub use opening::open_pipe;
pub use transport::{carry_down_on, carry_to_node};
pub use world_client::{WorldClient, new_clients};
