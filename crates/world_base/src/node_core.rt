//! A replica of the broker with its connections: the state of a node between two items. Its input
//! is clients' bytes, messages of other nodes and times; its output is bytes and messages.

mod item;
mod item_steps;
mod node_core;
mod port_output;
mod replica_calls;
mod stepping_node;
mod theorems;

pub use item::Item;
pub use node_core::NodeCore;
pub use theorems::{a_gap_is_closed, proposals_are_steps, stranger_nodes_open_alike};
