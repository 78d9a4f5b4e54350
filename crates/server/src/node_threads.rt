//! The threads of one node that serves clients over TCP. Each has a lane to the node's inbox for
//! good. It accepts a client, reads its bytes, sends them by the lane, and then takes what waits in
//! the inbox itself. So no bytes are handed from thread to thread before they are answered. What a
//! node has for another is taken there by the same thread, if no other does so. Otherwise that
//! node's own thread takes it, which also takes what the master has for it.

mod admission;
mod help_turns;
mod lane_reporter;
mod lane_slots;
mod lane_threads;
mod node_context;
mod opened_node;
mod own_lane;
mod own_thread;
mod served_lane;
mod served_node;
mod shared;
mod theorems;
mod turns;

pub use lane_slots::THREADS;
pub use node_context::NodeContexts;
pub use opened_node::OpenedNode;
pub use served_node::{EndedNode, NodeReport, ServedNode, start_all};
pub use theorems::ports_differ;
