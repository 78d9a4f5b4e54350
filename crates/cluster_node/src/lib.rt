//! A node of a cluster as a program of its own: asks the master for a number, serves clients, and
//! keeps its links.
#![tactic(auto)]

mod carrying;
mod early_appends;
mod node_error;
mod node_runs;

pub use node_error::NodeError;
pub use node_runs::{OpenedNode, run_node};
