//! Nodes with their clients' connections, their master, and every message ever sent.
#![tactic(auto)]

mod agreed_list;
mod counters;
mod kept_messages;
mod node_actions;
mod node_steps;
mod nodes;
pub mod recoveries;
mod recovery_checks;

pub use master::Idle;
pub use nodes::Nodes;
