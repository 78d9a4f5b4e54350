//! The index of all clients' subscriptions, as a tree of the levels of their filters.
#![tactic(auto)]

mod group;
mod insertion;
mod node;
mod node_id;
mod nodes;
mod removal;
mod row_groups;
mod rows;
mod search;
mod slots;
#[cfg(test)]
mod tests;
mod tree_index;

pub use subs_base::{ListIndex, Memory, SubIndex, grants_one_list};
pub use tree_index::TreeIndex;
