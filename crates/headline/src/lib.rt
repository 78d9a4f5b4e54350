//! The theorem of the headline: every world of clients and a group of nodes is exact, by the list
//! on which the nodes agree. Beside it stand runs of such a world, computed to their ends.
#![tactic(auto)]

pub mod byte_world;
pub mod node_group;
pub mod node_moves;
pub mod packet_world;
mod rows;
mod theorems;

pub use rows::{a_client_is_served, a_publication_is_accepted};
pub use theorems::{one_session_is_promised, worlds_are_exact};
