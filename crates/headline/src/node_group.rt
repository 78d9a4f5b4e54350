//! A group of nodes, as definitions and theorems: nodes with their clients' connections, the
//! messages between them, and one master. It joins the steps of one node to the agreement of all.

mod connection_theorems;
mod theorems;

pub use connection_theorems::groups_carry_in_order;
pub use theorems::{groups_have_moments, groups_keep_the_order, puts_in_the_ballot_of_the_name};
