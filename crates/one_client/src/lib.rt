//! The law of one client among others that do as they like: what is promised to a client that keeps
//! its side, in all steps of a group of nodes. No code runs here: the theorems are the contracts of
//! functions with an empty body.
#![tactic(auto)]

mod connection_theorems;
mod rows;
mod theorems;

pub use connection_theorems::{
    agreed_packets_were_proposed, connects_came_first, names_connect_once, names_go_with_ports,
    ports_have_names, proposals_are_in_range,
};
pub use rows::accepts_beside_a_stranger;
pub use theorems::{
    clients_of_runs_are_promised, clients_with_own_ports_are_promised, one_client_is_promised,
};
