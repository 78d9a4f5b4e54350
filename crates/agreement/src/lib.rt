//! Nodes with changes of configuration: what may happen to them, and the proof that they agree. No
//! code runs here: the theorems are the contracts of functions with an empty body.
#![tactic(auto)]

pub mod cut_logs;
mod theorems;
pub mod whole_logs;

pub use theorems::{
    agreed_grows, answers_at_the_next_places, answers_while_it_leads, has_agreed, keeps_the_order,
    machines_replay, nodes_agree, one_node_takes_a_ballot, one_primary_a_ballot,
    taken_stand_at_once,
};
