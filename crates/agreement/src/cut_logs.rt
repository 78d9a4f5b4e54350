//! Groups whose nodes cut their logs, and the proof that they agree. No code runs here: the
//! theorems are the contracts of functions with an empty body.

mod theorems;

pub use theorems::{
    agreed_grows, answers_at_the_next_places, answers_while_it_leads, has_agreed, keeps_the_order,
    logs_are_cut_right, machines_replay, nodes_agree, one_node_takes_a_ballot,
    one_primary_a_ballot, sent_logs_are_right, snapshots_are_read, taken_stand_at_once,
};
