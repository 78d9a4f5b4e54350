//! The step of a broker on one more command, on records and lists; proved to give, after every list
//! of commands, the state and the answers that `broker_spec` defines for the list.
#![tactic(auto)]

pub mod form;
pub mod rows;
mod step_theorems;

pub use step_theorems::{
    decisions_stand_for, entries_start_where_they_are_sent, list_stands_for, others_stay,
    rows_step_by_step, session_step, states_stay_sound, step_stands_for,
};
