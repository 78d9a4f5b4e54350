//! The story of one client and the theorems about it: the list of commands, the client's
//! connections as packets, and what the client keeps. No code runs here: the theorems are the
//! contracts of functions with an empty body.
#![tactic(auto)]

mod handshake_theorems;
mod theorems;

pub use handshake_theorems::{repeats_were_accepted, runs_are_exact};
pub use theorems::{
    lives_accept_in_each_session, lives_are_exact, stories_accept_in_order, stories_are_exact,
    stories_enter, stories_publish_once, unexpelled_lives_are_in_step,
};
