//! A recovery from every state of a group: the messages that lead a new ballot to its start.
//! `recovery_messages` and `answers` compute their numbers. Every other function is a theorem, with
//! an empty body.

mod cut_theorems;
mod length_theorems;
mod numbers;
mod theorems;

pub use cut_theorems::{cut_groups_answer, cut_groups_have_recoveries};
pub use length_theorems::recoveries_are_short;
pub use numbers::{answers, recovery_messages};
pub use theorems::{commands_are_answered, has_recovery, what_all_hold_is_agreed};
