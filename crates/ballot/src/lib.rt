//! One replica of a machine: a log, its machine and a role in a ballot. Every call is a step of the
//! protocol, for any machine that meets the laws of `machine`.
#![tactic(auto)]

mod replica;

pub use ballot_base::errors::{OpeningError, ProposeError};
pub use ballot_base::{
    Body, Config, Effect, Log, MASTER, MAX_MEMBERS, MAX_NODE, MAX_NUMBER, MAX_PLACES, Members,
    Message, Role, Status, copy_log,
};
pub use machine::{Halted, Machine, Memory, ThawFault};
pub use replica::Replica;
