//! A node: a replica with its connections and the inbox from which its items come.
#![tactic(auto)]

mod cut_times;
mod growth;
mod handed_counts;
mod intake;
mod locked_node;
mod naming;
mod node_state;
mod overdue;
mod permit;
mod report;
mod rows;
mod theorems;

pub use ballot_base::errors::{OpeningError, ProposeError};
pub use ballot_base::{Body, Config, Effect, MAX_NODE, Members, Message, Status};
pub use broker_spec::{Command, ConnectionName, Output};
pub use cut_times::cuts_after;
pub use handed_counts::HandedCount;
pub use intake::Intake;
pub use locked_node::{HasState, Node};
pub use machine::Memory;
pub use naming::NodeNaming;
pub use node_base::devices::{Counted, Gate, NoGate, OneRead, OneWrite, PIECE_BYTES, WholeWrite};
pub use node_state::NodeState;
pub use overdue::is_overdue;
pub use permit::Permit;
pub use report::Report;
pub use rows::{numbers_of_an_inbox, numbers_of_the_intake, numbers_of_times};
pub use theorems::{
    cuts_come_apart, cuts_come_often, hand_overs_add_up, open_bytes_are_counted,
    steps_hand_over_nothing,
};
pub use world_base::node_connections::{Handed, Piece, Port, Standing};
pub use world_base::node_core::{Item, NodeCore};
