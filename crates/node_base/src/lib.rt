//! One connection over devices that may fail. `devices` has reads, writes and the gate at which a
//! test holds nodes; `connection` has what is reported of a connection, and what is written to it.
#![tactic(auto)]

pub use crate::devices::{Counted, Gate, NoGate, OneRead, OneWrite, PIECE_BYTES, WholeWrite};

pub mod connection;
pub mod devices;
