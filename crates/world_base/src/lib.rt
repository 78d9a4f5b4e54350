//! The step of one node, without threads, clocks or sockets. `node_connections` has a node's open
//! connections; `node_core` joins them to a replica of the broker: clients' bytes, messages and
//! times go in, bytes and messages come out.
#![tactic(auto)]

pub use crate::node_connections::{Connection, ConnectionStage, Handed, Piece, Port, Standing};
pub use crate::node_core::{Item, NodeCore};
pub use ballot_base::errors::{OpeningError, ProposeError};
pub use ballot_base::{Body, Config, Effect, MAX_NODE, MAX_NUMBER, Members, Message, Status};
pub use broker::BrokerMachine;
pub use broker_spec::{Command, ConnectionName, Output};
pub use machine::Memory;
pub use rows::numbers_of_a_connection;

pub mod node_connections;
pub mod node_core;
mod rows;
