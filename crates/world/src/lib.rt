//! A world: nodes with their master, clients, and a pipe of bytes in each direction of every
//! connection.
#![tactic(auto)]

mod client_calls;
mod node_events;
mod node_output;
mod readers;
mod recovery_search;
mod theorems;
mod transport;
mod world;

pub use ballot_base::errors::OpeningError;
pub use ballot_base::{Body, Config, Effect, Members, Message, Status};
pub use broker_spec::{Command, ConnectionName};
pub use client::ClientCore;
pub use client_base::Accepted;
pub use machine::Memory;
pub use master::Idle;
pub use session_base::Publication;
pub use theorems::{
    a_step_leaves_no_failed_connection, an_open_past_the_last_changes_nothing, uncounted_is_exact,
};
pub use world::World;
pub use world_base::node_connections::{Handed, Piece, Port};
pub use world_base::node_core::{Item, NodeCore};
pub use world_pipes::events::{EscapeError, Event};
