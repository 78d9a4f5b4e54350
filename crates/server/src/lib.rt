//! Serves the clients of a program's nodes over TCP, with their master: opens the nodes, runs their
//! threads while a function of the caller runs, and closes them.
#![tactic(auto)]

mod attendant;
mod attending;
mod ending;
mod linked_run;
mod linked_service;
pub mod node_threads;
mod opening;
mod outcome;
mod rows;
mod serve_error;
mod served_run;
mod service;
mod serving;
mod shutdown;
mod theorems;
mod thread_starts;

pub use crate::node_threads::{NodeReport, THREADS};
pub use attendant::{Attendant, LinkAttendant};
pub use ballot_base::errors::{OpeningError, ProposeError};
pub use ballot_base::{Config, MAX_NODE, Members, Status};
pub use linked_run::LinkedRun;
pub use linked_service::serve_linked;
pub use machine::Memory;
pub use master::Idle;
pub use node_base::devices::{Gate, NoGate};
pub use post::outbox::OrderError;
pub use post::{Cluster, LinkedNode, Route};
pub use rows::numbers_of_a_server;
pub use serve_error::ServeError;
pub use served_run::ServedRun;
pub use service::{serve_gated, serve_while};
pub use streams::{Listener, MAX_CONNECTIONS};
pub use theorems::{ports_come_once, served_clients_are_promised};
