//! One client of a world with all its connections, and the pipes of bytes in transit on each, one
//! in each direction. The client holds at most the newest connection.
#![tactic(auto)]

mod bytes_in_transit;
mod calls;
pub mod clients;
mod connections;
pub mod events;
mod pair;
mod piped_client;
mod sending;
mod theorems;
mod transport;

pub use client::ClientCore;
pub use client_base::{Accepted, ClientError};
pub use piped_client::PipedClient;
pub use sending::Sending;
pub use theorems::clients_step_in_worlds;
pub use world_base::node_connections::Port;
