//! The listener of a node, the streams of its connections, and the right to write on each.
#![tactic(auto)]

mod cleanup;
mod closed_listener;
mod connections;
mod idle_lanes;
mod limits;
mod link;
mod links;
mod listener;
mod patient_reader;
mod port_tap;
mod ports;
mod socket;
mod theorems;
mod write_slot;
mod write_token;
pub mod writer;

pub use cleanup::forget;
pub use closed_listener::Closed;
pub use connections::Connections;
pub use idle_lanes::IdleLanes;
pub use limits::MAX_CONNECTIONS;
pub use link::{BlockedLink, Link};
pub use links::TakenIndex;
pub use listener::Listener;
pub use patient_reader::PatientReader;
pub use port_tap::PortTap;
pub use ports::port_of;
pub use socket::Socket;
pub use theorems::{ports_tell_lanes, taps_count_all};
pub use write_token::WriteToken;
