//! A client of an MQTT 3.1.1 server that keeps its side of the handshakes. Its input is calls and
//! the server's bytes, its output is bytes to the server and accepted publications. It knows only
//! its own connection.
#![tactic(auto)]

mod client_core;
mod connections;
mod handshakes;
mod identifiers;
mod input;
mod output;
mod publications;
mod readers;
mod refusals;
mod requests;

pub use client_base::{Accepted, ClientError, Request, Stage, UnacknowledgedPublication};
pub use client_core::ClientCore;
