//! The tables of a broker, and what each command does to them (MQTT 3.1.1).

mod client_packets;
mod connect;
mod disconnect;
mod expel;
mod handshake;
mod log_command;
mod publish;
mod start;
mod subscribe;
mod tables;
mod unsubscribe;

pub use tables::Tables;
