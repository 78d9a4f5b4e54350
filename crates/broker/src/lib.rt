//! The broker as a deterministic machine: it applies the commands of a log one by one and returns
//! what is to be sent to the clients (MQTT 3.1.1). It can be frozen to bytes and thawed from them.
#![tactic(auto)]

mod broker_machine;
mod form_writers;
pub mod one_session;
mod row_readers;
mod rows;
mod table_readers;
pub mod tables;
mod theorems;

pub use broker_machine::BrokerMachine;
pub use broker_spec::{Command, ConnectionName, Output, SizedPacket, Unspellable};
pub use theorems::broker_stands_for;
