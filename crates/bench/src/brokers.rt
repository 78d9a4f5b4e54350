// Measurements of the broker, alone and in a node.

mod clients;
mod crowd;
pub mod expelling;
pub mod freezing;
pub mod node;
pub mod publications;
mod traffic;
