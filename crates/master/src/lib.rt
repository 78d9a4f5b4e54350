//! A group of replicas with every message ever sent, and the proof that they agree.
#![tactic(auto)]

mod acknowledged;
mod activation;
mod copies;
mod cut_places;
mod error;
mod event;
mod group;
mod inputs;
mod master;
mod messages_sent;
mod opening;
mod rows;

pub use acknowledged::{Acknowledged, follow_ballot};
pub use activation::Activation;
pub use copies::{config_of, copy_of};
pub use cut_places::record;
pub use error::AssignError;
pub use event::{Event, Idle};
pub use group::Group;
pub use inputs::counted;
pub use master::Master;
pub use messages_sent::{activation_answer, asks_for, send};
pub use opening::can_open;
pub use rows::members_end_at_the_bound_of_the_master;
