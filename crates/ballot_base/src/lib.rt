//! The messages between replicas, the effects of a replica's calls, and the parts of a replica that
//! do not depend on its role. `specs/` defines the step of the protocol, which `ballot` implements.
#![tactic(auto)]

mod additions;
mod application;
mod config;
mod copies;
pub mod errors;
mod limits;
mod log;
mod members;
mod message;
mod messages_sent;
mod rows;
mod status;
mod theorems;

pub use additions::{append_next, counted};
pub use application::{apply_dropping, apply_places};
pub use config::{Config, MAX_MEMBERS, MAX_NODE, MAX_NUMBER, Members};
pub use copies::copy_log;
pub use limits::MAX_PLACES;
pub use log::Log;
pub use members::{forget, least_held, least_raised, others_of, progress_of_others, raise};
pub use message::{Body, Effect, Message};
pub use messages_sent::{
    MASTER, send, send_after, send_appends, send_commits, send_installs, send_joins, send_state,
};
pub use rows::{a_log_ends_at_its_limit, numbers_end_at_their_bounds};
pub use status::{Progress, Role, Status};
pub use theorems::strangers_open_alike;
