//! The retained publications: for each topic the last one that was published with RETAIN 1
//! (MQTT 3.3.1.3).
#![tactic(auto)]

mod error;
mod retained_publication;
mod retained_store;
mod search;
mod theorems;

pub use error::RetainedError;
pub use retained_publication::RetainedPublication;
pub use retained_store::{MAX_TOPICS, RetainedStore};
pub use theorems::{last_is_retained, stays_in_bounds};
