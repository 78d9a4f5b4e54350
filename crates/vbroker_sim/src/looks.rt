//! Checks a run of a world after each of its events: whether what is promised holds. The meaning of
//! the agreed list is written again here in a simple way, by code that calls nothing of the
//! broker's.

mod list_reading;
mod making;
mod matching;
mod seen;
mod sessions;
mod watching;

pub use making::{made_by, payload_of};
pub use watching::{Broken, Watch};
