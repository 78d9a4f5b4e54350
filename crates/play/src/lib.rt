//! Plays scripts: the events of the lines happen in a world, and a transcript has the result of
//! each.
#![tactic(auto)]

mod error;
mod event_lines;
mod events;
mod played_world;
mod player;
mod recovery_lines;
mod transcript_lines;

pub use error::PlayError;
pub use player::play;
pub use recovery_lines::escape;
