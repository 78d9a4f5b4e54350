//! What a replicated state machine is, with its laws, and `Tally`, a small machine that satisfies
//! them.
#![tactic(auto)]

mod ballots;
mod error;
mod machine;
mod tally;

pub use ballots::MAX_BALLOT;
pub use error::{Halted, MEMORY_NUMBER, MEMORY_TEXT, Memory, ThawFault};
pub use machine::Machine;
pub use tally::{Tally, TallyCommand};
