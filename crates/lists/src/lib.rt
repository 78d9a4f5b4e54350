//! Definitions on lists that several crates share (prefixes, members, distinct identifiers), and
//! theorems about them. Its functions do nothing; their contracts are the theorems.
#![tactic(auto)]

mod theorems;

pub use theorems::{identifiers_stay_apart, prefixes_join, prefixes_meet};
