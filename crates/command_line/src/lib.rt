//! Parses what the user wrote: the words of the command line by `clap`, the table of nodes by
//! `toml`.
#![tactic(auto)]

mod address;
mod arguments;
mod cause;
mod commands;
mod document;
mod fault;
mod job;
mod job_matches;
mod node_table;
mod table_text;
mod words;

pub use address::{AddressCause, address_cause};
pub use cause::{TableCause, table_cause};
pub use fault::{LineFault, TableFault};
pub use job::{Escape, Job, Play, Publish, Serve, Subscribe};
pub use node_table::{ListeningNode, NodeTable};
pub use table_text::table;
pub use words::line;
