//! Parses what the user wrote for `vcluster`: the words of the command line by `clap`, the table of
//! a cluster by `toml`.

mod arguments;
mod cluster_table;
mod commands;
mod document;
mod fault;
mod job;
mod job_matches;
mod place;
mod table_text;
mod words;

pub use cluster_table::{ClusterTable, NodeRow};
pub use fault::{LineFault, TableFault};
pub use job::{Job, MakeKey, RunMaster, RunNode};
pub use place::line_of;
pub use table_text::{MAX_ROWS, table};
pub use words::line;
