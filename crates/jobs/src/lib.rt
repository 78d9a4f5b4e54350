//! Runs the program's subcommands over one reader and two writers. With `line` and `table`, which
//! read its words and its table of nodes, it is the program as a library.
#![tactic(auto)]

mod causes;
mod clerk;
mod desk;
mod input_reader;
mod job_error;
mod job_runs;
mod looks;
mod loss_cause;
mod monitors;
mod node_view;
mod order_record;
mod orders;
mod refusals;
mod refused_words;
mod scripts;
mod serving_table;
mod table_causes;
mod tcp_clients;
mod teller;
mod whole_input;
mod whole_output;

pub use command_line::{Job, LineFault, NodeTable, TableFault, line, table};
pub use job_error::JobError;
pub use job_runs::{perform, print_fault};
pub use loss_cause::LossCause;
pub use refusals::refuse;
pub use scripts::play_text;
pub use serving_table::{Operation, serve_table};
pub use tcp_clients::{publish, subscribe};
