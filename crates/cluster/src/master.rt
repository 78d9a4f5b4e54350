//! Runs the master of a cluster: gives numbers to nodes, hears what they report, and takes orders.

mod hall;
mod key_file;
mod master_error;
mod master_runs;
mod node_link;
mod obeying;
mod order_socket;
mod roster;
mod serving;
mod state_file;
mod told;

pub use hall::Hall;
pub use key_file::{KEY_BYTES, KeyFault, make_key, read_key};
pub use master_error::MasterError;
pub use master_runs::{Opened, listen, open_desk, open_key, read_table, run_key, run_master};
pub use serving::{ServeFault, serve};
pub use state_file::{StateFile, read_state};
pub use told::{Told, activate, assign, begin, new_ballot, resume, start, was_given};
