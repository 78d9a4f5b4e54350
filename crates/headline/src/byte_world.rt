//! Clients and a group of nodes, with a pipe of bytes in each direction of every connection: the
//! definitions of what may happen, and theorems about it.

mod kept_theorems;
mod node_theorems;
mod theorems;

pub use kept_theorems::{no_connect_is_clean, no_session_is_clean};
pub use node_theorems::{nodes_are_orderly, ports_have_pipes};
pub use theorems::{
    groups_do_each_node_call, names_stay_apart, node_calls_carry_their_bytes, pipes_carry_in_order,
    worlds_carry_in_order,
};
