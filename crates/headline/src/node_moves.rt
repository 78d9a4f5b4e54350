//! The steps of a node as moves, and what each move does to one connection and the pipes of its
//! bytes. No code runs here: the theorems are the contracts of functions with an empty body.

mod pipe_theorems;
mod theorems;

pub use pipe_theorems::pipes_are_in_order;
pub use theorems::{
    each_loss_is_reported, losses_are_moves, losses_are_taken, losses_propose_in_order,
    losses_put_in_order, losses_put_nothing_on_closed, losses_read_in_order,
    lossy_names_are_of_the_ballot, lossy_names_keep_their_ballot, names_come_once,
    names_keep_their_ballot, node_calls_are_moves, node_calls_hear_at_first, none_is_silent,
};
