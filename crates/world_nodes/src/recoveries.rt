//! What the messages of a recovery do to nodes with connections: to their replicas the same as to a
//! group of replicas. No code runs here: the theorems are the contracts of functions with an empty
//! body.

mod theorems;

pub use theorems::{
    connections_open_first, deliveries_are_followed, nodes_are_led_out,
    others_let_the_client_be_answered, sole_member_answers_the_client, welcomed_are_kept,
};
