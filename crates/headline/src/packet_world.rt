//! Clients and nodes as the two ends of their connections, over one list of commands that only
//! grows, and theorems about every such world. No code runs here: the theorems are the contracts of
//! functions with an empty body.

mod rows;
mod theorems;

pub use rows::accepts_once_over_a_takeover;
pub use theorems::{
    agreed_keeps_the_order, given_is_put_out, groups_put_out, groups_serve,
    packet_worlds_are_exact, worlds_are_served,
};
