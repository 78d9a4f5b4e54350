//! What the steps of a recovery do to one node with connections, and what its broker answers to a
//! client that reconnects. No code runs here: the theorems are the contracts of functions with an
//! empty body.

mod theorems;

pub use theorems::{
    a_step_is_a_delivery, answer_alone_is_put_out, answer_is_put_out, asked_awaits_answer,
    connect_is_proposed, first_awaits_connect, first_is_opened, handing_keeps_it_waiting,
    handing_keeps_the_connect, kept_sessions_are_welcomed, messages_keep_it_waiting,
};
