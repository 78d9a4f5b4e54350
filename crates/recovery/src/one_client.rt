//! What the CONNACK at the end of a recovery does to a client. No code runs here: the theorem is
//! the contract of a function with an empty body.

mod theorems;

pub use theorems::connack_serves;
