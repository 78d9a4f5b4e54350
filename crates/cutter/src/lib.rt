//! Splits a stream of bytes, which arrives in chunks of any size, into packets.
#![tactic(auto)]

mod error;
mod stream_cutter;
mod theorems;

pub use error::CutError;
pub use stream_cutter::Cutter;
pub use theorems::{every_stream_is_cut, no_packet_is_left, one_cut, packets_of_the_stream};
