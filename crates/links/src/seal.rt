//! Seals of the frames that nodes send each other: each frame bears a tag that only those make who
//! have the key, for its place in its connection. A frame that was altered, left out, repeated or
//! moved, or is of another connection, is refused. What is sealed can be read by anybody.

mod frame_reader;
mod frames;
mod hello;
mod keyed_hash;
mod keys;
mod membership;
mod theorems;

pub use frame_reader::{FrameError, FrameReader};
pub use frames::{Opener, SealError, SealFault, Sealer, TAG_BYTES, Tag};
pub use hello::{HELLO_BYTES, Hello, HelloFault, RANDOM_BYTES, RULES, VERSION};
pub use keyed_hash::hmac;
pub use keys::{Purpose, Side, derived, is_proof, proof, session};
pub use membership::{CLUSTER_BYTES, Membership, NO_CLUSTER};
pub use theorems::{
    ends_are_of_one_cluster, ends_have_one_key, frames_are_those_sealed, hellos_have_one_spelling,
    inputs_are_told_apart,
};
