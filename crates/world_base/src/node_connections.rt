//! The open connections of a node, each with its unread bytes and its pending output, and what
//! happens when one is read, written or closed.

mod connection;
mod connection_list;
mod front;
mod handed;
mod piece;
mod port;
mod standing;
mod unread;

pub use connection::{Connection, ConnectionStage};
pub use connection_list::{close_each, has_port, keep_listed, lowest_silent, push, push_idle};
pub use front::Front;
pub use handed::Handed;
pub use piece::Piece;
pub use port::Port;
pub use standing::Standing;
pub use unread::Unread;
