//! The row of one client, and what packets and publications do to its session (MQTT 3.1.1).

mod client_row;
mod delivery;
mod grants;
mod handshakes;
mod outputs;
mod retained_copies;

pub use client_row::ClientRow;
pub use delivery::{deliver, publication_of};
pub use grants::grant_all;
pub use handshakes::{do_handshake, is_handshake};
pub use outputs::send_all;
