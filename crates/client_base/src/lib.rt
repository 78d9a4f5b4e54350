//! A client that keeps its side of the handshakes: its state, and what each call and each packet
//! from the server does to it (MQTT 4.1, 4.3, 4.4).
#![tactic(auto)]

mod accepted;
mod error;
mod limits;
pub mod printed;
mod request;
mod rows;
mod stage;
mod theorems;
mod unacknowledged_publication;

pub use accepted::Accepted;
pub use error::ClientError;
pub use limits::MAX_KEPT;
pub use request::Request;
pub use rows::sixty_four_are_kept;
pub use stage::Stage;
pub use theorems::{
    accepted_once_an_identifier, history_is_followed, publishing_order_is_kept,
    used_identifiers_are_distinct,
};
pub use unacknowledged_publication::UnacknowledgedPublication;
