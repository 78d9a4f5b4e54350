//! Two small clients of an MQTT 3.1.1 server, for a person at a terminal: one publishes once, one
//! prints publications. They run over any streams, and reconnect when one is lost.
#![tactic(auto)]

mod answers;
mod caller;
mod checks;
mod denial;
mod publisher;
mod servers;
mod subscriber;
mod user_client_error;
mod visits;

pub use denial::Denial;
pub use publisher::Publisher;
pub use servers::Servers;
pub use subscriber::Subscriber;
pub use user_client_error::UserClientError;
