//! Clients over real sockets, for tests of a server: the bytes that they send, those that MQTT
//! 3.1.1 answers, and what a subscriber accepted. Also the listeners to which they connect. A step
//! of a test that fails shows what came.

mod came;
mod client;
mod fault;
mod floods;
mod heard;
mod hearing;
mod ports;
mod visiting;

pub use came::Came;
pub use client::{Pair, join, open, publish};
pub use fault::{Fault, named, unless};
pub use floods::{Flood, large_publish, publish_times};
pub use heard::Heard;
pub use hearing::{hear, hear_end, hear_nothing, limit_writes, send, send_times};
pub use ports::{listen_all, opening};
pub use visiting::visit;
