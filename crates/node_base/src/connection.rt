//! One connection over a device to read from and one to write to. Each piece that is read, at most
//! [`PIECE_BYTES`](crate::devices::PIECE_BYTES), is reported to a `ReportSink`; queued bytes are
//! written in order, as far as the device takes them.

mod ending;
mod flow;
mod left_write;
mod outflow;
mod outlet;
mod reports;
mod sink;
mod tap;
mod theorems;
mod unwritten;

pub use ending::Ending;
pub use flow::{Flow, write_out};
pub use left_write::LeftWrite;
pub use outflow::Outflow;
pub use outlet::Outlet;
pub use reports::report_connection;
pub use sink::ReportSink;
pub use tap::Tap;
pub use theorems::nothing_is_left_out;
pub use unwritten::Unwritten;
