//! Reads and writes on devices that may fail: streams, files, or bytes in memory. Each device is in
//! a [`Counted`], which counts its failed calls, so a fault is reported only if a call failed. Also
//! the gate at which a test holds nodes before they take an item.

mod counted;
mod gate;
mod one_read;
mod one_write;
mod whole_write;

pub use counted::{Counted, PIECE_BYTES};
pub use gate::{Gate, NoGate};
pub use one_read::OneRead;
pub use one_write::OneWrite;
pub use whole_write::WholeWrite;
