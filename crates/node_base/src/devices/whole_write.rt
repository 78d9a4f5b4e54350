// How a write of several bytes ended.

/// How [`Counted::write_whole`](crate::devices::Counted::write_whole) ended.
#[derive(Clone, Copy, Debug, PartialEq, Eq)]
pub enum WholeWrite {
    /// All bytes were written, and the device was flushed.
    Whole,
    /// The device took no more bytes before all were written.
    Stopped,
    /// A call of the device failed. What was written before it stays written.
    Fault,
}
