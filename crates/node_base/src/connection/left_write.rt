// How a write of unwritten bytes ended.

/// How [`Unwritten::write`](crate::connection::Unwritten::write) ended.
#[derive(Clone, Copy, Debug, PartialEq, Eq)]
pub enum LeftWrite {
    /// All was written.
    Whole,
    /// The device was full: a prefix was written, and the rest is left.
    Full,
    /// The device takes nothing more, and no call failed: a prefix was written, and the rest is
    /// left.
    Stopped,
    /// A call of the device failed: a prefix was written, and the rest is left.
    Fault,
}
