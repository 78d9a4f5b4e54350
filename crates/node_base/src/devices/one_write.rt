// What one write took.

/// What [`Counted::write_piece`](crate::devices::Counted::write_piece) did.
#[derive(Clone, Copy, Debug, PartialEq, Eq)]
pub enum OneWrite {
    /// This many bytes were taken, from the first on: none if the call was interrupted.
    Bytes(usize),
    /// The device was full, and took no byte.
    Full,
    /// The device takes nothing more, and no call failed.
    Stopped,
    /// The call failed. No byte was taken.
    Fault,
}
