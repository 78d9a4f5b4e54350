// What one read returned.

/// What [`Counted::read_piece`](crate::devices::Counted::read_piece) found.
#[derive(Clone, Copy, Debug, PartialEq, Eq)]
pub enum OneRead {
    /// This many bytes, at least one, now at the front of the caller's buffer.
    Bytes(usize),
    /// The end of the input: no byte came, and no fault.
    End,
    /// The call failed. No byte came.
    Fault,
}
