// Whether a port may have more output.

/// Whether more bytes may come for a port.
#[derive(Clone, Copy, Debug, PartialEq, Eq)]
pub enum Handed {
    /// The connection is open: more may be queued.
    Open,
    /// The connection is closed and has no pending output, or none of this port was opened.
    Closed,
}
