// The state of a connection, as the code that serves its stream sees it.

/// The state of a node's connection.
#[derive(Clone, Copy, Debug, PartialEq, Eq)]
pub enum Standing {
    /// It is open, and its first packet is awaited.
    Awaits,
    /// It is open, and its CONNECT was proposed.
    Proposed,
    /// It is closed, or there is none.
    Closed,
}
