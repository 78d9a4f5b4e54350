// A node's number for a stream.

/// The number by which a node knows a client's stream. It may be reused once its connection has
/// ended and all pending output was handed over.
#[derive(Clone, Copy, Debug, PartialEq, Eq)]
pub struct Port(pub u64);
