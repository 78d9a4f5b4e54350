// The limits of a client.

/// The most unfinished publications at QoS 1 or 2 of a client.
pub const MAX_KEPT: usize = 64;
