// How many connections a node serves.

/// How many connections a node serves at once.
pub const MAX_CONNECTIONS: u8 = 60;
