// How much an inbox holds.

/// How many items an inbox holds.
pub const MAX_ITEMS: usize = 1_024;

/// The most lanes of an inbox.
pub const MAX_LANES: u8 = 64;
