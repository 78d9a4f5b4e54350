// How much a replica holds.

/// The most places of a log.
pub const MAX_PLACES: u64 = 1 << 40;
