// The numbers of ballots.

/// The last ballot that can be given: 2^32.
pub const MAX_BALLOT: u64 = 0x1_0000_0000;
