// The limits of a session, this broker's own.

/// The most entries of a session, in flight and waiting together.
pub const MAX_ENTRIES: usize = 4096;

/// The most subscriptions of a session.
pub const MAX_SUBSCRIPTIONS: usize = 64;
