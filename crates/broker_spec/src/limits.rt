// The limits of a broker. Those of a session and of the retained publications are in `session_base`
// and `retained`.

/// The most sessions of a broker.
pub const MAX_SESSIONS: usize = 4096;
