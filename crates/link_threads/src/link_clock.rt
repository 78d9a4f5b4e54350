// The time since links began.

use std::sync::atomic::{AtomicU64, Ordering};
use std::time::{Clock, Instant};

/// The time since links began. A clock that cannot be read is no news: the time that was read last
/// is returned again.
#[derive(Drop)]
pub struct LinkClock {
    start: Instant,
    // What was read last, in milliseconds.
    last: AtomicU64,
}

impl LinkClock {
    /// Returns the time since this start.
    pub fn new(start: Instant) -> LinkClock {
        LinkClock {
            start,
            last: AtomicU64::new(0),
        }
    }

    /// Returns it in milliseconds.
    pub fn now<R: Clock>(&self, rt: &R) -> u64 {
        match self.start.elapsed(rt) {
            Ok(passed) => {
                let now = u64::try_from(passed.as_millis()).unwrap_or(u64::MAX);
                self.last.store(now, Ordering::SeqCst);
                now
            }
            Err(_) => self.last.load(Ordering::SeqCst),
        }
    }
}
