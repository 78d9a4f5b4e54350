// Notices on standard error.

use log::sink::Writer;
use log::{LevelFilter, Logged};
use notices::{Limiter, Notice};
use std::io::Write;
use std::time::{Clock, Instant};

/// Tells notices on standard error, at most ten lines a second of each kind. No clause says what is
/// printed.
#[derive(Drop)]
pub(crate) struct Teller<'a, E> {
    // Which levels are told.
    filter: LevelFilter,
    // None if the clock cannot be read: then a kind has ten lines in all.
    start: Option<Instant>,
    limiter: Limiter,
    faults: &'a mut E,
}

impl<'a, E: Write> Teller<'a, E> {
    /// Returns a teller that has told nothing.
    pub(crate) fn new<R: Clock>(rt: &R, filter: LevelFilter, faults: &'a mut E) -> Teller<'a, E> {
        Teller {
            filter,
            start: Instant::now(rt).ok(),
            limiter: Limiter::new(),
            faults,
        }
    }

    /// Tells a notice.
    pub(crate) fn tell<R: Clock>(&mut self, rt: &R, notice: &Notice<'_>) {
        let now = self.now(rt);
        let log = Logged::new((), self.filter, Writer::new(&mut *self.faults));
        notices::tell(&log, &mut self.limiter, now, notice);
    }

    /// Tells how many notices were held back in earlier seconds.
    pub(crate) fn tell_held_back<R: Clock>(&mut self, rt: &R) {
        let now = self.now(rt);
        let log = Logged::new((), self.filter, Writer::new(&mut *self.faults));
        notices::tell_held_back(&log, &mut self.limiter, now);
    }

    // Returns the time since the start in milliseconds; 0 if the clock cannot be read.
    fn now<R: Clock>(&self, rt: &R) -> u64 {
        let Some(start) = self.start else {
            return 0;
        };
        match start.elapsed(rt) {
            Ok(passed) => u64::try_from(passed.as_millis()).unwrap_or(u64::MAX),
            Err(_) => 0,
        }
    }
}
