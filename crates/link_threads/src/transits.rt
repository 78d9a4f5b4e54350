// The logs that left over a link and were not answered for long.
//
// A node gives a log again at each tick until it is answered. So after a log was written, another
// of its kind and ballot is wanted only once ten seconds have passed.

use broker_spec::Command;
use links::link_queue::{LogName, Waiting, log_name};
use machine::Memory;
use std::alloc::Global;

/// How long a log is not given again, in milliseconds.
const LOG_MILLIS: u64 = 10_000;

/// A log that left, and when.
#[derive(Clone, Copy)]
struct Transit {
    name: LogName,
    left: u64,
}

/// The logs that left.
#[derive(Drop)]
pub(crate) struct Transits {
    transits: Vec<Transit>,
}

impl Transits {
    /// Returns none.
    pub(crate) fn new(alloc: Global) -> Transits {
        Transits {
            transits: Vec::new(alloc),
        }
    }

    /// Notes that these messages leave now. Fails if memory runs out for a log of them.
    pub(crate) fn note(&mut self, taken: &[Waiting<Command>], now: u64) -> Result<(), Memory> {
        for waiting in taken {
            if let Some(name) = log_name(&waiting.message) {
                self.transits.push(Transit { name, left: now })?;
            }
        }
        Ok(())
    }

    /// Takes the name of a log that may be given again by now.
    pub(crate) fn take_due(&mut self, now: u64) -> Option<LogName> {
        let is_due = |transit: &Transit| now.saturating_sub(transit.left) >= LOG_MILLIS;
        let at = self.transits.iter().position(is_due)?;
        Some(self.transits.remove(at).name)
    }
}
