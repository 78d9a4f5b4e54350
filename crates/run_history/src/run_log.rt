// What was seen of the log of a run, without the run's name.

ghost use Rattle.std.specs.Prelude.{◌≡◌};

use crate::event::RunEvent;
use crate::rule::RunRule;
use logbook::Seen;
use std::marker::Model;

/// A prefix of the log of some run that was seen, for callers who do not know the run's name.
/// Contracts see it as its events.
#[derive(Drop)]
pub struct RunLog {
    seen: Seen<RunEvent, u64, RunRule>,
}

impl Model for RunLog {
    ghost use Rattle.std.specs.Prelude.{List};
    ghost use Rattle.run_history.specs.declared.event.RunEvent.{RunEvent};

    ghost Value = { List RunEvent };

    ghost view = { λ log. log.seen.log };
}

impl RunLog {
    /// Returns what was seen.
    pub(crate) fn new(seen: Seen<RunEvent, u64, RunRule>) -> RunLog
        ensures { result ≡ seen.log }
    {
        RunLog { seen }
    }
}
