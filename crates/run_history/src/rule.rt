// The rule of the log, and the steps of the words under it.

use crate::event::{OpenedGroup, RunEvent};
use crate::told::Told;
use logbook::{Gain, Opening, Plain, Play, Rule};

/// Each party's word counts its events, and the log is a run of the model.
pub struct RunRule;

impl Rule<RunEvent, u64> for RunRule {
    ghost use Rattle.std.specs.Prelude.{[]};
    ghost use base.Fml.{ftrue};
    ghost use Rattle.run_history.specs.Rules.{IsKept};

    ghost holds = { λ cells log. IsKept cells log };

    ghost first = { [] };

    ghost hinted = { λ number log. Unit {0} };

    ghost shows = { λ log. [] };

    ghost keeps = { λ names log. ftrue };

    ghost moves = { λ ask before after answer. Unit {0} };
}

/// Callers trade nothing.
pub struct NoGain;

impl Gain<RunEvent, u64> for NoGain {
    ghost use base.Fml.{ftrue};

    ghost after = { λ names about answer. ftrue };
}

/// The log begins with the opening of the group.
pub struct Begin;

impl Opening<OpenedGroup, RunEvent> for Begin {
    ghost use Rattle.run_history.specs.Log.{opening_log};

    ghost log = { λ words group. opening_log group.nodes group.config group.linked };
}

/// A look at a word.
pub struct Look;

impl Play<RunEvent, u64> for Look {
    ghost use Rattle.run_history.specs.Rules.{Looks};

    ghost then = { Looks };
}

/// A look asks nothing.
impl Plain<(), RunEvent, u64> for Look {
    ghost use Rattle.std.specs.Prelude.{None};
    ghost use Rattle.run_history.specs.ToldEvents.{no_event};

    ghost ask = { λ nothing. no_event };

    ghost state = { λ nothing. None };
}

/// An exchange that adds an event.
pub struct Add;

impl Play<RunEvent, u64> for Add {
    ghost use Rattle.run_history.specs.Rules.{Adds};

    ghost then = { Adds };
}

impl Plain<Told, RunEvent, u64> for Add {
    ghost use Rattle.std.specs.Prelude.{None};
    ghost use Rattle.run_history.specs.ToldEvents.{event_of};

    ghost ask = { λ told. event_of told };

    ghost state = { λ told. None };
}
