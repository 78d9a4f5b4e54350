// What two looks at the status of a node show.

ghost use Rattle.std.specs.Prelude.{◌≡◌};
ghost use Rattle.jobs.specs.Looks.{change_of, look_of, no_look};

use ballot_base::Status;

/// What a look at a node showed.
#[derive(Clone, Copy)]
pub(crate) struct Look {
    /// Has it stopped?
    pub(crate) has_stopped: bool,
    /// The ballot in which it is the active primary; 0 if it is none.
    pub(crate) serves: u64,
}

/// What is new at a node.
#[derive(Clone, Copy)]
pub(crate) enum Change {
    /// It has stopped.
    Stopped,
    /// It has become the active primary of this ballot, which is not the first.
    Serves(u64),
}

impl Look {
    /// Returns what is known before the first look.
    pub(crate) fn none() -> Look
        ensures { result ≡ no_look }
    {
        Look {
            has_stopped: false,
            serves: 0,
        }
    }

    /// Returns what a status shows.
    pub(crate) fn of(status: &Status) -> Look
        ensures { result ≡ look_of status.now }
    {
        let is_primary = !status.stopped && status.role.is_active();
        Look {
            has_stopped: status.stopped,
            serves: if is_primary { status.ballot } else { 0 },
        }
    }

    /// Returns what is new since an earlier look.
    pub(crate) fn change_since(self, before: Look) -> Option<Change>
        ensures { result ≡ change_of before self }
    {
        if self.has_stopped {
            return if before.has_stopped {
                None
            } else {
                Some(Change::Stopped)
            };
        }
        if 1 < self.serves && self.serves != before.serves {
            Some(Change::Serves(self.serves))
        } else {
            None
        }
    }
}
