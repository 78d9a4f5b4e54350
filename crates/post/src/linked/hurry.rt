// How long a node hurries after a link came up.
//
// A primary repeats one place a tick, and what was in transit on a link that broke may be lost. All
// of it is among what the primary held as the link came up: it hurries while more of that is agreed.
// So what is behind has no bound, and a node that serves many clients does not hurry for ever.

use ballot_base::Status;

/// For how many ticks a node hurries though no more is agreed of what it held as the link came up.
/// The last of them are for what was lost later.
const HURRIED_TICKS: u32 = 8_192;

/// How much longer a node hurries.
#[derive(Clone, Copy)]
pub(crate) struct Hurry {
    // How many ticks, unless more is agreed.
    left: u32,
    // How many places it held as the link came up.
    held: u64,
    // How many places were agreed at its last hurried tick.
    committed: u64,
}

impl Hurry {
    /// Returns that of a node that does not hurry.
    pub(crate) fn ended() -> Hurry {
        Hurry {
            left: 0,
            held: 0,
            committed: 0,
        }
    }

    /// Returns that of a node which has this status as a link comes up.
    pub(crate) fn since(status: Status) -> Hurry {
        Hurry {
            left: HURRIED_TICKS,
            held: status.held,
            committed: status.committed,
        }
    }

    /// Returns true if the node is to tick at once. No clause says when.
    pub(crate) fn is_on(self) -> bool {
        self.left > 0
    }

    /// Returns what is left after a hurried tick in this status: nothing, unless the node is an
    /// active primary of which not all places are agreed. No clause says so.
    pub(crate) fn after_tick(self, status: Status) -> Hurry {
        if !has_open_places(status) {
            return Hurry::ended();
        }
        let left = if self.goes_on(status) {
            HURRIED_TICKS
        } else {
            self.left.saturating_sub(1)
        };
        Hurry {
            left,
            held: self.held,
            committed: status.committed,
        }
    }

    // Returns true if more is agreed of what was held as the link came up.
    fn goes_on(self, status: Status) -> bool {
        self.committed < self.held && self.committed < status.committed
    }
}

// Returns true for an active primary of which not all places are agreed.
fn has_open_places(status: Status) -> bool {
    status.serves() && status.committed < status.held
}
