// Appending commands that came from elsewhere, and the count of losses.

ghost use Rattle.std.specs.Prelude.{◌≡◌, if◌then◌else◌};
ghost use Rattle.std.specs.Bool.{OnTrue, OnFalse};
ghost use Rattle.ballot_base.specs.Losses.{one_more};
ghost use Rattle.ballot_base.specs.Logs.{places};
ghost use Rattle.ballot_base.specs.Service.{extended};

use crate::Log;

/// Appends a command if its place is the next one of the log. Returns false if it would have been
/// appended and memory ran out; the log is then unchanged.
pub fn append_next<C: Drop>(log: &mut Log<C>, place: u64, command: C) -> bool
    ensures taken { OnTrue result (log.new ≡ extended place command log.old) }
    ensures lost { OnFalse result ((log.new ≡ log.old) × (place ≡ places log.old)) }
{
    if place != log.places() {
        return true;
    }
    match log.push(command) {
        Ok(()) => true,
        Err(_) => false,
    }
}

/// Returns the count of losses after a call; it rises by one unless the call was `whole` (saturates
/// at 2^64 - 1).
pub fn counted(losses: u64, whole: bool) -> u64
    ensures { result ≡ (if whole then losses else one_more losses) }
{
    if whole {
        losses
    } else {
        losses.saturating_add(1)
    }
}
