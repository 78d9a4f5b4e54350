// Which waiting message is replaced by a newer one.

ghost use Rattle.std.specs.Prelude.{◌≡◌};
ghost use Rattle.links.specs.link_queue.Covering.{body_covers, covers, is_commit_within, is_held_within};

use ballot_base::{Body, Message};

/// Returns true if a message says all that an older one of the same node said: both are Held or
/// both Commit of the same ballot, the newer one for no fewer places.
pub fn covers<C>(newer: &Message<C>, older: &Message<C>) -> bool
    ensures { result ≡ covers newer.now older.now }
{
    newer.from == older.from && body_covers(&newer.body, &older.body)
}

fn body_covers<C>(newer: &Body<C>, older: &Body<C>) -> bool
    ensures { result ≡ body_covers newer.now older.now }
{
    match newer {
        Body::Held(ballot, held) => is_held_within(*ballot, *held, older),
        Body::Commit(ballot, held) => is_commit_within(*ballot, *held, older),
        _ => false,
    }
}

// Returns true for a Held of the ballot for at most `held` places.
fn is_held_within<C>(ballot: u64, held: u64, body: &Body<C>) -> bool
    ensures { result ≡ is_held_within ballot held body.now }
{
    match body {
        Body::Held(earlier, fewer) => *earlier == ballot && *fewer <= held,
        _ => false,
    }
}

// Returns true for a Commit of the ballot for at most `held` places.
fn is_commit_within<C>(ballot: u64, held: u64, body: &Body<C>) -> bool
    ensures { result ≡ is_commit_within ballot held body.now }
{
    match body {
        Body::Commit(earlier, fewer) => *earlier == ballot && *fewer <= held,
        _ => false,
    }
}
