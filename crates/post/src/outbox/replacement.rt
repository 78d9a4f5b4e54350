// Which waiting message is replaced by a newer one.

ghost use Rattle.std.specs.Prelude.{◌≡◌};
ghost use Rattle.post.specs.outbox.Replacement.{covers, is_commit_within, is_held_within, replaces};

use ballot_base::Body;
use broker_spec::Command;
use world_base::node_core::Item;

/// Returns true if an item replaces an older one: both are from the same node, and both are Held or
/// both Commit of the same ballot, the newer one for no fewer places.
pub(crate) fn replaces(item: &Item, older: &Item) -> bool
    ensures { result ≡ replaces item.now older.now }
{
    match (item, older) {
        (Item::Peer(newer), Item::Peer(older)) => {
            newer.from == older.from && covers(&newer.body, &older.body)
        }
        _ => false,
    }
}

// Returns true if the newer message says all that the older one said.
fn covers(newer: &Body<Command>, older: &Body<Command>) -> bool
    ensures { result ≡ covers newer.now older.now }
{
    match newer {
        Body::Held(ballot, held) => is_held_within(*ballot, *held, older),
        Body::Commit(ballot, held) => is_commit_within(*ballot, *held, older),
        _ => false,
    }
}

// Returns true for a Held of the ballot for at most `held` places.
fn is_held_within(ballot: u64, held: u64, body: &Body<Command>) -> bool
    ensures { result ≡ is_held_within ballot held body.now }
{
    match body {
        Body::Held(earlier, fewer) => *earlier == ballot && *fewer <= held,
        _ => false,
    }
}

// Returns true for a Commit of the ballot for at most `held` places.
fn is_commit_within(ballot: u64, held: u64, body: &Body<Command>) -> bool
    ensures { result ≡ is_commit_within ballot held body.now }
{
    match body {
        Body::Commit(earlier, fewer) => *earlier == ballot && *fewer <= held,
        _ => false,
    }
}
