// The node to which an order about a client goes.

ghost use Rattle.std.specs.Prelude.{◌≡◌, IfSome, None};
ghost use Rattle.post.specs.Primaries.{IsHighest, NoneServes, higher, serves};

use ballot_base::Status;

/// A node's number, and the status that it showed last.
#[derive(Clone, Copy)]
pub(crate) struct Shown {
    /// The node's number.
    pub(crate) number: u8,
    /// The node may have changed since.
    pub(crate) status: Status,
}

/// Returns the number of the node that serves in the highest ballot: an active primary that did not
/// crash.
pub(crate) fn primary_of(nodes: &[Shown]) -> Option<u8>
    ensures some { IfSome result (λ number. IsHighest number nodes.now) }
    ensures none { result ≡ None → NoneServes nodes.now }
{
    let mut found = None;
    for shown in nodes {
        found = higher(found, *shown);
    }
    match found {
        Some(best) => Some(best.number),
        None => None,
    }
}

// Returns the one of two nodes that serves in the higher ballot; the first if the ballots are
// equal.
fn higher(found: Option<Shown>, shown: Shown) -> Option<Shown>
    ensures { result ≡ higher found shown }
{
    let Some(best) = found else {
        return if serves(shown) { Some(shown) } else { None };
    };
    if serves(shown) && best.status.ballot < shown.status.ballot {
        Some(shown)
    } else {
        Some(best)
    }
}

// Returns true for an active primary that did not crash.
fn serves(shown: Shown) -> bool
    ensures { result ≡ serves shown }
{
    shown.status.serves()
}
