// Which items wake the node for which they are queued.

ghost use Rattle.std.specs.Prelude.{◌≡◌};
ghost use Rattle.std.specs.List.{list_any};
ghost use Rattle.world_base.specs.declared.node_core.item.Item.TheVariants.{Peer};
ghost use Rattle.post.specs.outbox.Urgency.{wakes};

use ballot_base::{Body, Message};
use broker_spec::Command;
use run_history::{RunNaming, SentItem};
use world_base::node_core::Item;

/// Returns true if the node is to be woken for an item that is queued for it.
pub fn is_urgent(item: &Item) -> bool
    ensures { result ≡ wakes item.now }
{
    match item {
        Item::Peer(message) => is_urgent_message(message),
        _ => true,
    }
}

/// Returns true if the node is to be woken for one of these items.
pub(crate) fn is_any_urgent<H: RunNaming>(items: &[SentItem<H>]) -> bool
    ensures { result ≡ list_any wakes items.now }
{
    items.iter().any(|sent| is_urgent(sent.item()))
}

/// Returns true for every message but a Commit, on which a backup applies places and sends nothing.
pub(crate) fn is_urgent_message(message: &Message<Command>) -> bool
    ensures { result ≡ wakes (Peer message.now) }
{
    !matches!(message.body, Body::Commit(_, _))
}
