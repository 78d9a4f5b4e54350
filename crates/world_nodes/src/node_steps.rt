// The step of one node.

ghost use Rattle.std.specs.Prelude.{◌≡◌, ◌<◌, true, take, length, slice_get, if◌then◌else◌, IfSome};
ghost use Rattle.ballot_base.specs.Losses.{greatest_count};
ghost use Rattle.world_base.specs.node_core.Losses.{DoesNothing};
ghost use Rattle.world_nodes.specs.Inside.{TookItem};

use crate::kept_messages::keep_all;
use ballot_base::Message;
use broker_spec::Command;
use std::alloc::Global;
use world_base::node_core::{Item, NodeCore};

/// Feeds an item to a node, and appends its messages to those that were sent. Returns true if
/// nothing was lost.
pub fn step_node(
    alloc: Global,
    node: &mut NodeCore,
    item: Item,
    sent: &mut Vec<(u8, Message<Command>)>,
) -> bool
    ensures { TookItem node.old item node.new sent.old.items sent.new.items result }
{
    let before = node.losses();
    let mut effects = Vec::new(alloc);
    node.step(item, &mut effects);
    let whole = is_whole(before, node.losses());
    keep_all(effects, sent) && whole
}

/// Drops a message without effect at a node, as `step_node` does but without a copy. Returns true
/// if nothing was lost.
pub fn pass_over(
    alloc: Global,
    node: &mut NodeCore,
    number: usize,
    sent: &mut Vec<(u8, Message<Command>)>,
) -> bool
    requires below { number < length sent.old.items }
    requires nothing { IfSome (slice_get sent.old.items number)
        (λ found. DoesNothing (Item.Peer found.1) node.old.core) }
    ensures { IfSome (slice_get sent.old.items number) (λ found.
        TookItem node.old (Item.Peer found.1) node.new sent.old.items sent.new.items result) }
{
    let before = node.losses();
    let mut effects = Vec::new(alloc);
    node.pass_over(&sent[number].1, &mut effects);
    let whole = is_whole(before, node.losses());
    keep_all(effects, sent) && whole
}

// Returns true if a node counted no loss in a step; false at the maximum of the count, which can
// no longer show one.
fn is_whole(before: u64, after: u64) -> bool
    ensures yes { result ≡ true → (after ≡ before) × (before < greatest_count) }
    ensures whole { after ≡ before → before < greatest_count → result ≡ true }
{
    after == before && before < u64::MAX
}

/// Truncates the record to its length `before`, if a log was not cut.
pub fn cut_back(archive: &mut Vec<Command>, before: usize, was_cut: bool)
    ensures { archive.new.items
        ≡ (if was_cut then archive.old.items else take before archive.old.items) }
{
    if !was_cut {
        archive.truncate(before);
    }
}
