// Two nodes that take at once, each in a thread of its own.

use super::came::{Came, take_permitted};
use super::meeting::Meeting;
use node::{HasState, Node, NodeNaming, NodeState};
use run_history::RunNaming;
use std::alloc::Global;
use std::sync::Wait;
use std::thread;
use std::thread::Threads;
use std::time::Clock;

/// Takes an item, as the gate of the node lets it, and returns what came of it.
pub(super) fn take_one<H, J, S, R>(rt: &R, alloc: Global, node: &Node<'_, H, J, S, Meeting>) -> Came
where
    H: RunNaming,
    J: NodeNaming,
    S: HasState<H, J>,
    R: Wait + Clock,
{
    let permit = node.begin_taking(rt);
    let came = take_permitted(rt, alloc, node.lock(rt).state(), &permit);
    node.end_taking(rt, permit);
    came
}

// Returns true if a node takes this many items, one after another, without an effect.
fn take_all<H, J, S, R>(
    rt: &R,
    alloc: Global,
    node: &Node<'_, H, J, S, Meeting>,
    count: u64,
) -> bool
where
    H: RunNaming,
    J: NodeNaming,
    S: HasState<H, J>,
    R: Wait + Clock,
{
    (0..count).all(|_| take_one(rt, alloc, node) == Came::Took(0, None))
}

// Returns true if both nodes take this many items, each in a thread of its own.
fn take_both<H, J, S, R>(
    rt: &R,
    alloc: Global,
    first: &Node<'_, H, J, S, Meeting>,
    second: &Node<'_, H, J, S, Meeting>,
    count: u64,
) -> bool
where
    H: RunNaming + Send + Sync,
    J: NodeNaming + Send + Sync,
    S: HasState<H, J> + Send,
    R: Threads + Wait + Clock + Sync,
{
    let (one, other) = thread::join(
        rt,
        || take_all(rt, alloc, first, count),
        || take_all(rt, alloc, second, count),
    );
    one && other
}

/// Returns true if two nodes take so at once, at the type that a node's state has.
pub(super) fn take_both_states<H, J, R>(
    rt: &R,
    alloc: Global,
    first: &Node<'_, H, J, NodeState<H, J>, Meeting>,
    second: &Node<'_, H, J, NodeState<H, J>, Meeting>,
    count: u64,
) -> bool
where
    H: RunNaming + Send + Sync,
    J: NodeNaming + Send + Sync,
    R: Threads + Wait + Clock + Sync,
{
    take_both::<H, J, NodeState<H, J>, R>(rt, alloc, first, second, count)
}
