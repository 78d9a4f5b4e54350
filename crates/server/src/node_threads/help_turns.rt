// Turns of other nodes, done by a thread that queued something for them.

use crate::node_threads::served_node::ServedNode;
use node::{HasState, NodeNaming};
use node_base::devices::Gate;
use run_history::RunNaming;
use std::sync::Wait;
use std::time::Clock;
use streams::writer::FIRST_INDEX;

/// How many rounds over all nodes a thread makes at most; what still comes is left to the nodes'
/// own threads. An Append, its Held and the Commit after it take three, and a fourth finds what
/// came meanwhile.
const ROUNDS: u32 = 4;

impl<'a, H: RunNaming, J: NodeNaming, S: HasState<H, J>, G: Gate> ServedNode<'a, H, J, S, G> {
    /// Does the turns of all nodes for which something waits and whose own threads sleep, including
    /// this one, unless another thread does them. Call it after a turn, and without a lock. Writes
    /// what other nodes queued; what this node queued is left to the caller. If there is a gate,
    /// each node's own thread does its turns, so that no client waits at the gate of another node.
    pub(crate) fn help<R: Wait + Clock>(&self, rt: &R, all: &[ServedNode<'a, H, J, S, G>]) {
        // No message waits unnoticed: its giver queued it before it looks here. If the node's own
        // thread is awake then, or woken, it looks again before it sleeps. Otherwise the thread
        // that gets the lock of the node's lane takes what waits. If another thread holds that
        // lock, it looks again after it has released it, in its next round or by `wake_urgent`.
        // What waits for links is written by their threads.
        self.shared.context.neighbours.wake_links(rt);
        if !self.is_gated {
            for _ in 0..ROUNDS {
                if !self.help_each(rt, all) {
                    return;
                }
            }
        }
        self.shared.context.neighbours.wake_urgent(rt);
    }

    // Makes one round. Returns true if it held the lane of a node, and so has to look again.
    fn help_each<R: Wait + Clock>(&self, rt: &R, all: &[ServedNode<'a, H, J, S, G>]) -> bool {
        let mut had_one = false;
        for node in all {
            if node.shared.context.peer.ask_for_help(rt) && node.try_turn(rt) {
                had_one = true;
                self.write_for(rt, node);
            }
        }
        had_one
    }

    // Does the node's turn by its own lane, unless another thread holds that. Returns true if this
    // one held it.
    fn try_turn<R: Wait + Clock>(&self, rt: &R) -> bool {
        let Some(mut own) = self.own.try_lock() else {
            return false;
        };
        // The numbers are always equal: the lane is this node's (see `ServedNode::own`).
        let peer = self.shared.context.peer;
        if own.number() == peer.number {
            self.shared.take_queued(rt, &mut own);
        }
        true
    }

    // Writes what another node queued for its connections, and waits for no socket.
    fn write_for<R: Wait>(&self, rt: &R, node: &ServedNode<'a, H, J, S, G>) {
        if node.number != self.number {
            node.shared.writer().write_busy(rt, FIRST_INDEX, false);
        }
    }
}
