// A node's turn, done by the thread that sent an item or queued something for the node.
//
// Whoever sends also takes, until the inbox is empty: so each item is taken, and no thread waits
// for an inbox. The node's state is locked for one batch at a time, and while it is locked three
// things happen in this order: the items are stepped, the new status is shown, and what the steps
// gave is queued. So statuses and messages keep the order of the steps. Nothing is written and no
// thread sleeps under that lock. Nobody is woken under it either, except the receiver of an answer
// of the master, and the node's own thread for a cut.

ghost use Rattle.std.specs.Prelude.{◌≡◌, ◌++◌, ◌∷◌, [], true, false};
ghost use Rattle.mailbox.specs.Ends.{all_met, unmet};
ghost use Rattle.node.specs.LockedNode.{IsNext};
ghost use Rattle.server.specs.node_threads.Turns.{Turns};

use crate::node_threads::shared::Shared;
use mailbox::Lane;
use node::{HasState, NodeNaming, NodeState, Permit};
use node_base::devices::Gate;
use post::GivenEffects;
use run_history::{RunNaming, SentEffects, SentItem};
use std::alloc::Global;
use std::sync::Wait;
use std::time::Clock;

impl<'a, H: RunNaming, J: NodeNaming, S: HasState<H, J>, G: Gate> Shared<'a, H, J, S, G> {
    /// Sends an item, and then takes what waits in the inbox. On return the node has taken all that
    /// the lane sent, and the lane knows it. What the node queued for connections is not written
    /// yet.
    pub(crate) fn send_and_take<R: Wait + Clock>(
        &self,
        rt: &R,
        lane: &mut Lane<SentItem<H>, J>,
        item: SentItem<H>,
    )
        ensures { lane.new ≡ all_met (record lane.old { sent = lane.old.sent ++ item ∷ [] }) }
    {
        self.send(rt, lane, item);
        self.take_until_empty(rt, lane);
    }

    /// Sends an item. While the inbox is full, takes what waits there.
    pub(crate) fn send<R: Wait + Clock>(
        &self,
        rt: &R,
        lane: &mut Lane<SentItem<H>, J>,
        item: SentItem<H>,
    )
        ensures { unmet lane.new ≡ unmet (record lane.old { sent = lane.old.sent ++ item ∷ [] }) }
    {
        let mut unsent = item;
        for _ in rt.forever() {
            let receipt = lane.receipt();
            match lane.send(rt, unsent, receipt) {
                Ok(()) => return,
                Err(back) => unsent = back,
            }
            self.take_until_empty(rt, lane);
        }
        unreachable!()
    }

    /// Takes items until the inbox is empty; all that this lane sent is among those taken.
    pub(crate) fn take_until_empty<R: Wait + Clock>(&self, rt: &R, lane: &mut Lane<SentItem<H>, J>)
        ensures { lane.new ≡ all_met lane.old }
    {
        for _ in rt.forever() {
            if !self.take_with_permit(rt, lane) {
                return;
            }
        }
        unreachable!()
    }

    // Takes at most as many items as one permit allows. Returns true if more may wait. The gate is
    // asked before the node's state is locked.
    fn take_with_permit<R: Wait + Clock>(&self, rt: &R, lane: &mut Lane<SentItem<H>, J>) -> bool
        ensures more { result ≡ true → lane.new ≡ lane.old }

        // If none waits, all that the lane sent was taken.
        ensures none { result ≡ false → lane.new ≡ all_met lane.old }
    {
        let permit = self.node.begin_taking(rt);
        let more = self.take_and_queue_given(rt, &permit, lane);
        self.node.end_taking(rt, permit);
        more
    }

    // Takes items under one lock, at most as many as the permit allows. Returns true if more may
    // wait. Under the same lock the status is shown and the node's messages are queued, so they
    // keep the order of its steps.
    fn take_and_queue_given<R: Wait>(
        &self,
        rt: &R,
        permit: &Permit<'_>,
        lane: &mut Lane<SentItem<H>, J>,
    ) -> bool
        ensures more { result ≡ true → lane.new ≡ lane.old }
        ensures none { result ≡ false → lane.new ≡ all_met lane.old }
    {
        let mut node = self.node.lock(rt);
        let state = node.state();
        // The numbers are always equal: the lane is one of this node's inbox, and the permit is for
        // its next taking. No clause says so, since the state is under a lock.
        if state.number() != lane.number() || !permit.is_for(state) {
            return true;
        }
        let (more, given) = take_as_permitted(rt, self.alloc, state, permit, lane);
        self.context.peer.show(rt, state.status());
        self.context.neighbours.queue_given(rt, state, given);
        // The node's own thread sends the cut.
        if state.wants_cut() {
            self.context.peer.wake(rt);
        }
        more
    }
}

// Takes items until the inbox is empty, at most as many as the permit allows. Returns true if more
// may wait, and what the node's steps gave.
fn take_as_permitted<H: RunNaming, J: NodeNaming, R: Wait>(
    rt: &R,
    alloc: Global,
    node: &mut NodeState<H, J>,
    permit: &Permit<'_>,
    lane: &mut Lane<SentItem<H>, J>,
) -> (bool, GivenEffects<H>)
    requires inbox { lane.old.inbox ≡ node.old.receiver.inbox }
    requires next { IsNext permit.now node.old }

    // What the steps of the node gave, from the state before to the state after, and nothing else.
    ensures given { Turns node.old node.new result.1 }
    ensures more { result.0 ≡ true → lane.new ≡ lane.old }

    // If none waits, all that the lane sent was taken: the node has its items in its history.
    ensures none { result.0 ≡ false → lane.new ≡ all_met lane.old }
{
    let mut effects = Vec::new(alloc);
    for _ in 0..permit.most() {
        let receipt = lane.receipt();
        if !node.take_one(rt, &mut effects, receipt) {
            node.meet(lane);
            let given = SentEffects::new(effects, node.seen());
            return (false, GivenEffects::new(given));
        }
    }
    let given = SentEffects::new(effects, node.seen());
    (true, GivenEffects::new(given))
}
