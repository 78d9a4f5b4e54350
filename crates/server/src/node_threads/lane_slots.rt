// The threads of a node, each with a slot, and most with a lane for good.
//
// A lane lies in its slot before its thread begins, when it has sent nothing, and again after the
// thread has returned. Both are under a lock, so the type of the slot says what the lane has sent.

ghost use Rattle.std.specs.Prelude.{◌≡◌, ℕ, ◌<◌, ◌∷◌, [], IfOk, IfSome, None, OnOk, length, slice_index_or};
ghost use Rattle.server.specs.node_threads.ThreadLives.{AddsServed, CameBack, HasServed, Returns};

use crate::node_threads::own_lane::OwnLane;
use crate::node_threads::served_lane::ServedLane;
use crate::node_threads::served_node::ServedNode;
use machine::Memory;
use mailbox::Lane;
use node::{HasState, NodeNaming};
use node_base::devices::Gate;
use run_history::{RunNaming, SeenRun, SentItem};
use std::marker::Model;
use std::sync::Wait;
use std::thread;
use std::thread::Threads;
use std::time::Clock;
use streams::{Closed, MAX_CONNECTIONS};

/// A lane for the node's own thread, for each connection, and one more, so that an idle thread can
/// close a surplus client.
pub(crate) const LANES: u8 = MAX_CONNECTIONS + 2;

/// How many threads a node has: one for each lane, and the blocked writer.
pub const THREADS: usize = LANES as usize + 1;

/// The slot of a thread: its lane, before the thread begins and after it has returned, and the
/// witness with which it returned. The first slot is that of the node's own thread, the last that of
/// the blocked writer. These two have no lane in their slots: the own thread's is under a lock.
#[derive(Drop)]
pub(crate) struct LaneSlot<H: RunNaming, J: NodeNaming> {
    /// The lane of a thread that has not begun: it has sent nothing.
    pub(crate) lane: Option<Lane<SentItem<H>, J>>,
    /// The lane of a thread that has returned.
    pub(crate) back: Option<ServedLane<H, J>>,
    /// None until the thread returns.
    pub(crate) closed: Option<Closed>,
}

impl<H: RunNaming, J: NodeNaming> Model for LaneSlot<H, J> {
    ghost use Rattle.std.specs.Prelude.{◌≡◌, [], IfSome};
    ghost use Rattle.server.specs.node_threads.ThreadLives.{LaneSlotView};

    ghost Value = { LaneSlotView };

    ghost view = { λ slot. record { lane = slot.lane; back = slot.back; closed = slot.closed } };

    ghost invariant = { λ slot. IfSome slot.lane (λ lane. lane.sent ≡ []) };
}

impl<H: RunNaming, J: NodeNaming> LaneSlot<H, J> {
    /// Returns the slot of a thread that has not begun.
    pub(crate) fn new(lane: Option<Lane<SentItem<H>, J>>) -> LaneSlot<H, J>
        requires { IfSome lane (λ lane. lane.sent ≡ []) }
        ensures { result ≡ record { lane = lane; back = None; closed = None } }
    {
        LaneSlot {
            lane,
            back: None,
            closed: None,
        }
    }

    // Appends the lane, whether its thread has begun or not, to a list that has capacity for it.
    // Fails if it has not, or if the lane is another than the one that served, which does not occur.
    fn give_back(self, lanes: &mut Vec<Lane<SentItem<H>, J>>) -> Result<(), Memory>
        ensures { OnOk result (AddsServed lanes.old.items lanes.new.items) }
    {
        let LaneSlot { lane, back, .. } = self;
        add(lanes, lane)?;
        match back {
            Some(served) => add(lanes, Some(served.into_lane()?)),
            None => Ok(()),
        }
    }
}

// Appends the lane, if there is one, to a list that has capacity for it. Fails if it has not.
fn add<H: RunNaming, J: NodeNaming>(
    lanes: &mut Vec<Lane<SentItem<H>, J>>,
    lane: Option<Lane<SentItem<H>, J>>,
) -> Result<(), Memory>
    requires { IfSome lane HasServed }
    ensures { OnOk result (AddsServed lanes.old.items lanes.new.items) }
{
    match lane {
        Some(lane) => Ok(lanes.push(lane)?),
        None => Ok(()),
    }
}

/// The slots of a node's threads, and a list with capacity for all lanes, for the node's end.
#[derive(Drop)]
pub(crate) struct LaneSlots<H: RunNaming, J: NodeNaming> {
    /// One for each thread, [`THREADS`] of them.
    pub(crate) slots: Vec<LaneSlot<H, J>>,
    /// Empty until the end, with capacity for [`LANES`].
    pub(crate) back: Vec<Lane<SentItem<H>, J>>,
    pub(crate) ghost none: { back.items ≡ [] },
}

impl<H: RunNaming, J: NodeNaming> LaneSlots<H, J> {
    /// Returns all lanes of the node of this number, its own first, and the prefix of the log by
    /// which what that one handed on had been sent. Needs no memory, since the list has its
    /// capacity; fails with `Memory` if it has not, or if a lane is that of another node or of
    /// another thread, which does not occur.
    pub(crate) fn into_lanes(
        self,
        number: u8,
        own: OwnLane<H, J>,
    ) -> Result<(Vec<Lane<SentItem<H>, J>>, SeenRun<H>), Memory>
        ensures { IfOk result (λ ended. CameBack number ended.1 ended.0.items) }
    {
        let (own, seen) = own.into_lane_of(number)?;
        let lanes = self.into_served(own)?;
        Ok((lanes, seen))
    }

    // Returns the own lane, followed by those in the slots.
    fn into_served(self, own: Lane<SentItem<H>, J>) -> Result<Vec<Lane<SentItem<H>, J>>, Memory>
        ensures { IfOk result (λ lanes. AddsServed (own ∷ []) lanes.items) }
    {
        let LaneSlots { slots, mut back } = self;
        back.push(own)?;
        for slot in slots {
            slot.give_back(&mut back)?;
        }
        Ok(back)
    }
}

/// Runs a thread for each slot, until the listener is closed. If threads are missing, lanes wait
/// until others come back; the node's own thread is started before all others.
pub(crate) fn run<'a, H, J, S, G, R>(
    rt: &R,
    all: &[ServedNode<'a, H, J, S, G>],
    node: &ServedNode<'a, H, J, S, G>,
    slots: &mut [LaneSlot<H, J>],
)
where
    H: RunNaming + Send + Sync,
    J: NodeNaming + Send + Sync,
    S: HasState<H, J> + Send,
    G: Gate + Sync,
    R: Threads + Wait + Clock + Sync,
    ensures { (index : ℕ) (other : _) → index < length slots.old → Returns node.now.number
        (slice_index_or slots.old index other) (slice_index_or slots.new index other) }
{
    thread::for_each_mut(
        rt,
        slots,
        THREADS,
        &|index, slot| node.run_slot(rt, all, index, slot),
    );
}

impl<'a, H: RunNaming, J: NodeNaming, S: HasState<H, J>, G: Gate> ServedNode<'a, H, J, S, G> {
    // Runs the thread of a slot. One with a lane serves connections by it, and puts it back.
    fn run_slot<R: Wait + Clock>(
        &self,
        rt: &R,
        all: &[ServedNode<'a, H, J, S, G>],
        index: usize,
        slot: &mut LaneSlot<H, J>,
    )
        ensures { Returns self.now.number slot.old slot.new }
    {
        match slot.lane.take() {
            Some(lane) => {
                let number = lane.lane();
                let (lane, closed) = self.serve_lane(rt, all, lane);
                slot.back = Some(ServedLane::new(number, lane));
                slot.closed = closed;
            }
            None => slot.closed = Some(self.work_without(rt, index)),
        }
    }

    // Runs the thread of a slot without a lane: the first is the node's own thread, any other the
    // blocked writer. Returns the witness that the listener was seen closed.
    fn work_without<R: Wait + Clock>(&self, rt: &R, index: usize) -> Closed
        ensures { result ≡ self.now.number }
    {
        if index == 0 {
            self.run_own_thread(rt)
        } else {
            self.shared.writer().write_blocked(rt)
        }
    }
}
