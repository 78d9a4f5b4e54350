// The node's own thread.
//
// It takes what other nodes queued for this one, sends ticks and cuts, and ends connections whose
// first packet is overdue. It does no other node's turn and waits for no socket, so a node always
// has a thread, also while clients' threads work elsewhere. Before it sleeps it looks a while,
// since a wake-up costs as much; then it calls `doze` and looks once more, so an item queued just
// then is found or wakes it. The own lane's lock is held for a turn; threads of other nodes only
// try it.

ghost use Rattle.std.specs.Prelude.{◌≡◌};
ghost use Rattle.post.specs.outbox.Queued.{IsQueued};
ghost use Rattle.server.specs.node_threads.LaneReports.{IsOwn, SendsMore};

use crate::node_threads::own_lane::OwnLane;
use crate::node_threads::served_node::ServedNode;
use crate::node_threads::shared::Shared;
use node::{HasState, NodeNaming, cuts_after, is_overdue};
use node_base::devices::Gate;
use run_history::{RunNaming, SentItem};
use std::hint;
use std::sync::Wait;
use std::time::{Clock, Duration};
use streams::writer::FIRST_INDEX;
use streams::{Closed, Link, MAX_CONNECTIONS};
use world_base::node_core::Item;

/// How often a tick is sent to the node, in milliseconds.
const TICK_MILLIS: u64 = 200;

/// How long the thread sleeps before the next tick while the node hurries, in milliseconds.
const HURRY_MILLIS: u64 = 1;

/// How many times the thread looks for items before it sleeps. With the pauses between, this takes
/// about as long as it takes to wake a thread.
const LOOKS_BEFORE_SLEEP: u32 = 64;

/// How many spins a pause between two looks has: less than a microsecond, so an item is found soon
/// after it came.
const SPINS: u32 = 8;

// The last tick that was due by time.
#[derive(Clone, Copy)]
struct LastTick {
    // Its time, in the milliseconds of the node's clock; 0 before the first.
    time: u64,
    // How many of them were sent (saturates at 2^64 - 1).
    ticks: u64,
    // True if the node hurries: the next turn is due after a millisecond.
    hurries: bool,
}

impl<'a, H: RunNaming, J: NodeNaming, S: HasState<H, J>, G: Gate> ServedNode<'a, H, J, S, G> {
    /// Works as the node's own thread until it sees the listener closed. Returns the witness.
    pub(crate) fn run_own_thread<R: Wait + Clock>(&self, rt: &R) -> Closed
        ensures { result ≡ self.now.number }
    {
        let shared = &self.shared;
        let mut last = LastTick {
            time: 0,
            ticks: 0,
            hurries: false,
        };
        for _ in rt.forever() {
            if let Some(closed) = shared.context.listener.closed(rt) {
                return closed;
            }
            let latest = self.do_own_turn(rt, last);
            shared.context.neighbours.wake_urgent(rt);
            shared.writer().write_busy(rt, FIRST_INDEX, false);
            if latest.time > last.time {
                shared.end_overdue(rt, latest.time);
            }
            last = latest;
            shared.sleep_until_wanted(rt, last.hurries);
        }
        unreachable!()
    }

    // Does the node's turn by its own lane; waits while another thread holds that. Returns the last
    // tick.
    fn do_own_turn<R: Wait + Clock>(&self, rt: &R, last: LastTick) -> LastTick {
        let mut own = self.own.lock(rt);
        // The numbers are always equal: the lane is this node's (see `ServedNode::own`).
        let peer = self.shared.context.peer;
        if own.number() != peer.number {
            return last;
        }
        self.shared.do_turn_by(rt, &mut own, last)
    }
}

impl<'a, H: RunNaming, J: NodeNaming, S: HasState<H, J>, G: Gate> Shared<'a, H, J, S, G> {
    // Takes what was queued for the node, and sends a tick and a cut if they are due. Returns the
    // last tick.
    fn do_turn_by<R: Wait + Clock>(
        &self,
        rt: &R,
        own: &mut OwnLane<H, J>,
        last: LastTick,
    ) -> LastTick
        requires { own.old.number ≡ self.now.context.peer.now.number }
        ensures { SendsMore own.old own.new }
    {
        self.take_queued(rt, own);
        let last = self.tick(rt, own, last);
        self.cut_by_size(rt, own);
        LastTick {
            hurries: self.hurry(rt, own),
            ..last
        }
    }

    // Sends a tick if the node hurries. It counts for no cut. Returns whether it was sent.
    fn hurry<R: Wait + Clock>(&self, rt: &R, own: &mut OwnLane<H, J>) -> bool
        ensures { SendsMore own.old own.new }
    {
        if !self.context.neighbours.hurry(rt) {
            return false;
        }
        let now = self.context.now(rt);
        self.send_own(rt, own, Item::Tick(now));
        true
    }

    // Sends a tick if it is due, and then a cut if that is due by time. Returns the last tick.
    fn tick<R: Wait + Clock>(&self, rt: &R, own: &mut OwnLane<H, J>, last: LastTick) -> LastTick
        ensures { SendsMore own.old own.new }
    {
        let now = self.context.now(rt);
        if now.saturating_sub(last.time) < TICK_MILLIS {
            return last;
        }
        self.send_own(rt, own, Item::Tick(now));
        let ticks = last.ticks.saturating_add(1);
        self.cut_in_time(rt, own, ticks);
        LastTick {
            time: now,
            ticks,
            hurries: false,
        }
    }

    // Sends a tick or a cut, and then takes what waits in the inbox.
    fn send_own<R: Wait + Clock>(&self, rt: &R, own: &mut OwnLane<H, J>, item: Item)
        requires { IsOwn item }
        ensures { SendsMore own.old own.new }
    {
        let sent = SentItem::from_outside(rt, own.number(), item, self.opening.again());
        self.send_and_take(rt, &mut own.lane, sent);
    }

    // Sends a cut, if it is due after this many ticks.
    fn cut_in_time<R: Wait + Clock>(&self, rt: &R, own: &mut OwnLane<H, J>, ticks: u64)
        ensures { SendsMore own.old own.new }
    {
        let peer = self.context.peer;
        if cuts_after(peer.number, ticks) {
            self.send_own(rt, own, Item::Cut);
        }
    }

    // Sends a cut, if the size of the log makes it due.
    fn cut_by_size<R: Wait + Clock>(&self, rt: &R, own: &mut OwnLane<H, J>)
        ensures { SendsMore own.old own.new }
    {
        let wants_cut = self.node.lock(rt).state().wants_cut();
        if wants_cut {
            self.send_own(rt, own, Item::Cut);
        }
    }

    // Ends the connections whose first packet is overdue.
    fn end_overdue<R: Wait>(&self, rt: &R, now: u64) {
        let mut index = 0;
        for _ in 0..MAX_CONNECTIONS {
            let Some((next, link)) = self.connections.link_from(rt, index) else {
                return;
            };
            if self.awaits_too_long(rt, &link, now) {
                link.shut();
            }
            index = next;
        }
    }

    // Returns true if the first packet of a connection is overdue.
    fn awaits_too_long<R: Wait>(&self, rt: &R, link: &Link<H>, now: u64) -> bool {
        let standing = self.node.lock(rt).state().standing(link.port);
        is_overdue(standing, link.opened, now)
    }

    /// Takes all that was queued for the node up to now. If that is something, takes items until
    /// the inbox is empty.
    pub(crate) fn take_queued<R: Wait + Clock>(&self, rt: &R, own: &mut OwnLane<H, J>)
        requires { own.old.number ≡ self.now.context.peer.now.number }
        ensures { SendsMore own.old own.new }
    {
        let items = self.context.peer.take_waiting(rt, self.alloc);
        if items.is_empty() {
            return;
        }
        for item in items {
            self.send_queued(rt, own, item);
        }
        self.take_all(rt, own);
    }

    // Takes items until the inbox is empty. It only calls `take_until_empty`, which sends nothing.
    fn take_all<R: Wait + Clock>(&self, rt: &R, own: &mut OwnLane<H, J>)
        ensures { SendsMore own.old own.new }
    {
        self.take_until_empty(rt, &mut own.lane);
    }

    // Sends a queued item. One that is not for this node is dropped, which does not occur.
    fn send_queued<R: Wait + Clock>(&self, rt: &R, own: &mut OwnLane<H, J>, item: SentItem<H>)
        requires { IsQueued H.linked H.nodes H.config self.now.context.peer.now.number item }
        ensures { SendsMore own.old own.new }
    {
        let (number, item, seen) = item.into_parts();
        if number == own.number() {
            own.seen.learn(&seen);
            self.send(rt, &mut own.lane, SentItem::new(number, item, seen));
        }
    }

    // Sleeps until an item is queued or a tick is due, unless an item comes at once.
    fn sleep_until_wanted<R: Wait>(&self, rt: &R, hurries: bool) {
        if self.comes_at_once(rt) {
            return;
        }
        let is_wanted = self.context.peer.doze(rt) || self.context.listener.is_closed(rt);
        if !is_wanted {
            let tick = if hurries { HURRY_MILLIS } else { TICK_MILLIS };
            self.context.peer.sleep(rt, Duration::from_millis(tick));
        }
    }

    // Looks a while for queued items. Returns true if there are some.
    fn comes_at_once<R: Wait>(&self, rt: &R) -> bool {
        for _ in 0..LOOKS_BEFORE_SLEEP {
            if self.context.peer.is_wanted(rt) {
                return true;
            }
            pause();
        }
        false
    }
}

fn pause() {
    for _ in 0..SPINS {
        hint::spin_loop();
    }
}
