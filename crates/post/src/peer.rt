// A node as the other nodes of its program see it.
//
// Each part has a lock of its own, held for one call at most: a thread that shows a status, queues
// a message or wakes the node waits for no turn of that node. `queue_addressed` runs under the
// giver's state and wakes nobody. `show` runs under the node's own state, so statuses come in the
// order of its steps. Bytes of clients are reserved by `admit` before they are sent to the node,
// and moved by `count_taken` once it has taken them; `AdmittedBytes` cannot be dropped, so no path
// forgets the second. Before the own thread sleeps it calls `doze` and looks once more, so an item
// that was queued just then is found, or wakes it.

ghost use Rattle.std.specs.Prelude.{◌≡◌, ◌≤◌, IfOk, IfSome, IsErrOf, false, true};
ghost use Rattle.ballot_base.specs.LawfulConfig.{is_lawful, max_node};
ghost use Rattle.lists.specs.Lists.{Each};
ghost use Rattle.post.specs.outbox.MasterAnswers.{MayGet};
ghost use Rattle.post.specs.outbox.Queued.{IsOrder, IsQueued};

use crate::addressed_message::AddressedMessage;
use crate::opening_status::opening_status;
use crate::outbox::{Answer, MessagingMaster, OrderError, Outbox, Waker, is_urgent};
use ballot_base::{Config, Status};
use machine::Memory;
use master::AssignError;
use node::Intake;
use node_base::devices::PIECE_BYTES;
use packet_base::ClientId;
use run_history::{RunNaming, SeenRun, SentItem};
use std::alloc::Global;
use std::marker::Model;
use std::sync::{Mutex, Wait};
use std::time::Duration;
use world_base::node_core::Item;

#[derive(Clone, Copy)]
struct Urgency {
    // True if an item waits for which the node is to be woken.
    is_urgent: bool,
    // True if so many wait that the node's own thread should take them.
    is_long: bool,
}

/// Bytes of a client in transit to a node, reserved of its intake budget. It cannot be dropped: it
/// ends when they are counted as taken.
pub struct AdmittedBytes {
    // 0 if nothing is reserved.
    bytes: u64,
}

impl Model for AdmittedBytes {
    ghost use Rattle.std.specs.Prelude.{ℕ};

    ghost Value = { ℕ };

    ghost view = { λ admitted. admitted.bytes };
}

/// A node, and what waits for it. Its own thread takes what waits, and sleeps until something
/// comes; another thread may take it, too, if it holds the node's lane. All but the number is under
/// locks, so no clause of a call says what waits, or what was shown.
#[derive(Drop)]
pub struct Peer<H: RunNaming> {
    /// The node's number.
    pub number: u8,
    // What others have for the node. It is this node's, but is under a lock, so no clause says that
    // (see `Outbox`): whoever locks it compares the numbers, which are always equal.
    outbox: Mutex<Outbox<H>>,
    // Its intake budget, and its status after its last change.
    intake: Mutex<Intake>,
    // The status in which it opens, shown until it is served.
    opens_with: Status,
    // True once the order to crash was queued for it.
    is_crash_ordered: Mutex<bool>,
    waker: Waker,
}

impl<H: RunNaming> Model for Peer<H> {
    ghost use Rattle.post.specs.Numbers.{PeerView};

    ghost Value = { PeerView };

    ghost view = { λ peer. record { number = peer.number } };
}

impl<H: RunNaming> Peer<H> {
    /// Returns the node of this number, for which nothing waits, and which is not served yet; it
    /// opens in ballot 1 of this configuration. `opening` is the run's log as it opened.
    pub(crate) fn new(alloc: Global, number: u8, config: &Config, opening: SeenRun<H>) -> Peer<H>
        ensures { result ≡ record { number = number } }
    {
        Peer {
            number,
            outbox: Mutex::new(Outbox::new(alloc, number, opening)),
            intake: Mutex::new(Intake::new()),
            opens_with: opening_status(number, config),
            is_crash_ordered: Mutex::new(false),
            waker: Waker::new(),
        }
    }

    /// Queues an order of the program for the node, and wakes it if the order is urgent. Returns
    /// false if it is lost: memory ran out, there was no room, or the outbox were another node's
    /// (see `Outbox`).
    pub(crate) fn queue_order<R: Wait>(&self, rt: &R, order: Item) -> bool
        requires { IsOrder order }
    {
        let urgent = is_urgent(&order);
        let is_queued = self.push_order(rt, order);
        if urgent {
            self.waker.wake(rt);
        }
        is_queued
    }

    /// Queues a message of another node, and wakes nobody: its giver does that, or has it taken,
    /// once it has released its own node's lock. Without room or memory the message is lost, as the
    /// protocol allows.
    pub(crate) fn queue_addressed<R: Wait>(&self, rt: &R, addressed: AddressedMessage<H>)
        requires { addressed.receiver ≡ self.now.number }
    {
        let mut outbox = self.outbox.lock(rt);
        // The numbers are always equal: the outbox is this node's (see `Peer::outbox`).
        if outbox.number() == self.number {
            let _ = addressed.queue_in(&mut outbox);
        } else {
            addressed.lose_at(&outbox);
        }
    }

    /// Queues the order to crash. Returns false if it was queued before. Fails if memory runs out:
    /// then it is not queued.
    pub(crate) fn queue_crash<R: Wait>(&self, rt: &R) -> Result<bool, Memory> {
        let mut is_ordered = self.is_crash_ordered.lock(rt);
        if *is_ordered {
            return Ok(false);
        }
        if !self.queue_order(rt, Item::Crash) {
            return Err(Memory);
        }
        *is_ordered = true;
        Ok(true)
    }

    /// Queues the order to end a client's session. Fails if memory runs out: then it is not queued.
    pub(crate) fn queue_expel<R: Wait>(&self, rt: &R, client: &ClientId) -> Result<(), Memory> {
        if self.queue_order(rt, Item::Expel(client.clone()?)) {
            Ok(())
        } else {
            Err(Memory)
        }
    }

    /// Assigns the master's next ballot to a configuration whose primary is this node, queues the
    /// master's message, and wakes the node.
    pub(crate) fn assign<R: Wait>(
        &self,
        rt: &R,
        alloc: Global,
        master: &Mutex<MessagingMaster<H>>,
        config: Config,
    ) -> Result<u64, OrderError>
        requires { config.primary ≡ self.now.number }
        ensures given { IfOk result (λ ballot. MayGet config ballot) }
        ensures bad { IsErrOf result (OrderError.Refused AssignError.BadMembers)
            → is_lawful max_node config.members config.primary ≡ false }
        ensures spent { IsErrOf result (OrderError.Refused AssignError.BallotsSpent)
            → is_lawful max_node config.members config.primary ≡ true }
    {
        let ballot = self.assign_locked(rt, alloc, master, config);
        self.waker.wake(rt);
        ballot
    }

    // Does what `assign` does, except that it does not wake the node.
    fn assign_locked<R: Wait>(
        &self,
        rt: &R,
        alloc: Global,
        master: &Mutex<MessagingMaster<H>>,
        config: Config,
    ) -> Result<u64, OrderError>
        requires { config.primary ≡ self.now.number }
        ensures given { IfOk result (λ ballot. MayGet config ballot) }
        ensures bad { IsErrOf result (OrderError.Refused AssignError.BadMembers)
            → is_lawful max_node config.members config.primary ≡ false }
        ensures spent { IsErrOf result (OrderError.Refused AssignError.BallotsSpent)
            → is_lawful max_node config.members config.primary ≡ true }
    {
        let mut master = master.lock(rt);
        let mut outbox = self.outbox.lock(rt);
        // The numbers are always equal: the outbox is this node's (see `Peer::outbox`).
        if outbox.number() != self.number {
            return Err(OrderError::Memory);
        }
        outbox.assign(rt, alloc, &mut master, config)
    }

    /// Queues an answer of the master, and wakes the node. Without memory the answer is lost.
    pub(crate) fn queue_answer<R: Wait>(&self, rt: &R, answer: Answer<H>)
        requires { answer.receiver ≡ self.now.number }
    {
        self.push_answer(rt, answer);
        self.waker.wake(rt);
    }

    // Puts an answer of the master into the node's outbox.
    fn push_answer<R: Wait>(&self, rt: &R, answer: Answer<H>)
        requires { answer.receiver ≡ self.now.number }
    {
        let mut outbox = self.outbox.lock(rt);
        // The numbers are always equal: the outbox is this node's (see `Peer::outbox`).
        if outbox.number() == self.number {
            let _ = outbox.queue_answer(answer);
        } else {
            answer.lose_at(&outbox);
        }
    }

    // Puts an order into the node's outbox. Returns false if it is lost.
    fn push_order<R: Wait>(&self, rt: &R, order: Item) -> bool
        requires { IsOrder order }
    {
        let mut outbox = self.outbox.lock(rt);
        // The numbers are always equal: the outbox is this node's (see `Peer::outbox`).
        outbox.number() == self.number && outbox.queue_order(order)
    }

    /// Takes all that waits, in order. The clause says only that each item is one that may wait
    /// for this node.
    pub fn take_waiting<R: Wait>(&self, rt: &R, alloc: Global) -> Vec<SentItem<H>>
        ensures { Each (IsQueued H.linked H.nodes H.config self.now.number) result.items }
    {
        let mut outbox = self.outbox.lock(rt);
        // The numbers are always equal: the outbox is this node's (see `Peer::outbox`).
        if outbox.number() != self.number {
            return Vec::new(alloc);
        }
        outbox.take(alloc)
    }

    /// Returns true if something waits for the node.
    pub fn is_wanted<R: Wait>(&self, rt: &R) -> bool {
        !self.outbox.lock(rt).is_empty()
    }

    /// Returns true if the calling thread should do this node's turn: an urgent item waits, few
    /// wait in all, and the node's own thread sleeps. If many wait, wakes that thread instead.
    pub fn ask_for_help<R: Wait>(&self, rt: &R) -> bool {
        let waiting = self.urgency(rt);
        if waiting.is_urgent && waiting.is_long {
            self.waker.wake(rt);
            return false;
        }
        waiting.is_urgent && self.waker.is_asleep(rt)
    }

    fn urgency<R: Wait>(&self, rt: &R) -> Urgency {
        let outbox = self.outbox.lock(rt);
        Urgency {
            is_urgent: outbox.is_urgent(),
            is_long: outbox.is_long(),
        }
    }

    /// Wakes the node's own thread, if something urgent waits.
    pub(crate) fn wake_if_urgent<R: Wait>(&self, rt: &R) {
        if self.urgency(rt).is_urgent {
            self.waker.wake(rt);
        }
    }

    /// Wakes the node's own thread, if it sleeps or is about to.
    pub fn wake<R: Wait>(&self, rt: &R) {
        self.waker.wake(rt);
    }

    /// Notes that the node's own thread is about to sleep. Returns true if something waits already:
    /// then it should not sleep.
    pub fn doze<R: Wait>(&self, rt: &R) -> bool {
        self.waker.doze(rt);
        self.is_wanted(rt)
    }

    /// Sleeps until the node is woken, or until `time` has passed.
    pub fn sleep<R: Wait>(&self, rt: &R, time: Duration) {
        self.waker.sleep(rt, time);
    }

    /// Shows the node's status to the other nodes. Whoever changes the node calls this before it
    /// releases the node's lock.
    pub fn show<R: Wait>(&self, rt: &R, status: Status) {
        self.intake.lock(rt).show(status);
    }

    /// Reserves `bytes` of the node's intake budget, if any is left. None is while too much of what
    /// the node took is not agreed, so what waits for a member that lags is bounded. No clause says
    /// when some is left.
    pub fn admit<R: Wait>(&self, rt: &R, bytes: u64) -> Option<AdmittedBytes>
        requires { bytes ≤ PIECE_BYTES }
        ensures { IfSome result (λ admitted. admitted ≡ bytes) }
    {
        if self.intake.lock(rt).admit(bytes) {
            Some(AdmittedBytes { bytes })
        } else {
            None
        }
    }

    /// Counts reserved bytes, if there are any, as taken.
    pub fn count_taken<R: Wait>(&self, rt: &R, admitted: Option<AdmittedBytes>) {
        match admitted {
            Some(AdmittedBytes { bytes }) => self.intake.lock(rt).count_taken(bytes),
            None => {}
        }
    }

    /// Returns the status that the node showed last, or the one in which it opens, before it is
    /// served. No clause says so.
    pub(crate) fn status<R: Wait>(&self, rt: &R) -> Status {
        self.intake.lock(rt).status().unwrap_or(self.opens_with)
    }
}
