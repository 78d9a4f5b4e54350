// The way to a node of another program, or to the master.
//
// All that waits there is under one lock, held for one call: the thread that does the node's step
// only pushes, and waits for no socket. The thread that carries to the links takes all at once. It
// says the number that the connection was made with, so what was sent to one life of a node is never
// written to another. It is told once that something urgent waits, and not again before it takes:
// while a link is down or slow, nobody is woken for what cannot leave.

ghost use Rattle.std.specs.Prelude.{◌≡◌, IfSome};
ghost use Rattle.lists.specs.Lists.{Each};
ghost use Rattle.post.specs.Linked.{IsSentTo};

use crate::addressed_message::AddressedMessage;
use crate::linked::route_queue::RouteQueue;
use broker_spec::Command;
use links::link_queue::{LogName, Waiting};
use run_history::{RunNaming, SeenRun};
use std::alloc::Global;
use std::marker::Model;
use std::sync::{Mutex, Wait};

/// What waits for the node of a row, or for the master. It is under a lock, so no clause of a call
/// says what waits.
#[derive(Drop)]
pub struct Route<H: RunNaming> {
    // The row of the table, counted from 0; none for the master.
    row: Option<usize>,
    queue: Mutex<RouteQueue<H>>,
}

impl<H: RunNaming> Model for Route<H> {
    ghost use Rattle.std.specs.Prelude.{ℕ, Option};

    ghost Value = { Option ℕ };

    ghost view = { λ route. route.row };
}

impl<H: RunNaming> Route<H> {
    /// Returns the route of a link that never came up, to the node of this row, or to the master.
    /// `opening` is the run's log as it opened.
    pub(crate) fn new(alloc: Global, row: Option<usize>, opening: SeenRun<H>) -> Route<H>
        ensures { result ≡ row }
    {
        Route {
            row,
            queue: Mutex::new(RouteQueue::new(alloc, opening)),
        }
    }

    /// Returns the row of the table to whose node it leads, counted from 0; none for the master.
    pub fn row(&self) -> Option<usize>
        ensures { result ≡ self.now }
    {
        self.row
    }

    /// Notes that the link came up with the node of this number; 0 is the master. If it is another
    /// one than before, what waited is dropped. Logs that were in transit may be queued again.
    pub fn meet<R: Wait>(&self, rt: &R, number: u8) {
        self.queue.lock(rt).meet(number);
    }

    /// Notes that the link to the node of this number broke: logs that were in transit may be
    /// queued again. Does nothing if the route leads to another node by now.
    pub fn part<R: Wait>(&self, rt: &R, number: u8) {
        let mut queue = self.queue.lock(rt);
        if queue.leads_to(number) {
            queue.part();
        }
    }

    /// Takes all that waits for the node of this number, in order. Returns none if the route leads
    /// to another node by now: then the connection has to end.
    pub fn take<R: Wait>(&self, rt: &R, alloc: Global, number: u8) -> Option<Vec<Waiting<Command>>>
        ensures { IfSome result (λ taken.
            Each (IsSentTo H.linked H.nodes H.config number) taken.items) }
    {
        let mut queue = self.queue.lock(rt);
        if queue.leads_to(number) {
            Some(queue.take(alloc, number))
        } else {
            None
        }
    }

    /// Notes that a log which was taken has left for the node of this number: another of its kind
    /// and ballot may be queued. Does nothing if the route leads to another node by now.
    pub fn sent<R: Wait>(&self, rt: &R, number: u8, name: LogName) {
        let mut queue = self.queue.lock(rt);
        if queue.leads_to(number) {
            queue.sent(name);
        }
    }

    /// Returns how many messages were dropped (saturates at 2^64 - 1).
    pub fn dropped<R: Wait>(&self, rt: &R) -> u64 {
        self.queue.lock(rt).dropped()
    }

    /// Returns true if a message waits for which the thread that takes is to be woken, which all are
    /// but a Commit, and no call told so since it took last.
    pub(crate) fn tell<R: Wait>(&self, rt: &R) -> bool {
        self.queue.lock(rt).tell()
    }

    /// Queues a message, if the link leads to its receiver; without room or memory it is lost, as
    /// the protocol allows. Otherwise returns it.
    pub(crate) fn offer<R: Wait>(
        &self,
        rt: &R,
        addressed: AddressedMessage<H>,
    ) -> Option<AddressedMessage<H>>
        ensures { IfSome result (λ back. back ≡ addressed) }
    {
        let mut queue = self.queue.lock(rt);
        if !queue.leads_to(addressed.receiver()) {
            return Some(addressed);
        }
        let _ = addressed.queue_at(&mut queue);
        None
    }
}
