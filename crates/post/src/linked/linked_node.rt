// A node whose other nodes and master are in other programs.
//
// The order of locks is that of `Cluster`, with a route in place of an outbox of another node, and
// what links bring in place of the master: it is locked while no other lock is held. What the
// node's steps gave is queued while its state is locked, so messages keep the order of the steps.
// Nothing is written there, and nobody is woken. The thread that carries to the links is woken once
// that lock is released. It looks at all routes before it sleeps, and a wake-up that comes before
// the sleep ends that at once, so none is lost.

ghost use Rattle.std.specs.Prelude.{◌≡◌, IfOk, IfSome, None, Some, is_some, nat_lt};
ghost use Rattle.post.specs.Linked.{LinkedView, rows_of};

use crate::addressed_message::AddressedMessage;
use crate::given_effects::{GivenEffects, Receivers, queue_all};
use crate::linked::hurry::Hurry;
use crate::linked::route::Route;
use crate::peer::Peer;
use ballot_base::{Config, MASTER, Message, Status};
use broker_spec::Command;
use machine::Memory;
use node::{NodeNaming, NodeState};
use packet_base::ClientId;
use run_history::{LinksOnRecord, RunNaming, SeenRun, SentMessage};
use std::alloc::Global;
use std::marker::Model;
use std::sync::{Arc, Mutex, Wait};
use std::thread::Parker;

/// A node whose other nodes and master are in other programs: the node as its links see it, a route
/// to the node of each row of the cluster's table, and one to the master. What waits is under
/// locks, so no clause of a call says what is queued.
#[derive(Drop)]
pub struct LinkedNode<H: RunNaming> {
    peer: Peer<H>,
    // Puts what links bring on record.
    links: Mutex<LinksOnRecord<H>>,
    // In the order of the table.
    rows: Vec<Route<H>>,
    master: Route<H>,
    // Wakes the thread that carries to the links.
    carrier: Arc<Parker, Global>,
    // How much longer it hurries.
    hurry: Mutex<Hurry>,
}

impl<H: RunNaming> Model for LinkedNode<H> {
    ghost use Rattle.std.specs.Prelude.{◌≡◌, None, length};
    ghost use Rattle.post.specs.Linked.{LinkedView, rows_of};

    ghost Value = { LinkedView };

    ghost view = { λ node. record { number = node.peer.number; rows = length node.rows.items } };

    ghost invariant = { λ node.
        (node.rows.items ≡ rows_of (length node.rows.items)) × (node.master ≡ None) };
}

impl<H: RunNaming> LinkedNode<H> {
    /// Returns the node of this number, which opens in ballot 1 of this configuration, with a route
    /// to each of so many rows. No link has come up. `opening` is the run's log as it opened, and
    /// `carrier` wakes the thread that carries to the links. The only error is that memory ran out.
    pub fn new(
        alloc: Global,
        number: u8,
        config: &Config,
        rows: usize,
        links: LinksOnRecord<H>,
        opening: &SeenRun<H>,
        carrier: &Arc<Parker, Global>,
    ) -> Result<LinkedNode<H>, Memory>
        ensures { IfOk result (λ node. node ≡ record { number = number; rows = rows }) }
    {
        let rows = routes_of(alloc, rows, opening)?;
        let master = Route::new(alloc, None, opening.again());
        Ok(LinkedNode {
            peer: Peer::new(alloc, number, config, opening.again()),
            links: Mutex::new(links),
            rows,
            master,
            carrier: Arc::try_clone(carrier)?,
            hurry: Mutex::new(Hurry::ended()),
        })
    }

    /// Returns the node's number.
    pub fn number(&self) -> u8
        ensures { result ≡ self.now.number }
    {
        self.peer.number
    }

    /// Returns how many rows the table has.
    pub fn rows(&self) -> usize
        ensures { result ≡ self.now.rows }
    {
        self.rows.len()
    }

    /// Returns the route to the node of a row, counted from 0.
    pub fn row(&self, index: usize) -> Option<&Route<H>>
        ensures is { is_some result ≡ nat_lt index self.now.rows }
        ensures its { IfSome result (λ route. route.now ≡ Some index) }
    {
        self.rows.get(index)
    }

    /// Returns the route to the master.
    pub fn master(&self) -> &Route<H>
        ensures { result.now ≡ None }
    {
        &self.master
    }

    /// Returns the node as its own threads see it.
    pub fn peer(&self) -> &Peer<H>
        ensures { result.now.number ≡ self.now.number }
    {
        &self.peer
    }

    /// Puts a message that a link has read on record, queues it for the node, and wakes the node's
    /// own thread, if the message is urgent. Without room or memory it is lost, as the protocol
    /// allows. No clause says that it waits in the outbox afterwards.
    pub fn bring<R: Wait>(&self, rt: &R, message: Message<Command>) {
        let sent = self.put_on_record(rt, message);
        self.peer.queue_addressed(rt, AddressedMessage::new(sent));
        self.peer.wake_if_urgent(rt);
    }

    fn put_on_record<R: Wait>(&self, rt: &R, message: Message<Command>) -> SentMessage<H>
        ensures { result.receiver ≡ self.now.number }
    {
        self.links.lock(rt).bring(rt, self.peer.number, message)
    }

    /// Returns the status that the node showed last; before it is served, that in which it opens.
    pub fn status<R: Wait>(&self, rt: &R) -> Status {
        self.peer.status(rt)
    }

    /// Lets the node hurry, as a link has come up again: what was in transit on it may be lost, and a
    /// primary repeats one place a tick. It hurries while more of what it holds now is agreed, and
    /// for some thousand ticks after that. No clause says so.
    pub fn hurry<R: Wait>(&self, rt: &R) {
        let status = self.peer.status(rt);
        *self.hurry.lock(rt) = Hurry::since(status);
        self.peer.wake(rt);
    }

    /// Returns true if the node is to tick at once: it hurries, and is an active primary of which
    /// not all places are agreed. Counts that as a hurried tick.
    pub(crate) fn hurries<R: Wait>(&self, rt: &R) -> bool {
        let mut hurry = self.hurry.lock(rt);
        if !hurry.is_on() {
            return false;
        }
        *hurry = hurry.after_tick(self.peer.status(rt));
        hurry.is_on()
    }

    /// Queues the order to crash. Returns false if it was queued before. Fails if memory runs out:
    /// then it is not queued.
    pub fn crash<R: Wait>(&self, rt: &R) -> Result<bool, Memory> {
        self.peer.queue_crash(rt)
    }

    /// Queues the order to end a client's session. Fails if memory runs out: then it is not queued.
    pub fn expel<R: Wait>(&self, rt: &R, client: &ClientId) -> Result<(), Memory> {
        self.peer.queue_expel(rt, client)
    }

    /// Queues what the node's steps gave for others, in order. `giver` is the node's state, as
    /// evidence that the caller holds its lock. A message for a number to which no route leads is
    /// lost. Nobody is woken: the caller calls [`LinkedNode::wake_urgent`], once it has released
    /// the lock. No clause says that a message waits for a link afterwards.
    pub fn queue_given<J: NodeNaming, R: Wait>(
        &self,
        rt: &R,
        giver: &NodeState<H, J>,
        given: GivenEffects<H>,
    ) {
        // Evidence alone: nothing of it is read.
        let _ = giver;
        queue_all(rt, &mut NodeAndRoutes { node: self }, given);
    }

    /// Wakes the node's own thread and the thread that carries to the links, if something urgent
    /// waits for them.
    pub fn wake_urgent<R: Wait>(&self, rt: &R) {
        self.peer.wake_if_urgent(rt);
        self.wake_links(rt);
    }

    /// Wakes the thread that carries to the links, if something urgent waits of which it was not
    /// told. No lock may be held, since that may be a call of the system.
    pub(crate) fn wake_links<R: Wait>(&self, rt: &R) {
        let mut is_new = self.master.tell(rt);
        for route in &self.rows {
            is_new |= route.tell(rt);
        }
        if is_new {
            self.carrier.unpark();
        }
    }

    // Queues a message of the node for its receiver.
    fn queue<R: Wait>(&self, rt: &R, addressed: AddressedMessage<H>) {
        if addressed.receiver() == self.peer.number {
            self.peer.queue_addressed(rt, addressed);
        } else if addressed.receiver() == MASTER {
            self.queue_for_master(rt, addressed);
        } else {
            self.queue_away(rt, addressed);
        }
    }

    // Queues a message for the master, if its link came up once.
    fn queue_for_master<R: Wait>(&self, rt: &R, addressed: AddressedMessage<H>)
        requires { addressed.receiver ≡ self.now.number → ⊥ }
    {
        match self.master.offer(rt, addressed) {
            Some(back) => back.lose_away(self),
            None => {}
        }
    }

    // Queues a message at the route that leads to its receiver, if there is one.
    fn queue_away<R: Wait>(&self, rt: &R, addressed: AddressedMessage<H>)
        requires { addressed.receiver ≡ self.now.number → ⊥ }
    {
        let mut unsent = addressed;
        for route in &self.rows {
            match route.offer(rt, unsent) {
                Some(back) => unsent = back,
                None => return,
            }
        }
        unsent.lose_away(self);
    }
}

// Returns the routes to the nodes of so many rows.
fn routes_of<H: RunNaming>(
    alloc: Global,
    rows: usize,
    opening: &SeenRun<H>,
) -> Result<Vec<Route<H>>, Memory>
    ensures { IfOk result (λ routes. routes.items ≡ rows_of rows) }
{
    let mut routes = Vec::with_capacity(alloc, rows)?;
    for row in 0..rows {
        routes.push(Route::new(alloc, Some(row), opening.again()))?;
    }
    Ok(routes)
}

// The node itself and its routes, as receivers of messages.
#[derive(Drop)]
struct NodeAndRoutes<'a, H: RunNaming> {
    node: &'a LinkedNode<H>,
}

impl<'a, H: RunNaming> Receivers<AddressedMessage<H>> for NodeAndRoutes<'a, H> {
    // It queues under locks, of which no clause speaks.
    ghost queues = { λ _ _ _. Unit {0} };

    fn queue<R: Wait>(&mut self, rt: &R, addressed: AddressedMessage<H>)
        ensures { Unit {0} }
    {
        self.node.queue(rt, addressed);
    }
}
