// The nodes of a program, and their master.
//
// The order of locks: a node's state, then the master, then `is_crash_ordered`, an outbox, the
// intake and the waker of a peer; of each at most one at a time. What a node's steps gave is queued
// while the lock of its state is held, so messages keep the order of the steps (`queue_given` takes
// the state as evidence). A node that gets a message of another one is not woken under that lock:
// the giver has it taken, or wakes it, after it has released its own node. The receiver of an
// answer of the master is woken at once, under that lock. A message that finds no room or no memory
// is lost, as the protocol allows; orders fail with an error instead. The master has no thread: it
// only answers, and whoever asks takes its lock.

ghost use Rattle.std.specs.Prelude.{◌≡◌, ◌≤◌, ◌&&◌, IfOk, IfSome, IsErrOf, None, Ok, OnOk, false, is_some, length, nat_lt, true};
ghost use Rattle.ballot_base.specs.LawfulConfig.{is_lawful, max_node};
ghost use Rattle.lists.specs.Lists.{has_id};
ghost use Rattle.post.specs.outbox.Given.{IsMasterNumber};
ghost use Rattle.post.specs.outbox.MasterAnswers.{MayGet};
ghost use Rattle.post.specs.Numbers.{are_nodes, is_node, peer_numbers};

use crate::addressed_message::AddressedMessage;
use crate::given_effects::{GivenEffects, Receivers, queue_all};
use crate::outbox::{Answer, MessagingMaster, OrderError};
use crate::peer::Peer;
use crate::recipients::{Shown, primary_of};
use ballot_base::{Config, MASTER, Status};
use machine::Memory;
use master::AssignError;
use node::{NodeNaming, NodeState};
use packet_base::ClientId;
use run_history::{MasterOnRecord, RunNaming, SeenRun};
use std::alloc::Global;
use std::marker::Model;
use std::sync::{Mutex, Wait};
use std::thread;
use std::time::{Clock, Duration, Instant};

/// How long a thread sleeps between two looks at the status of a node that is to crash, in
/// milliseconds.
const NODE_LOOK_MILLIS: u64 = 1;

/// The deadline of a crash that was ordered, in milliseconds.
const STOP_MILLIS: u64 = 40;

/// The most looks for the crash before that deadline.
const STOP_LOOKS: u32 = 40;

/// The nodes that serve in one program, with their outboxes, and the master that gives ballots
/// their configurations. Outboxes and master are under locks, so no clause of a call says what is
/// queued, or what changes.
#[derive(Drop)]
pub struct Cluster<H: RunNaming> {
    // In the order in which their numbers were given.
    nodes: Vec<Peer<H>>,
    // Answers orders and nodes, one at a time.
    master: Mutex<MessagingMaster<H>>,
    alloc: Global,
}

impl<H: RunNaming> Model for Cluster<H> {
    ghost use Rattle.std.specs.Prelude.{ℕ, List};
    ghost use Rattle.post.specs.Numbers.{peer_numbers};

    ghost Value = { List ℕ };

    ghost view = { λ cluster. peer_numbers cluster.nodes.items };
}

impl<H: RunNaming> Cluster<H> {
    /// Returns the nodes of these numbers, which open in ballot 1 of this configuration, and the
    /// master of their run, which has given that ballot. `opening` is the run's log as it opened.
    /// The only error is that memory ran out.
    pub fn new(
        alloc: Global,
        numbers: &[u8],
        config: &Config,
        master: MasterOnRecord<H>,
        opening: &SeenRun<H>,
    ) -> Result<Cluster<H>, Memory>
        requires given { 1 ≤ master.state.given }
        requires numbers { master.state.greatest ≡ max_node }
        ensures { IfOk result (λ cluster. cluster ≡ numbers.now) }
    {
        let nodes = peers_of(alloc, numbers, config, opening)?;
        Ok(Cluster {
            nodes,
            master: Mutex::new(MessagingMaster::new(master)),
            alloc,
        })
    }

    /// Returns the master as the run has it on record, once nobody asks it any more.
    pub fn into_master(self) -> MasterOnRecord<H> {
        let Cluster { master, .. } = self;
        master.into_inner().into_record()
    }

    /// Assigns the next ballot to a configuration, and queues the order for its primary. Returns
    /// the ballot, which becomes active once each of its members holds all that was agreed. Fails
    /// with `BadMembers` for members that no ballot may have, and for one that is no node here. If
    /// memory runs out, nothing changes, which no clause says.
    pub fn assign<R: Wait>(&self, rt: &R, config: Config) -> Result<u64, OrderError>
        ensures given { IfOk result (λ ballot. MayGet config ballot) }
        ensures nodes { OnOk result (are_nodes self.now config.members ≡ true) }
        ensures bad { IsErrOf result (OrderError.Refused AssignError.BadMembers)
            → (is_lawful max_node config.members config.primary
            && are_nodes self.now config.members)
            ≡ false }
        ensures spent { IsErrOf result (OrderError.Refused AssignError.BallotsSpent)
            → (is_lawful max_node config.members config.primary
            && are_nodes self.now config.members)
            ≡ true }

        // A member that is no node has this answer whether or not there is memory.
        ensures stranger { are_nodes self.now config.members ≡ false
            → IsErrOf result (OrderError.Refused AssignError.BadMembers) }
    {
        if !self.has_all(config.members.as_slice()) {
            return Err(OrderError::Refused(AssignError::BadMembers));
        }
        match self.node(config.primary) {
            Some(node) => node.assign(rt, self.alloc, &self.master, config),
            None => Err(OrderError::Refused(AssignError::BadMembers)),
        }
    }

    /// Crashes a node, for good. Returns false if no node of this number is served, if it has
    /// crashed, or if this was ordered before. Queues the order, and waits until the node has
    /// crashed, at most [`STOP_MILLIS`] (40 ms) and one look more. Fails only if memory runs out:
    /// then the node is not crashed. The clause covers only a number that no node has.
    pub fn crash<R: Wait + Clock>(&self, rt: &R, number: u8) -> Result<bool, Memory>
        ensures none { is_node self.now number ≡ false → result ≡ Ok false }
    {
        let Some(node) = self.node(number) else {
            return Ok(false);
        };
        if node.status(rt).stopped || !node.queue_crash(rt)? {
            return Ok(false);
        }
        await_stop(rt, node);
        Ok(true)
    }

    /// Queues the order to end a client's session for the active primary of the highest ballot that
    /// has not crashed, by what each node showed last: no node is asked. Returns false if there is
    /// none. If memory runs out, nothing is queued. No clause says any of this.
    pub fn expel<R: Wait>(&self, rt: &R, client: &ClientId) -> Result<bool, Memory> {
        let shown = self.shown(rt)?;
        let Some(number) = primary_of(shown.as_slice()) else {
            return Ok(false);
        };
        let Some(node) = self.node(number) else {
            return Ok(false);
        };
        node.queue_expel(rt, client)?;
        Ok(true)
    }

    // Returns the status that each node showed last.
    fn shown<R: Wait>(&self, rt: &R) -> Result<Vec<Shown>, Memory> {
        let mut shown = Vec::with_capacity(self.alloc, self.nodes.len())?;
        for node in &self.nodes {
            shown.push(Shown {
                number: node.number,
                status: node.status(rt),
            })?;
        }
        Ok(shown)
    }

    /// Returns the status that a node showed last; before it is served, that in which it opens.
    /// Returns none exactly if no node has this number.
    pub fn status<R: Wait>(&self, rt: &R, number: u8) -> Option<Status>
        ensures { is_some result ≡ is_node self.now number }
    {
        let node = self.node(number)?;
        Some(node.status(rt))
    }

    /// Returns true if there are several nodes.
    pub fn are_several(&self) -> bool
        ensures { result ≡ nat_lt 1 (length self.now) }
    {
        self.nodes.len() > 1
    }

    fn has_all(&self, numbers: &[u8]) -> bool
        ensures { result ≡ are_nodes self.now numbers.now }
    {
        numbers.iter().all(|number| self.has(*number))
    }

    fn has(&self, number: u8) -> bool
        ensures { result ≡ is_node self.now number }
    {
        self.node(number).is_some()
    }

    /// Returns the node of this number.
    pub fn node(&self, number: u8) -> Option<&Peer<H>>
        ensures some { IfSome result (λ node. node.now.number ≡ number) }
        ensures is { is_some result ≡ is_node self.now number }
        ensures none { result ≡ None → has_id number self.now ≡ false }
    {
        self.nodes.iter().find(|node| node.number == number)
    }

    /// Queues what a node's steps gave for others, in order. `giver` is that node's state, as
    /// evidence that the caller holds its lock, so messages keep the order of the steps. A message
    /// for a number that no node has is lost. No receiver is woken for a message of a node: the
    /// caller has it taken, or calls [`Cluster::wake_urgent`], once it has released the lock. No
    /// clause says that a message waits in an outbox afterwards.
    pub fn queue_given<J: NodeNaming, R: Wait>(
        &self,
        rt: &R,
        giver: &NodeState<H, J>,
        given: GivenEffects<H>,
    ) {
        // Evidence alone: nothing of it is read.
        let _ = giver;
        queue_all(rt, &mut NodesAndMaster { cluster: self }, given);
    }

    /// Wakes the own thread of each node for which something urgent waits.
    pub fn wake_urgent<R: Wait>(&self, rt: &R) {
        for node in &self.nodes {
            node.wake_if_urgent(rt);
        }
    }

    // Queues a node's message for another node.
    fn queue<R: Wait>(&self, rt: &R, addressed: AddressedMessage<H>)
        requires { IsMasterNumber addressed.receiver → ⊥ }
    {
        match self.node(addressed.receiver()) {
            Some(node) => node.queue_addressed(rt, addressed),
            None => addressed.lose(self),
        }
    }

    // Passes a node's message to the master, and queues the answer.
    fn ask_master<R: Wait>(&self, rt: &R, addressed: AddressedMessage<H>)
        requires { IsMasterNumber addressed.receiver }
    {
        match self.answer(rt, addressed) {
            Some(answer) => self.queue_answer(rt, answer),
            None => {}
        }
    }

    // Returns the master's answer to a node's message.
    fn answer<R: Wait>(&self, rt: &R, addressed: AddressedMessage<H>) -> Option<Answer<H>>
        requires { IsMasterNumber addressed.receiver }
    {
        let mut master = self.master.lock(rt);
        addressed.ask(rt, &mut master)
    }

    // Queues an answer of the master for its receiver, and wakes that.
    fn queue_answer<R: Wait>(&self, rt: &R, answer: Answer<H>) {
        match self.node(answer.receiver()) {
            Some(node) => node.queue_answer(rt, answer),
            None => self.lose(answer),
        }
    }

    // Drops an answer of the master: no node has its receiver's number.
    fn lose(&self, answer: Answer<H>)
        requires { has_id answer.receiver self.now ≡ false }
    {
        let _lost = answer.into_sent();
    }
}

// Waits until a node has crashed or the deadline has passed. Each look sleeps a millisecond, and on
// a busy machine longer, so mostly the deadline ends it, not the number of looks.
fn await_stop<H: RunNaming, R: Wait + Clock>(rt: &R, node: &Peer<H>) {
    let Ok(start) = Instant::now(rt) else {
        return;
    };
    for _ in 0..STOP_LOOKS {
        if has_stopped(rt, node) || had_its_time(rt, start) {
            return;
        }
        thread::sleep(rt, Duration::from_millis(NODE_LOOK_MILLIS));
    }
}

fn has_stopped<H: RunNaming, R: Wait>(rt: &R, node: &Peer<H>) -> bool {
    node.status(rt).stopped
}

// Returns true once the deadline of a crash has passed, counted from `start`, or if the clock
// cannot be read.
fn had_its_time<R: Clock>(rt: &R, start: Instant) -> bool {
    match start.elapsed(rt) {
        Ok(time) => time.as_millis() >= u128::from(STOP_MILLIS),
        Err(_) => true,
    }
}

fn peers_of<H: RunNaming>(
    alloc: Global,
    numbers: &[u8],
    config: &Config,
    opening: &SeenRun<H>,
) -> Result<Vec<Peer<H>>, Memory>
    ensures { IfOk result (λ nodes. peer_numbers nodes.items ≡ numbers.now) }
{
    let mut nodes = Vec::with_capacity(alloc, numbers.len())?;
    for number in numbers {
        nodes.push(Peer::new(alloc, *number, config, opening.again()))?;
    }
    Ok(nodes)
}

// The nodes and the master, as receivers of messages.
#[derive(Drop)]
struct NodesAndMaster<'a, H: RunNaming> {
    cluster: &'a Cluster<H>,
}

impl<'a, H: RunNaming> Receivers<AddressedMessage<H>> for NodesAndMaster<'a, H> {
    // It queues under the locks of outboxes, of which no clause speaks.
    ghost queues = { λ _ _ _. Unit {0} };

    fn queue<R: Wait>(&mut self, rt: &R, addressed: AddressedMessage<H>)
        ensures { Unit {0} }
    {
        let cluster = self.cluster;
        if addressed.receiver() == MASTER {
            cluster.ask_master(rt, addressed);
        } else {
            cluster.queue(rt, addressed);
        }
    }
}
