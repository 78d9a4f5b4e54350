// What waits for one node.
//
// An outbox stands under a lock, and what is under a lock is known by its type alone. So the type
// says what no clause of a call could: the outbox's number, that each item may wait there (a message
// that was sent in the run to the node of this number, or an order), and that at most `MAX_WAITING`
// are messages of other nodes. Whoever locks one compares its number.
//
// Messages of nodes are lost if there is no room or memory; the protocol repeats them. An order
// that was answered is never lost: its memory is reserved first. A Held or Commit replaces the
// newest item if it says all that one said, so a row of them takes one slot. Only the newest is
// looked at, so the order of what waits never changes.

ghost use Rattle.std.specs.Prelude.{◌≡◌, ◌↔◌, ◌+◌, ◌++◌, ◌∷◌, [], Some, true, false, IfOk, IsErrOf, OnErr, OnOk};
ghost use Rattle.std.specs.List.{list_any};
ghost use Rattle.agreement.specs.MasterState.{refusal};
ghost use Rattle.agreement.specs.MasterState.AssignRefusal.{bad_members, ballots_spent};
ghost use Rattle.ballot_base.specs.LawfulConfig.{is_lawful, max_node};
ghost use Rattle.broker_spec.specs.declared.command.Command.{Command};
ghost use Rattle.lists.specs.Lists.{Each, In};
ghost use Rattle.run_history.specs.Log.{sent_in};
ghost use Rattle.world_base.specs.declared.node_core.item.Item.TheVariants.{Peer};
ghost use Rattle.agreement.specs.cut_logs.Masters.{assigned};
ghost use Rattle.post.specs.outbox.Queued.{IsOrder, IsPosted, IsQueued};
ghost use Rattle.post.specs.outbox.MasterAnswers.{MayGet, message_of};
ghost use Rattle.post.specs.outbox.Replacement.{newest_item, still_waiting, replaces_one};
ghost use Rattle.post.specs.outbox.WaitingItems.{AreUnchanged, may_be_queued, is_of_node};
ghost use Rattle.post.specs.outbox.Urgency.{is_long, wakes};

use crate::outbox::messaging_master::{Answer, MessagingMaster};
use crate::outbox::order_error::OrderError;
use crate::outbox::replacement::replaces;
use crate::outbox::urgency::is_any_urgent;
use ballot_base::{Config, MASTER};
use master::AssignError;
use run_history::{RunNaming, SeenRun, SentItem, SentMessage};
use std::alloc::Global;
use std::marker::Model;
use std::mem;
use std::sync::Wait;
use world_base::node_core::Item;

/// A message of another node is queued only while fewer items than this wait.
const MAX_WAITING: usize = 524_288;

/// Up to this many items are taken by the thread that queued one of them; more by the node's own
/// thread, which is woken.
const MAX_HELPED: usize = 16;

/// The items that other nodes and the master have for a node, in the order in which they were
/// queued.
#[derive(Drop)]
pub struct Outbox<H: RunNaming> {
    number: u8,
    // Oldest first; at most `MAX_WAITING` of them are messages of other nodes.
    items: Vec<SentItem<H>>,
    // A prefix of the run's log, in which each message that waits was sent to this node.
    seen: SeenRun<H>,
}

impl<H: RunNaming> Model for Outbox<H> {
    ghost use Rattle.run_history.specs.Log.{sent_in};
    ghost use Rattle.post.specs.outbox.WaitingItems.{OutboxView, Waits};

    ghost Value = { OutboxView };

    ghost view = { λ outbox. record { number = outbox.number; items = outbox.items.items } };

    ghost invariant = { λ outbox.
        Waits (sent_in outbox.seen) outbox.number outbox.items.items };
}

impl<H: RunNaming> Outbox<H> {
    /// Returns the empty outbox of the node of this number. `opening` is the run's log as it opened.
    pub fn new(alloc: Global, number: u8, opening: SeenRun<H>) -> Outbox<H>
        ensures { result ≡ record { number = number; items = [] } }
    {
        Outbox {
            number,
            items: Vec::new(alloc),
            seen: opening,
        }
    }

    /// Returns the number of the node.
    pub fn number(&self) -> u8
        ensures { result ≡ self.now.number }
    {
        self.number
    }

    /// Returns true if nothing waits.
    pub fn is_empty(&self) -> bool
        ensures { (result ≡ true) ↔ (self.now.items ≡ []) }
    {
        self.items.is_empty()
    }

    /// Returns true if an item waits for which the node is to be woken. Few other items are passed
    /// over, since each replaces the one before it.
    pub fn is_urgent(&self) -> bool
        ensures { result ≡ list_any wakes self.now.items }
    {
        is_any_urgent(self.items.as_slice())
    }

    /// Returns true if so many items wait that the node's own thread should take them, in parallel
    /// to the giver.
    pub fn is_long(&self) -> bool
        ensures { result ≡ is_long self.now.items }
    {
        self.items.len() > MAX_HELPED
    }

    /// Queues a message for the node after all that waits, or in place of the newest if it replaces
    /// that one. Returns false if there was no room or memory: then the message is lost, and so is
    /// the one that it replaces.
    pub fn queue(&mut self, message: SentMessage<H>) -> bool
        requires { message.receiver ≡ self.old.number }
        ensures queued { result ≡ true →
            self.new ≡ record self.old {
              items = still_waiting (Peer message.message) self.old.items
                  ++ Peer message.message ∷ [];
            } }
        ensures lost { result ≡ false →
            self.new ≡ record self.old {
              items = still_waiting (Peer message.message) self.old.items;
            } }
        ensures full { may_be_queued (Peer message.message)
            (still_waiting (Peer message.message) self.old.items) ≡ false → result ≡ false }
    {
        let (item, known) = item_of(message);
        self.push(item, &known)
    }

    /// Queues an order of the program after all that waits. Returns false if there was no memory:
    /// then it is lost.
    pub fn queue_order(&mut self, order: Item) -> bool
        requires { IsOrder order }
        ensures queued { result ≡ true →
            self.new ≡ record self.old { items = self.old.items ++ order ∷ [] } }
        ensures lost { result ≡ false → self.new ≡ self.old }
    {
        let known = self.seen.again();
        let order = SentItem::new(self.number, order, known.again());
        self.push(order, &known)
    }

    /// Queues an answer of the master, as [`Outbox::queue`]. Returns false if there was no memory:
    /// then it is lost.
    pub fn queue_answer(&mut self, answer: Answer<H>) -> bool
        requires { answer.receiver ≡ self.old.number }
        ensures queued { result ≡ true →
            self.new ≡ record self.old {
              items = still_waiting (Peer answer.message) self.old.items
                  ++ Peer answer.message ∷ [];
            } }
        ensures lost { result ≡ false →
            self.new ≡ record self.old {
              items = still_waiting (Peer answer.message) self.old.items;
            } }
    {
        self.queue(answer.into_sent())
    }

    /// Assigns the master's next ballot to a configuration whose primary is this node, and queues
    /// the master's message. Memory for the message is reserved first, so an order that is answered
    /// is not lost. Returns the ballot.
    pub fn assign<R: Wait>(
        &mut self,
        rt: &R,
        alloc: Global,
        master: &mut MessagingMaster<H>,
        config: Config,
    ) -> Result<u64, OrderError>
        requires { config.primary ≡ self.old.number }
        ensures ballot { IfOk result (λ ballot. ballot ≡ master.old.given + 1) }
        ensures given { IfOk result (λ ballot. MayGet config ballot) }
        ensures queued { OnOk result (self.new ≡ record self.old {
          items = self.old.items
              ++ Peer (message_of (assigned Command master.old config)).message ∷ [];
        }) }
        ensures state { OnOk result (master.new ≡ (assigned Command master.old config).state) }
        ensures bad { IsErrOf result (OrderError.Refused AssignError.BadMembers)
            → refusal master.old config ≡ Some bad_members }
        ensures spent { IsErrOf result (OrderError.Refused AssignError.BallotsSpent)
            → refusal master.old config ≡ Some ballots_spent }
        ensures unlawful { IsErrOf result (OrderError.Refused AssignError.BadMembers)
            → is_lawful max_node config.members config.primary ≡ false }
        ensures lawful { IsErrOf result (OrderError.Refused AssignError.BallotsSpent)
            → is_lawful max_node config.members config.primary ≡ true }

        // If it is refused, or memory runs out, nothing changes.
        ensures same { OnErr result (AreUnchanged self.old self.new master.old master.new) }
    {
        if self.items.reserve(1).is_err() {
            return Err(OrderError::Memory);
        }
        let (ballot, answer) = master.assign(rt, alloc, config)?;
        let (item, known) = item_of(answer.into_sent());
        self.seen.learn(&known);
        if self.items.push(item).is_err() {
            unreachable!()
        }
        Ok(ballot)
    }

    // Queues an item, which may be queued by what is `known`, after all that waits, or in place of
    // the newest if it replaces that one. Returns false if there was no room or memory. What it
    // replaces is dropped before that is known.
    fn push(&mut self, item: SentItem<H>, known: &SeenRun<H>) -> bool
        requires { IsPosted (sent_in known.now) self.old.number item }
        ensures queued { result ≡ true →
            self.new ≡ record self.old { items = still_waiting item self.old.items ++ item ∷ [] } }
        ensures lost { result ≡ false →
            self.new ≡ record self.old { items = still_waiting item self.old.items } }
        ensures full { may_be_queued item (still_waiting item self.old.items) ≡ false →
            result ≡ false }
    {
        self.drop_replaced(item.item());
        if !self.may_be_queued(item.item()) {
            return false;
        }
        self.seen.learn(known);
        self.items.push(item).is_ok()
    }

    // Returns true if there is room for an item.
    fn may_be_queued(&self, item: &Item) -> bool
        ensures { result ≡ may_be_queued item.now self.now.items }
    {
        !is_of_node(item) || self.items.len() < MAX_WAITING
    }

    // Drops the newest item, if this one replaces it.
    fn drop_replaced(&mut self, item: &Item)
        ensures { self.new ≡ record self.old { items = still_waiting item.now self.old.items } }
    {
        if self.is_newest_replaced(item) {
            let kept = self.items.len().saturating_sub(1);
            self.items.truncate(kept);
        }
    }

    fn is_newest_replaced(&self, item: &Item) -> bool
        ensures { result ≡ replaces_one item.now (newest_item self.now.items) }
    {
        match self.items.last() {
            Some(newest) => replaces(item, newest.item()),
            None => false,
        }
    }

    /// Takes all that waits, in order.
    pub fn take(&mut self, alloc: Global) -> Vec<SentItem<H>>
        ensures all { result.items ≡ self.old.items }
        ensures queued { Each (IsQueued H.linked H.nodes H.config self.old.number) result.items }
        ensures empty { self.new ≡ record self.old { items = [] } }
    {
        self.seen.is_run();
        mem::replace(&mut self.items, Vec::new(alloc))
    }
}

impl<H: RunNaming> Answer<H> {
    /// Drops the answer: `outbox` is not its receiver's.
    pub fn lose_at(self, outbox: &Outbox<H>)
        requires { outbox.now.number ≡ self.receiver → ⊥ }
    {
        let _ = outbox;
        let _lost = self.into_sent();
    }
}

// Returns a message as an item for its receiver, and a prefix of the log in which it was sent.
fn item_of<H: RunNaming>(message: SentMessage<H>) -> (SentItem<H>, SeenRun<H>)
    ensures item { result.0 ≡ Peer message.message }
    ensures sent { In (message.receiver, message.message) (sent_in result.1) }
{
    let (receiver, message, known) = message.into_parts();
    let item = SentItem::new(receiver, Item::Peer(message), known.again());
    (item, known)
}

fn is_of_node(item: &Item) -> bool
    ensures { result ≡ is_of_node item.now }
{
    match item {
        Item::Peer(message) => message.from > MASTER,
        _ => false,
    }
}
