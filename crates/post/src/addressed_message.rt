// A message from one node to another.

ghost use Rattle.std.specs.Prelude.{◌≡◌, ◌≢◌, ◌||◌, ◌++◌, ◌∷◌, [], Some, false, true};
ghost use Rattle.links.specs.link_queue.Queues.{with_message, without_message};
ghost use Rattle.lists.specs.Lists.{has_id};
ghost use Rattle.world_base.specs.declared.node_core.item.Item.TheVariants.{Peer};
ghost use Rattle.post.specs.Linked.{body_payload};
ghost use Rattle.post.specs.outbox.Given.{IsMasterNumber};
ghost use Rattle.post.specs.outbox.MasterAnswers.{answer_to, master_after_outcome, message_if};
ghost use Rattle.post.specs.outbox.Replacement.{still_waiting};
ghost use Rattle.post.specs.outbox.Urgency.{wakes};

use crate::cluster::Cluster;
use crate::linked::{LinkedNode, RouteQueue};
use crate::outbox::{Answer, MessagingMaster, Outbox};
use links::link_queue::Fate;
use run_history::{RunNaming, SentMessage};
use std::marker::Model;
use std::sync::Wait;

/// A message that a node's step sent in the run, with the number of its receiver; 0 is the master.
/// It cannot be dropped: it ends in its receiver's outbox, at the master or at a link to its
/// receiver, or is lost if no node has the number.
pub struct AddressedMessage<H: RunNaming> {
    sent: SentMessage<H>,
}

impl<H: RunNaming> Model for AddressedMessage<H> {
    ghost use Rattle.post.specs.outbox.Given.{Addressed};

    ghost Value = { Addressed };

    ghost view = { λ addressed. addressed.sent };
}

impl<H: RunNaming> AddressedMessage<H> {
    /// Returns a message that was sent, with its receiver.
    pub(crate) fn new(sent: SentMessage<H>) -> AddressedMessage<H>
        ensures { result ≡ sent }
    {
        AddressedMessage { sent }
    }

    /// Returns the number of its receiver.
    pub(crate) fn receiver(&self) -> u8
        ensures { result ≡ self.now.receiver }
    {
        self.sent.receiver()
    }

    /// Queues the message in its receiver's outbox, as [`Outbox::queue`]. Returns false if there
    /// was no room or memory: then it is lost.
    pub(crate) fn queue_in(self, outbox: &mut Outbox<H>) -> bool
        requires { self.receiver ≡ outbox.old.number }
        ensures queued { result ≡ true → outbox.new ≡ record outbox.old {
          items = still_waiting (Peer self.message) outbox.old.items ++ Peer self.message ∷ [];
        } }
        ensures lost { result ≡ false → outbox.new ≡ record outbox.old {
          items = still_waiting (Peer self.message) outbox.old.items;
        } }
    {
        let AddressedMessage { sent } = self;
        outbox.queue(sent)
    }

    /// Passes the message to the master, and returns its answer, as [`MessagingMaster::answer`].
    pub(crate) fn ask<R: Wait>(self, rt: &R, master: &mut MessagingMaster<H>) -> Option<Answer<H>>
        requires { IsMasterNumber self.receiver }
        ensures answer { result
            ≡ message_if (answer_to master.old self.message.from self.message.body) }
        ensures state { master.new
            ≡ master_after_outcome master.old
            (answer_to master.old self.message.from self.message.body) }
    {
        let AddressedMessage { sent } = self;
        master.answer(rt, sent)
    }

    /// Drops the message: it is not for the master, and `cluster` has no node of its receiver's
    /// number.
    pub(crate) fn lose(self, cluster: &Cluster<H>)
        requires master { IsMasterNumber self.receiver → ⊥ }
        requires none { has_id self.receiver cluster.now ≡ false }
    {
        let _ = cluster;
        let AddressedMessage { sent: _sent } = self;
    }

    /// Queues the message for the link that leads to its receiver, as [`RouteQueue::queue`].
    pub(crate) fn queue_at(self, queue: &mut RouteQueue<H>) -> Fate
        requires { queue.old.leads ≡ Some self.receiver }
        ensures queued { result ≡ Fate.Queued → queue.new ≡ record queue.old {
          queue = with_message queue.old.queue self.message (body_payload self.message.body);
          urgent = queue.old.urgent || wakes (Peer self.message);
        } }
        ensures lost { result ≢ Fate.Queued →
            queue.new ≡ record queue.old { queue = without_message queue.old.queue } }
    {
        let AddressedMessage { sent } = self;
        queue.queue(sent)
    }

    /// Drops the message: it is not for `node`, and no route of it leads to its receiver, which no
    /// clause says.
    pub(crate) fn lose_away(self, node: &LinkedNode<H>)
        requires { self.receiver ≡ node.now.number → ⊥ }
    {
        let _ = node;
        let AddressedMessage { sent: _sent } = self;
    }

    /// Drops the message: `outbox` is not its receiver's.
    pub(crate) fn lose_at(self, outbox: &Outbox<H>)
        requires { outbox.now.number ≡ self.receiver → ⊥ }
    {
        let _ = outbox;
        let AddressedMessage { sent: _sent } = self;
    }
}
