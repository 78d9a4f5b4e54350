// What waits for one link.
//
// It stands under a lock, and what is under a lock is known by its type alone. So the type says
// what no clause of a call could: each message that waits was sent in the run to the number to
// which the link leads. Whoever locks one compares that number. Messages are lost if there is no
// room or memory; the protocol repeats them.

ghost use Rattle.std.specs.Prelude.{◌≡◌, ◌≢◌, ◌↔◌, ◌&&◌, ◌||◌, Some, [], false, filter, not, IsTrue};
ghost use Rattle.lists.specs.Lists.{Each};
ghost use Rattle.links.specs.link_queue.Queues.{stays, with_message, without_message};
ghost use Rattle.world_base.specs.declared.node_core.item.Item.TheVariants.{Peer};
ghost use Rattle.post.specs.Linked.{IsSentTo, body_payload, forgotten, met, unused_route};
ghost use Rattle.post.specs.outbox.Urgency.{wakes};

use crate::linked::payload::payload_of;
use crate::outbox::is_urgent_message;
use broker_spec::Command;
use links::link_queue::{Fate, LinkQueue, LogName, Waiting};
use run_history::{RunNaming, SeenRun, SentMessage};
use std::alloc::Global;
use std::marker::Model;

/// What waits for a link, in the order of the node's steps.
#[derive(Drop)]
pub(crate) struct RouteQueue<H: RunNaming> {
    // The number of the node to which the link leads; none before it first came up.
    leads: Option<u8>,
    queue: LinkQueue<Command>,
    // A prefix of the run's log, in which each message that waits was sent to that node.
    seen: SeenRun<H>,
    // True if a message waits for which the thread that takes is to be woken.
    is_urgent: bool,
    // True if that was told since it took last.
    is_told: bool,
}

impl<H: RunNaming> Model for RouteQueue<H> {
    ghost use Rattle.run_history.specs.Log.{sent_in};
    ghost use Rattle.post.specs.Linked.{AreSentTo, RouteView};

    ghost Value = { RouteView };

    ghost view = { λ route. record {
      leads = route.leads;
      queue = route.queue;
      urgent = route.is_urgent;
      told = route.is_told;
    } };

    ghost invariant = { λ route.
        AreSentTo (sent_in route.seen) route.leads route.queue.waiting };
}

impl<H: RunNaming> RouteQueue<H> {
    /// Returns what waits for a link that never came up: nothing. `opening` is the run's log as it
    /// opened.
    pub(crate) fn new(alloc: Global, opening: SeenRun<H>) -> RouteQueue<H>
        ensures { result ≡ unused_route }
    {
        RouteQueue {
            leads: None,
            queue: LinkQueue::new(alloc),
            seen: opening,
            is_urgent: false,
            is_told: false,
        }
    }

    /// Returns true if the link leads to the node of this number.
    pub(crate) fn leads_to(&self, number: u8) -> bool
        ensures { IsTrue result ↔ (self.now.leads ≡ Some number) }
    {
        self.leads == Some(number)
    }

    /// Returns true if a message waits for which the thread that takes is to be woken, and no call
    /// told so since it took last.
    pub(crate) fn tell(&mut self) -> bool
        ensures once { result ≡ (self.old.urgent && not self.old.told) }
        ensures told { self.new ≡ record self.old { told = self.old.urgent || self.old.told } }
    {
        let is_new = self.is_urgent && !self.is_told;
        self.is_told = self.is_urgent || self.is_told;
        is_new
    }

    /// Returns how many messages were dropped (saturates at 2^64 - 1).
    pub(crate) fn dropped(&self) -> u64
        ensures { result ≡ self.now.queue.dropped }
    {
        self.queue.dropped()
    }

    /// Queues a message for the node to which the link leads, as [`LinkQueue::queue`].
    pub(crate) fn queue(&mut self, sent: SentMessage<H>) -> Fate
        requires { self.old.leads ≡ Some sent.receiver }
        ensures queued { result ≡ Fate.Queued → self.new ≡ record self.old {
          queue = with_message self.old.queue sent.message (body_payload sent.message.body);
          urgent = self.old.urgent || wakes (Peer sent.message);
        } }
        ensures lost { result ≢ Fate.Queued →
            self.new ≡ record self.old { queue = without_message self.old.queue } }
    {
        let (_receiver, message, known) = sent.into_parts();
        self.seen.learn(&known);
        let is_urgent = is_urgent_message(&message);
        let size = payload_of(&message.body);
        let fate = self.queue.queue(message, size);
        self.is_urgent = self.is_urgent || (is_urgent && fate == Fate::Queued);
        fate
    }

    /// Notes that the link came up with the node of this number. If it led to another one, nothing
    /// waits any more. Logs that were in transit may be queued again.
    pub(crate) fn meet(&mut self, number: u8)
        ensures same { self.old.leads ≡ Some number →
            self.new ≡ record self.old { queue = forgotten self.old.queue } }
        ensures other { (self.old.leads ≡ Some number → ⊥) →
            self.new ≡ met false number self.old }
    {
        if self.leads_to(number) {
            self.queue.forget();
        } else {
            self.queue.clear();
            self.leads = Some(number);
            self.is_urgent = false;
            self.is_told = false;
        }
    }

    /// Notes that the link broke: logs that were in transit may be queued again.
    pub(crate) fn part(&mut self)
        ensures { self.new ≡ record self.old { queue = forgotten self.old.queue } }
    {
        self.queue.forget();
    }

    /// Notes that a log of this name has left: one of its kind and ballot may be queued again.
    pub(crate) fn sent(&mut self, name: LogName)
        ensures { self.new ≡ record self.old {
          queue = record self.old.queue {
            logs = filter (λ other. stays self.old.queue.waiting name other) self.old.queue.logs;
          };
        } }
    {
        self.queue.sent(name);
    }

    /// Takes all that waits for the node of this number, in order.
    pub(crate) fn take(&mut self, alloc: Global, number: u8) -> Vec<Waiting<Command>>
        requires { self.old.leads ≡ Some number }
        ensures all { result.items ≡ self.old.queue.waiting }
        ensures sent { Each (IsSentTo H.linked H.nodes H.config number) result.items }
        ensures empty { self.new ≡ record self.old {
          queue = record self.old.queue { waiting = [] };
          urgent = false;
          told = false;
        } }
    {
        self.seen.is_run();
        self.is_urgent = false;
        self.is_told = false;
        self.queue.take(alloc)
    }
}
