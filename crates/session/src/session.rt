// One client's session (MQTT 3.1.2.4, 4.1).
//
// A session knows neither a connection nor a clock. The window is an argument of `fill`, since it
// is a rule of the broker and the start of a ballot would have to set it in every session. Each
// call is one definition of `session_base`, with its packets appended to the caller's vector. A
// call that runs out of memory changes neither the session nor that vector, so the broker never has
// to undo one; `write` alone may have appended a part of its bytes. `enqueue` refuses a 4,097th
// entry and `enqueue_within_room` requires room for it; the limit of 64 subscriptions is checked by
// the broker. The received identifiers end a repeat: a QoS 2 PUBLISH is new exactly if its
// identifier is not among them, whatever its DUP flag says.

ghost use Rattle.std.specs.Prelude.{◌≡◌, ◌≢◌, ◌≤◌, ◌++◌, ◌↔◌, [], true, length, IsOk, Ok, Err};
ghost use Rattle.std.specs.Prelude.{OnOk, OnErr};
ghost use Rattle.lists.specs.Lists.{has_id};
ghost use Rattle.session_base.specs.Identifiers.{max_id, with_id, without_id};
ghost use Rattle.session_base.specs.Subscriptions.{is_subscribed, with_subscription};
ghost use Rattle.session_base.specs.Subscriptions.{without_filter, granted_qos};
ghost use Rattle.session_base.specs.Queue.{on_puback, on_pubrec, on_pubcomp, enqueue, room, filled};
ghost use Rattle.session_base.specs.EntryPackets.{fill_sends, resend, pubrec_sends};
ghost use Rattle.session_base.specs.Session.{empty_session, with_granted, with_received};
ghost use Rattle.session_base.specs.Session.{with_queue, with_flights};
ghost use Rattle.session.specs.declared.arrival.Arrival.TheVariants.{First, Again};
ghost use Rattle.session.specs.declared.error.EnqueueError.TheVariants.{QueueFull};

use crate::arrival::Arrival;
use crate::error::EnqueueError;
use crate::received::Received;
use crate::session_queue::SessionQueue;
use crate::subscriptions::Subscriptions;
use indexmap::IndexMap;
use machine::Memory;
use packet::Packet;
use packet_base::{PacketId, QoS};
use session_base::{MAX_ENTRIES, Publication, resend_keeps_the_order};
use std::alloc::Global;
use std::marker::Model;
use topics::{Filter, TopicName};

/// How many entries of a session are in flight at most, once a broker's ballot has begun (MQTT
/// 4.6).
pub const WINDOW: usize = 64;

/// One client's session: its subscriptions, the identifiers of received QoS 2 publications, and its
/// queue.
pub struct Session {
    /// Each filter with its granted QoS.
    pub(crate) subscriptions: Subscriptions,
    /// The QoS 2 publications that were received and whose PUBREL has not come.
    pub(crate) received: Received,
    /// The entries in flight, the released ones first, and the waiting publications.
    pub(crate) queue: SessionQueue,
}

impl Drop for Session {
    fn drop(self) {
        let Session {
            subscriptions: _subscriptions,
            received: _received,
            queue: _queue,
        } = self;
    }
}

impl Model for Session {
    ghost use Rattle.session_base.specs.Session.{SessionState};
    ghost use Rattle.session_base.specs.OrderTheorems.{IsReleasedFirst};

    ghost Value = { SessionState };

    ghost view = { λ session.
        record {
          subscriptions = session.subscriptions;
          received = session.received;
          queue = session.queue;
        } };

    ghost invariant = { λ session. IsReleasedFirst session.queue.in_flight };
}

impl Session {
    /// Returns an empty session.
    pub fn new(alloc: Global) -> Session
        ensures { result ≡ empty_session }
    {
        Session {
            subscriptions: Subscriptions::new(alloc),
            received: Received::new(alloc),
            queue: SessionQueue::new(alloc),
        }
    }

    /// Registers the identifier of a QoS 2 PUBLISH and keeps it until `release`. The DUP flag is
    /// ignored, since a first delivery may carry it (MQTT 3.3.1.1). The only error is that memory
    /// ran out, and it comes only for an identifier that is not kept.
    pub fn inbound(&mut self, id: PacketId) -> Result<Arrival, Memory>
        ensures again { (result ≡ Ok Again) ↔ (has_id id self.old.received ≡ true) }
        ensures first { result ≡ Ok First
            → self.new ≡ with_received (with_id id self.old.received) self.old }

        // A repeat changes nothing, and neither does a call that runs out of memory.
        ensures same { result ≢ Ok First → self.new ≡ self.old }
    {
        if self.received.contains(id) {
            return Ok(Arrival::Again);
        }
        self.received.insert(id)?;
        Ok(Arrival::First)
    }

    /// Returns true if a QoS 2 PUBLISH with this identifier would be a repeat.
    pub fn is_received(&self, id: PacketId) -> bool
        ensures { result ≡ has_id id self.now.received }
    {
        self.received.contains(id)
    }

    /// Handles PUBREL: frees the identifier, so that the next PUBLISH with it is new. An identifier
    /// that is not kept changes nothing (MQTT 4.3.3). Takes no memory.
    pub fn release(&mut self, id: PacketId)
        ensures { self.new ≡ with_received (without_id id self.old.received) self.old }
    {
        self.received.remove(id);
    }

    /// Returns how many more entries fit, out of [`session_base::MAX_ENTRIES`].
    pub fn room(&self) -> usize
        ensures { result ≡ room MAX_ENTRIES self.now.queue }
    {
        self.queue.room(MAX_ENTRIES)
    }

    /// Appends a publication to the waiting ones; `fill` sends it. `QueueFull` if the session has
    /// no room, `Memory` if memory runs out.
    pub fn enqueue(&mut self, publication: Publication) -> Result<(), EnqueueError>
        ensures ok { OnOk result
            (self.new ≡ with_queue (enqueue publication self.old.queue) self.old) }

        // `QueueFull` comes exactly if there is no room.
        ensures full { (result ≡ Err QueueFull) ↔ (room MAX_ENTRIES self.old.queue ≡ 0) }
        ensures err { OnErr result (self.new ≡ self.old) }
    {
        if self.room() == 0 {
            return Err(EnqueueError::QueueFull);
        }
        self.enqueue_within_room(publication)?;
        Ok(())
    }

    /// Appends a publication to the waiting ones. Requires that `room` is not 0. The only error is
    /// that memory ran out.
    pub fn enqueue_within_room(&mut self, publication: Publication) -> Result<(), Memory>
        requires room { 1 ≤ room MAX_ENTRIES self.old.queue }
        ensures ok { OnOk result
            (self.new ≡ with_queue (enqueue publication self.old.queue) self.old) }
        ensures err { OnErr result (self.new ≡ self.old) }
    {
        self.queue.enqueue(publication)?;
        Ok(())
    }

    /// Starts what waits while fewer than [`WINDOW`] entries are in flight: the first that waits
    /// takes the least identifier from 1 up that is not in flight, and its PUBLISH is appended with
    /// DUP 0 (MQTT 4.6). If memory runs out nothing changes; if nothing starts it takes none.
    pub fn fill(&mut self, out: &mut Vec<Packet>) -> Result<(), Memory>
        ensures state { OnOk result
            (self.new ≡ with_queue (filled WINDOW self.old.queue) self.old) }
        ensures sends { OnOk result
            (out.new.items
            ≡ out.old.items ++ fill_sends WINDOW self.old.queue.in_flight self.old.queue.waiting) }
        ensures err { OnErr result (self.new ≡ self.old) }
        ensures unsent { OnErr result (out.new.items ≡ out.old.items) }

        // `Err` only if something is sent.
        ensures nothing { fill_sends WINDOW self.old.queue.in_flight self.old.queue.waiting ≡ []
            → IsOk result }
    {
        self.fill_within(WINDOW, out)
    }

    /// Starts waiting publications, in order, while fewer entries are in flight than the window:
    /// each gets the least free identifier, and its PUBLISH is appended (MQTT 4.6). If memory runs
    /// out nothing has changed.
    pub fn fill_within(&mut self, window: usize, out: &mut Vec<Packet>) -> Result<(), Memory>
        requires { window ≤ max_id }
        ensures state { OnOk result
            (self.new ≡ with_queue (filled window self.old.queue) self.old) }
        ensures sends { OnOk result
            (out.new.items
            ≡ out.old.items ++ fill_sends window self.old.queue.in_flight self.old.queue.waiting) }
        ensures err { OnErr result (self.new ≡ self.old) }
        ensures unsent { OnErr result (out.new.items ≡ out.old.items) }

        // An error comes only if something is sent.
        ensures nothing { fill_sends window self.old.queue.in_flight self.old.queue.waiting ≡ []
            → IsOk result }
    {
        Ok(self.queue.fill(window, out)?)
    }

    /// Handles PUBACK: finishes the QoS 1 entry with this identifier (MQTT 4.3.2).
    pub fn on_puback(&mut self, id: PacketId)
        ensures { self.new ≡ with_queue
            (with_flights (on_puback id self.old.queue.in_flight) self.old.queue) self.old }
    {
        resend_keeps_the_order();
        self.queue.on_puback(id);
    }

    /// Handles PUBREC: releases the QoS 2 entry with this identifier, and appends PUBREL, also if
    /// the entry was released before (MQTT 4.3.3). If memory runs out nothing has changed.
    pub fn on_pubrec(&mut self, id: PacketId, out: &mut Vec<Packet>) -> Result<(), Memory>
        ensures state { OnOk result
            (self.new ≡ with_queue
            (with_flights (on_pubrec id self.old.queue.in_flight) self.old.queue) self.old) }
        ensures sends { OnOk result
            (out.new.items
            ≡ out.old.items ++ pubrec_sends id (on_pubrec id self.old.queue.in_flight)) }
        ensures err { OnErr result (self.new ≡ self.old) }
        ensures unsent { OnErr result (out.new.items ≡ out.old.items) }

        // An error comes only if something is sent.
        ensures nothing { pubrec_sends id (on_pubrec id self.old.queue.in_flight) ≡ [] →
            IsOk result }
    {
        resend_keeps_the_order();
        Ok(self.queue.on_pubrec(id, out)?)
    }

    /// Handles PUBCOMP: finishes the released entry with this identifier (MQTT 4.3.3).
    pub fn on_pubcomp(&mut self, id: PacketId)
        ensures { self.new ≡ with_queue
            (with_flights (on_pubcomp id self.old.queue.in_flight) self.old.queue) self.old }
    {
        resend_keeps_the_order();
        self.queue.on_pubcomp(id);
    }

    /// Appends the retransmissions for a reconnecting client: PUBREL for each released entry, then
    /// PUBLISH with DUP 1 for each other one in flight (MQTT 4.4). If memory runs out nothing is
    /// appended.
    pub fn resend(&self, out: &mut Vec<Packet>) -> Result<(), Memory>
        ensures ok { OnOk result
            (out.new.items ≡ out.old.items ++ resend self.now.queue.in_flight) }
        ensures err { OnErr result (out.new.items ≡ out.old.items) }
        ensures nothing { self.now.queue.in_flight ≡ [] → IsOk result }
    {
        Ok(self.queue.resend(out)?)
    }

    /// Sets a subscription: an identical filter keeps its place and gets the new QoS, and a new one
    /// is appended (MQTT 3.8.4). The only error is that memory ran out.
    pub fn subscribe(&mut self, filter: Filter, qos: QoS) -> Result<(), Memory>
        ensures ok { OnOk result
            (self.new
            ≡ with_granted (with_subscription (filter, qos) self.old.subscriptions) self.old) }
        ensures err { OnErr result (self.new ≡ self.old) }

        // An error comes only for a new filter.
        ensures subscribed { is_subscribed filter self.old.subscriptions ≡ true → IsOk result }
    {
        Ok(self.subscriptions.set(filter, qos)?)
    }

    /// Removes a subscription. Filters are compared character by character (MQTT 3.10.4).
    pub fn unsubscribe(&mut self, filter: &Filter)
        ensures { self.new
            ≡ with_granted (without_filter filter.now self.old.subscriptions) self.old }
    {
        self.subscriptions.remove(filter);
    }

    /// Returns true if this filter is a subscription of the session.
    pub fn has_subscription(&self, filter: &Filter) -> bool
        ensures { result ≡ is_subscribed filter.now self.now.subscriptions }
    {
        self.subscriptions.contains(filter)
    }

    /// Returns how many subscriptions there are.
    pub fn subscription_count(&self) -> usize
        ensures { result ≡ length self.now.subscriptions }
    {
        self.subscriptions.len()
    }

    /// Returns the subscriptions, in the order in which they were first granted.
    pub fn subscriptions(&self) -> &IndexMap<Filter, QoS>
        ensures { result.now.entries ≡ self.now.subscriptions }
    {
        self.subscriptions.all()
    }

    /// Returns the greatest QoS of the subscriptions that match the topic, if any does (MQTT
    /// 3.3.5).
    pub fn granted(&self, topic: &TopicName) -> Option<QoS>
        ensures { result ≡ granted_qos topic.now self.now.subscriptions }
    {
        self.subscriptions.granted(topic)
    }
}
