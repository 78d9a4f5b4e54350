// The queue of a session: entries in flight and waiting publications (MQTT 4.3, 4.4, 4.6).
//
// `in_flight` maps identifiers to what each entry waits for. Its order is the order of
// retransmission: first the released entries, in the order of their PUBRECs, then the sent ones in
// the order of sending. PUBREC therefore moves an entry directly after the released ones. An
// identifier is that of at most one entry, and a new entry gets the least free one. `waiting` is in
// the order of arrival, and only its front starts, so no publication overtakes another. `fill` does
// all or nothing: it appends copies of the entries that start to `in_flight`, and takes them off
// `waiting` only after every PUBLISH was appended; otherwise it truncates `in_flight` and the
// packets again. A copy only counts up two reference counters.

ghost use Rattle.std.specs.Prelude.{◌≡◌, ◌≤◌, ◌<◌, ◌++◌, [], ◌∷◌, true, false, length, filter};
ghost use Rattle.std.specs.Prelude.{take, drop, IsOk, IfOk, OnOk, OnErr};
ghost use Rattle.std.specs.List.{list_any};
ghost use Rattle.lists.specs.Lists.{has_id};
ghost use Rattle.session_base.specs.Identifiers.{least_free, max_id};
ghost use Rattle.session_base.specs.Session.{with_flights};
ghost use Rattle.session_base.specs.OrderTheorems.{IsReleasedFirst};
ghost use Rattle.session_base.specs.EntryPackets.{fill_sends, resend, pubrec_sends};
ghost use Rattle.session.specs.Inside.{started_with, sends_with, IsAwaited, with_released};
ghost use Rattle.session_base.specs.Queue.{empty_queue, is_released, awaits_pubrec, awaits_pubcomp};
ghost use Rattle.session_base.specs.Queue.{on_puback, on_pubrec, on_pubcomp, released_with};
ghost use Rattle.session_base.specs.Queue.{enqueue, room, filled, ids_of};

use crate::entry_packets::{
    awaits_of, packet_anew, send_publish, waits_for_puback, waits_for_pubcomp, waits_for_pubrec,
};
use indexmap::IndexMap;
use packet::Packet;
use packet_base::PacketId;
use session_base::{Awaits, Publication, least_identifier_is_free, resend_keeps_the_order};
use std::alloc::{AllocError, AllocFailed, Global};
use std::collections::VecDeque;
use std::marker::Model;

/// The entries in flight and the waiting publications, in order.
#[derive(Drop)]
pub(crate) struct SessionQueue {
    /// By identifier; the released entries first, then the others in the order of sending.
    pub(crate) in_flight: IndexMap<PacketId, Awaits>,
    /// Not sent yet, the next one first.
    pub(crate) waiting: VecDeque<Publication>,
}

impl Model for SessionQueue {
    ghost use Rattle.session_base.specs.Queue.{Queue};

    ghost Value = { Queue };

    ghost view = { λ queue.
        record { in_flight = queue.in_flight.entries; waiting = queue.waiting.items } };
}

impl SessionQueue {
    /// Returns an empty queue.
    pub(crate) fn new(alloc: Global) -> SessionQueue
        ensures { result ≡ empty_queue }
    {
        SessionQueue {
            in_flight: IndexMap::new(alloc),
            waiting: VecDeque::new(alloc),
        }
    }

    /// Returns how many more entries fit below this limit; 0 if the limit was reached.
    pub(crate) fn room(&self, limit: usize) -> usize
        ensures { result ≡ room limit self.now }
    {
        limit.saturating_sub(self.in_flight.len().saturating_add(self.waiting.len()))
    }

    /// Appends a publication to the waiting ones. If memory runs out, the error returns it.
    pub(crate) fn enqueue(
        &mut self,
        publication: Publication,
    ) -> Result<(), AllocFailed<Publication>>
        ensures ok { OnOk result (self.new ≡ enqueue publication self.old) }
        ensures err { OnErr result (self.new ≡ self.old) }
    {
        self.waiting.push_back(publication)
    }

    /// Starts waiting publications while fewer entries are in flight than the window, and appends
    /// their PUBLISHes. If memory runs out nothing has changed.
    pub(crate) fn fill(&mut self, window: usize, out: &mut Vec<Packet>) -> Result<(), AllocError>
        requires { window ≤ max_id }
        ensures state { OnOk result (self.new ≡ filled window self.old) }
        ensures sends { OnOk result
            (out.new.items
            ≡ out.old.items ++ fill_sends window self.old.in_flight self.old.waiting) }
        ensures first { IsReleasedFirst self.old.in_flight → IsReleasedFirst self.new.in_flight }
        ensures err { OnErr result (self.new ≡ self.old) }
        ensures unsent { OnErr result (out.new.items ≡ out.old.items) }
        ensures nothing { fill_sends window self.old.in_flight self.old.waiting ≡ [] → IsOk result }
    {
        let flights = self.in_flight.len();
        let packets = out.len();
        match self.start_all(window, out) {
            Ok(many) => {
                self.take_off(many);
                Ok(())
            }
            Err(error) => {
                self.in_flight.truncate(flights);
                out.truncate(packets);
                Err(error)
            }
        }
    }

    // Starts what may start, appends what is sent, and returns how many started. They stay in
    // `waiting`: `fill` takes them off.
    fn start_all(&mut self, window: usize, out: &mut Vec<Packet>) -> Result<usize, AllocError>
        requires { window ≤ max_id }
        ensures state { IfOk result
            (λ many. record { in_flight = self.new.in_flight; waiting = drop many self.old.waiting }
            ≡ filled window self.old) }
        ensures sends { OnOk result
            (out.new.items
            ≡ out.old.items ++ fill_sends window self.old.in_flight self.old.waiting) }
        ensures few { IfOk result (λ many. many ≤ length self.old.waiting) }
        ensures first { IsReleasedFirst self.old.in_flight → IsReleasedFirst self.new.in_flight }
        ensures waiting { self.new.waiting ≡ self.old.waiting }
        ensures flights { OnErr result
            (self.old.in_flight ≡ take (length self.old.in_flight) self.new.in_flight) }
        ensures kept { OnErr result (out.old.items ≡ take (length out.old.items) out.new.items) }
        ensures nothing { fill_sends window self.old.in_flight self.old.waiting ≡ [] → IsOk result }
    {
        for index in 0..self.waiting.len() {
            if self.in_flight.len() >= window {
                return Ok(index);
            }
            self.start(index, out)?;
        }
        Ok(self.waiting.len())
    }

    // Starts the waiting publication at this index, which stays in `waiting`.
    fn start(&mut self, index: usize, out: &mut Vec<Packet>) -> Result<(), AllocError>
        requires { length self.old.in_flight < max_id }
        ensures state { OnOk result
            (self.new.in_flight
            ≡ (started_with self.old.in_flight (drop index self.old.waiting)).in_flight) }
        ensures sends { OnOk result
            (out.new.items
            ≡ out.old.items ++ sends_with self.old.in_flight (drop index self.old.waiting)) }
        ensures first { IsReleasedFirst self.old.in_flight → IsReleasedFirst self.new.in_flight }
        ensures waiting { self.new.waiting ≡ self.old.waiting }
        ensures err { OnErr result (self.new.in_flight ≡ self.old.in_flight) }
        ensures kept { OnErr result (out.old.items ≡ take (length out.old.items) out.new.items) }
    {
        if let Some(publication) = self.waiting.get(index) {
            let id = free_id(&self.in_flight);
            least_identifier_is_free();
            resend_keeps_the_order();
            send_publish(publication, id, out)?;
            put_last(&mut self.in_flight, id, awaits_of(publication.clone()?))?;
        }
        Ok(())
    }

    // Removes this many publications from the front of `waiting`.
    fn take_off(&mut self, many: usize)
        requires { many ≤ length self.old.waiting }
        ensures { self.new
            ≡ record { in_flight = self.old.in_flight; waiting = drop many self.old.waiting } }
    {
        for _ in 0..many {
            self.waiting.pop_front();
        }
    }

    /// Handles PUBACK: finishes the QoS 1 entry with this identifier.
    pub(crate) fn on_puback(&mut self, id: PacketId)
        ensures { self.new ≡ with_flights (on_puback id self.old.in_flight) self.old }
    {
        self.in_flight.retain(|other, awaits| !(id == *other && waits_for_puback(awaits)));
    }

    /// Handles PUBREC: releases the QoS 2 entry with this identifier, and appends PUBREL, also if
    /// the entry was released before. If memory runs out nothing has changed.
    #[tactic(auto, using(crate::proofs::AnswersToPubrec::released_is_answered))]
    pub(crate) fn on_pubrec(
        &mut self,
        id: PacketId,
        out: &mut Vec<Packet>,
    ) -> Result<(), AllocError>
        requires { IsReleasedFirst self.old.in_flight }
        ensures state { OnOk result
            (self.new ≡ with_flights (on_pubrec id self.old.in_flight) self.old) }
        ensures sends { OnOk result
            (out.new.items ≡ out.old.items ++ pubrec_sends id (on_pubrec id self.old.in_flight)) }
        ensures err { OnErr result (self.new ≡ self.old) }
        ensures unsent { OnErr result (out.new.items ≡ out.old.items) }
        ensures nothing { pubrec_sends id (on_pubrec id self.old.in_flight) ≡ [] → IsOk result }
    {
        if self.is_awaited(id) {
            out.push(Packet::Pubrel(id))?;
            self.release(id);
        } else if self.is_released(id) {
            out.push(Packet::Pubrel(id))?;
        }
        Ok(())
    }

    // Returns true if an entry with this identifier waits for PUBREC.
    fn is_awaited(&self, id: PacketId) -> bool
        ensures test { result ≡ list_any (awaits_pubrec id) self.now.in_flight }
        ensures found { result ≡ true → IsAwaited id self.now.in_flight }
    {
        // This call shows that no other entry has the identifier.
        let _length = self.in_flight.len();
        match self.in_flight.get(&id) {
            Some(awaits) => waits_for_pubrec(awaits),
            None => false,
        }
    }

    // Returns true if an entry with this identifier is released.
    fn is_released(&self, id: PacketId) -> bool
        ensures { result ≡ list_any (awaits_pubcomp id) self.now.in_flight }
    {
        // This call shows that no other entry has the identifier.
        let _length = self.in_flight.len();
        match self.in_flight.get(&id) {
            Some(awaits) => waits_for_pubcomp(awaits),
            None => false,
        }
    }

    // Releases the entry with this identifier and moves it directly after the released ones. Takes
    // no memory.
    fn release(&mut self, id: PacketId)
        requires first { IsReleasedFirst self.old.in_flight }
        requires awaited { IsAwaited id self.old.in_flight }
        ensures { self.new ≡ with_flights (released_with id self.old.in_flight) self.old }
    {
        let after = self.released_count();
        if let Some(index) = self.in_flight.get_index_of(&id) {
            mark_released(&mut self.in_flight, id);
            self.in_flight.move_index(index, after);
        }
    }

    fn released_count(&self) -> usize
        ensures { result ≡ length (filter is_released self.now.in_flight) }
    {
        // This call shows that the entries can be counted.
        let _length = self.in_flight.len();
        let mut many = 0;
        for (_, awaits) in &self.in_flight {
            if waits_for_pubcomp(awaits) {
                many += 1;
            }
        }
        many
    }

    /// Handles PUBCOMP: finishes the released entry with this identifier.
    pub(crate) fn on_pubcomp(&mut self, id: PacketId)
        ensures { self.new ≡ with_flights (on_pubcomp id self.old.in_flight) self.old }
    {
        self.in_flight.retain(|other, awaits| !(id == *other && waits_for_pubcomp(awaits)));
    }

    /// Appends the retransmissions for a reconnecting client, in the order of `in_flight`. If
    /// memory runs out nothing is appended.
    pub(crate) fn resend(&self, out: &mut Vec<Packet>) -> Result<(), AllocError>
        ensures ok { OnOk result (out.new.items ≡ out.old.items ++ resend self.now.in_flight) }
        ensures err { OnErr result (out.new.items ≡ out.old.items) }
        ensures nothing { self.now.in_flight ≡ [] → IsOk result }
    {
        let before = out.len();
        let appended = self.resend_each(out);
        if appended.is_err() {
            out.truncate(before);
        }
        appended
    }

    // Appends one packet for each entry in flight. If memory runs out, some of them may have been
    // appended.
    fn resend_each(&self, out: &mut Vec<Packet>) -> Result<(), AllocError>
        ensures ok { OnOk result (out.new.items ≡ out.old.items ++ resend self.now.in_flight) }
        ensures err { OnErr result (out.old.items ≡ take (length out.old.items) out.new.items) }
        ensures nothing { self.now.in_flight ≡ [] → IsOk result }
    {
        for (id, awaits) in &self.in_flight {
            out.push(packet_anew(*id, awaits)?)?;
        }
        Ok(())
    }
}

// Returns the least identifier that is not in flight.
fn free_id(in_flight: &IndexMap<PacketId, Awaits>) -> PacketId
    requires { length in_flight.now.entries < max_id }
    ensures { result ≡ least_free (ids_of in_flight.now.entries) }
{
    let mut number = 1;
    for _ in 0..in_flight.len() {
        let id = PacketId::new(number);
        if !in_flight.contains_key(&id) {
            return id;
        }
        number += 1;
    }
    PacketId::new(number)
}

/// Appends an entry to those in flight. The only error is that memory ran out.
pub(crate) fn put_last(
    in_flight: &mut IndexMap<PacketId, Awaits>,
    id: PacketId,
    awaits: Awaits,
) -> Result<(), AllocError>
    requires { has_id id (ids_of in_flight.old.entries) ≡ false }
    ensures ok { OnOk result (in_flight.new.entries ≡ in_flight.old.entries ++ (id, awaits) ∷ []) }
    ensures err { OnErr result (in_flight.new.entries ≡ in_flight.old.entries) }
{
    in_flight.insert(id, awaits)?;
    Ok(())
}

// Makes the entry with this identifier wait for PUBCOMP. It keeps its index.
fn mark_released(in_flight: &mut IndexMap<PacketId, Awaits>, id: PacketId)
    requires { IsAwaited id in_flight.old.entries }
    ensures entries { in_flight.new.entries ≡ with_released id in_flight.old.entries }
    ensures len { length in_flight.new.entries ≡ length in_flight.old.entries }
{
    if let Some(awaits) = in_flight.get_mut(&id) {
        *awaits = Awaits::Pubcomp;
    }
}
