// What was seen of one client.

use crate::looks::list_reading::ListReading;
use crate::looks::making::made_by;
use crate::looks::sessions::Entry;
use crate::looks::watching::Broken;
use client::ClientCore;
use client_base::Accepted;
use packet_base::{ClientId, QoS};
use std::alloc::Global;

/// What was seen of one client.
#[derive(Drop)]
pub struct Seen {
    // How many of those that it accepted were looked at.
    looked: usize,
    // The number of its session when it accepted the last publication.
    number: u64,
    // Where in the accepted publications that session began.
    from: usize,
    // Which of its sessions that is by the agreed list, from 0.
    session: usize,
    // How many it accepted in that session at QoS 2.
    at_two: usize,
    // The last number of each publisher, of those at QoS 2 that were not retained.
    last: Vec<u64>,
    /// The numbers that it published at QoS 1 or 2.
    pub published: Vec<u64>,
    // Whether it received the CONNACK of its newest connection.
    is_confirmed: bool,
    // Whether there was a connection whose CONNACK it never received.
    is_hasty: bool,
    /// Whether its session was ended by an administrator.
    pub is_expelled: bool,
}

impl Seen {
    /// Begins with a client that did nothing.
    pub fn new(alloc: Global) -> Seen {
        Seen {
            looked: 0,
            number: 0,
            from: 0,
            session: 0,
            at_two: 0,
            last: Vec::new(alloc),
            published: Vec::new(alloc),
            is_confirmed: true,
            is_hasty: false,
            is_expelled: false,
        }
    }

    /// Takes note that it opened a connection.
    pub fn note_opened(&mut self) {
        self.is_hasty = self.is_hasty || !self.is_confirmed;
        self.is_confirmed = false;
    }

    /// Returns true if it may be out of step: it was expelled, and opened a connection before the
    /// CONNACK of the one before had come. Nothing is promised to such a client then.
    pub fn may_stray(&self) -> bool {
        self.is_expelled && self.is_hasty
    }

    /// Looks at a client, and returns what does not hold. None if it ran out of memory.
    pub fn look(
        &mut self,
        client: &ClientId,
        core: &ClientCore,
        reading: &ListReading,
        strays: &[bool],
    ) -> Option<Result<(), Broken>> {
        self.is_confirmed = self.is_confirmed || core.connected();
        if self.may_stray() {
            return Some(Ok(()));
        }
        let accepted = core.accepted();
        for one in accepted.iter().skip(self.looked) {
            let taken = self.look_at_accepted(client, one, accepted, reading, strays)?;
            if taken.is_err() {
                return Some(taken);
            }
        }
        if self.is_expelled || self.missing(reading) <= core.kept() {
            Some(Ok(()))
        } else {
            Some(Err(Broken::Lost))
        }
    }

    // Looks at the next one that a client accepted.
    fn look_at_accepted(
        &mut self,
        client: &ClientId,
        one: &Accepted,
        accepted: &[Accepted],
        reading: &ListReading,
        strays: &[bool],
    ) -> Option<Result<(), Broken>> {
        if one.session != self.number {
            self.session = self.session.saturating_add(usize::from(self.number != 0));
            self.number = one.session;
            self.from = self.looked;
            self.at_two = 0;
        }
        self.looked = self.looked.saturating_add(1);
        if one.qos != QoS::ExactlyOnce {
            return Some(Ok(()));
        }
        if !self.is_next(client, one, accepted, reading) {
            return Some(Err(Broken::Accepted));
        }
        let is_checked = !one.retain && !is_stray(one, strays);
        if is_checked && !self.note_number(one)? {
            return Some(Err(Broken::Order));
        }
        Some(Ok(()))
    }

    // Returns true if it is the next entry of the session in which it was accepted, or all that was
    // accepted there begins a later one.
    fn is_next(
        &mut self,
        client: &ClientId,
        one: &Accepted,
        accepted: &[Accepted],
        reading: &ListReading,
    ) -> bool {
        let here = reading.entries(client, self.session).get(self.at_two);
        self.at_two = self.at_two.saturating_add(1);
        if here.is_some_and(|entry| is_entry(one, entry)) {
            return true;
        }
        for session in self.session.saturating_add(1)..reading.count(client) {
            if self.begins(accepted, reading.entries(client, session)) {
                self.session = session;
                return true;
            }
        }
        false
    }

    // Returns true if all that was accepted at QoS 2 in this session, as far as it was looked at,
    // begins these entries.
    fn begins(&self, accepted: &[Accepted], entries: &[Entry]) -> bool {
        let count = self.looked.saturating_sub(self.from);
        let here = accepted.iter().skip(self.from).take(count);
        self.at_two <= entries.len()
            && here
                .filter(|it| it.qos == QoS::ExactlyOnce)
                .zip(entries)
                .all(|(one, entry)| is_entry(one, entry))
    }

    // Keeps the number of one that was accepted. Returns whether it is newer than the last one of
    // its publisher.
    fn note_number(&mut self, one: &Accepted) -> Option<bool> {
        let (index, serial) = made_by(&one.payload)?;
        for _ in self.last.len()..=index as usize {
            self.last.push(0).ok()?;
        }
        let last = self.last.get_mut(index as usize)?;
        let newer = *last < serial;
        *last = serial;
        Some(newer)
    }

    // Returns how many of its publications are in no place of the agreed list.
    fn missing(&self, reading: &ListReading) -> usize {
        self.published
            .iter()
            .filter(|serial| !reading.is_taken(**serial))
            .count()
    }
}

// Returns true if its publisher may be out of step.
fn is_stray(one: &Accepted, strays: &[bool]) -> bool {
    match made_by(&one.payload) {
        Some((index, _)) => strays.get(index as usize).copied().unwrap_or(false),
        None => false,
    }
}

// Returns true if this is what was accepted.
fn is_entry(one: &Accepted, entry: &Entry) -> bool {
    one.retain == entry.retain && one.topic == entry.topic && one.payload == entry.payload
}
