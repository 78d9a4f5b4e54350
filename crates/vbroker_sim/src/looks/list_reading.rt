// What a list of agreed commands does to all sessions.

use crate::looks::making::made_by;
use crate::looks::matching::is_match;
use crate::looks::sessions::{Entry, Session};
use broker_spec::{Command, ConnectionName};
use packet::{Delivery, Packet, Publish, Subscribe};
use packet_base::{ClientId, Payload, QoS};
use std::alloc::Global;
use topics::{Filter, TopicName};

// The last publication with RETAIN of a topic.
#[derive(Drop)]
struct Kept {
    // The QoS at which it was published.
    qos: QoS,
    // The Topic Name, by which these are ordered.
    topic: TopicName,
    // What was published with it.
    payload: Payload,
}

/// What was read of the agreed list. A call that returns an `Option` returns None if it ran out of
/// memory.
#[derive(Drop)]
pub struct ListReading {
    // The allocator of what is read.
    alloc: Global,
    // Those that last.
    sessions: Vec<Session>,
    // Those that ended, the oldest first.
    ended: Vec<Session>,
    // In the order of the topics' bytes.
    retained: Vec<Kept>,
    // By the number of a publication at QoS 1 or 2: whether it was taken.
    taken: Vec<bool>,
    // How many commands were read.
    read: usize,
}

impl ListReading {
    /// Begins with no command.
    pub fn new(alloc: Global) -> ListReading {
        ListReading {
            alloc,
            sessions: Vec::new(alloc),
            ended: Vec::new(alloc),
            retained: Vec::new(alloc),
            taken: Vec::new(alloc),
            read: 0,
        }
    }

    /// Reads the commands that it has not read, of a list in two parts.
    pub fn read_rest(&mut self, first: &[Command], second: &[Command]) -> Option<()> {
        for command in first.iter().chain(second.iter()).skip(self.read) {
            self.read_one(command)?;
            self.read = self.read.saturating_add(1);
        }
        Some(())
    }

    /// Returns the entries of a client's session by its number, from 0: one that ended, or the one
    /// that lasts.
    pub fn entries(&self, client: &ClientId, number: usize) -> &[Entry] {
        let all = self.ended.iter().chain(self.sessions.iter());
        match all.filter(|it| it.client == *client).nth(number) {
            Some(session) => session.entries.as_slice(),
            None => &[],
        }
    }

    /// Returns how many sessions a client had.
    pub fn count(&self, client: &ClientId) -> usize {
        let all = self.ended.iter().chain(self.sessions.iter());
        all.filter(|it| it.client == *client).count()
    }

    /// Returns true if another reading found the same sessions with the same entries.
    pub fn is_like(&self, other: &ListReading) -> bool {
        are_alike(self.ended.as_slice(), other.ended.as_slice())
            && are_alike(self.sessions.as_slice(), other.sessions.as_slice())
    }

    /// Returns true if the publication of this number was taken.
    pub fn is_taken(&self, serial: u64) -> bool {
        self.taken.get(serial as usize).copied().unwrap_or(false)
    }

    // Reads one command: sessions begin, lose their connections and end as it says. A packet counts
    // only on a session's current connection.
    fn read_one(&mut self, command: &Command) -> Option<()> {
        match command {
            Command::Connect(connection, client, clean) => self.connect(
                *connection,
                client,
                *clean,
            ),
            Command::Packet(connection, packet) => match self.session_index(*connection) {
                Some(at) => self.take_packet(at, packet.packet()),
                None => Some(()),
            },
            Command::Lost(connection) => self.end_connection(Some(*connection)),
            Command::Start(_) => self.end_connection(None),
            Command::Expel(client) => self.expel(client),
        }
    }

    // Returns the index of the session whose current connection this is.
    fn session_index(&self, connection: ConnectionName) -> Option<usize> {
        self.sessions
            .iter()
            .position(|it| it.connection == Some(connection))
    }

    // Takes this connection from its session, or, if none is named, from each session its own. The
    // clean sessions that lose one end.
    fn end_connection(&mut self, connection: Option<ConnectionName>) -> Option<()> {
        for session in self.sessions.iter_mut() {
            let is_named = connection.is_none() || session.connection == connection;
            if is_named && session.connection.is_some() {
                session.connection = None;
                session.is_over = session.clean;
            }
        }
        self.archive()
    }

    // Puts the sessions that are over among those that ended.
    fn archive(&mut self) -> Option<()> {
        for _ in 0..self.sessions.len() {
            let Some(at) = self.sessions.iter().position(|it| it.is_over) else {
                return Some(());
            };
            let session = self.sessions.remove(at);
            self.ended.push(session).ok()?;
        }
        Some(())
    }

    // Ends a client's session, if it has one.
    fn expel(&mut self, client: &ClientId) -> Option<()> {
        for session in self.sessions.iter_mut() {
            session.is_over = session.client == *client;
        }
        self.archive()
    }

    // Makes a connection its client's current one. Its session continues if neither that nor the
    // CONNECT is clean; otherwise it ends, and a new one begins. A second CONNECT on a connection
    // is a violation, which ends the connection.
    fn connect(
        &mut self,
        connection: ConnectionName,
        client: &ClientId,
        clean: bool,
    ) -> Option<()> {
        if self.session_index(connection).is_some() {
            return self.end_connection(Some(connection));
        }
        for session in self.sessions.iter_mut() {
            if session.client == *client && !clean && !session.clean {
                session.connection = Some(connection);
                return Some(());
            }
        }
        self.expel(client)?;
        let session = Session::new(self.alloc, client.clone().ok()?, clean, connection);
        self.sessions.push(session).ok()
    }

    // Reads a packet of a session's current connection.
    fn take_packet(&mut self, at: usize, packet: &Packet) -> Option<()> {
        let session = self.sessions.get_mut(at)?;
        match packet {
            Packet::Publish(publish) => self.publish(at, publish),
            Packet::Pubrel(id) => {
                session.forget(*id);
                Some(())
            }
            Packet::Subscribe(subscribe) => self.subscribe_to_each(at, subscribe),
            Packet::Unsubscribe(unsubscribe) => {
                for filter in unsubscribe.filters.as_slice() {
                    session.revoke(filter);
                }
                Some(())
            }
            Packet::Puback(_) | Packet::Pubrec(_) | Packet::Pubcomp(_) | Packet::Pingreq => Some(
                (),
            ),
            _ => {
                let connection = session.connection;
                self.end_connection(connection)
            }
        }
    }

    // Grants each filter of a packet, in order.
    fn subscribe_to_each(&mut self, at: usize, subscribe: &Subscribe) -> Option<()> {
        for asked in subscribe.filters.as_slice() {
            self.subscribe(at, &asked.filter, asked.qos)?;
        }
        Some(())
    }

    // Grants a filter at this QoS. If that is 2, adds to the session what is retained at QoS 2 and
    // matches.
    fn subscribe(&mut self, at: usize, filter: &Filter, qos: QoS) -> Option<()> {
        let session = self.sessions.get_mut(at)?;
        session.grant(filter, qos)?;
        for kept in self.retained.iter() {
            let is_two = kept.qos == QoS::ExactlyOnce && qos == QoS::ExactlyOnce;
            if is_two && is_match(filter.as_str(), kept.topic.as_str()) {
                session.add(true, &kept.topic, &kept.payload)?;
            }
        }
        Some(())
    }

    // Takes a publication that is no repeat. Adds one at QoS 2 to each session that wants it, notes
    // that one above QoS 0 is taken, and retains one with RETAIN.
    fn publish(&mut self, at: usize, publish: &Publish) -> Option<()> {
        if let Delivery::ExactlyOnce(_, id) = publish.delivery {
            if self.sessions.get_mut(at)?.note_identifier(id)? {
                return Some(());
            }
            for session in self.sessions.iter_mut() {
                if session.wants(&publish.topic) {
                    session.add(false, &publish.topic, &publish.payload)?;
                }
            }
        }
        let qos = publish.delivery.qos();
        if qos != QoS::AtMostOnce {
            self.note_taken(&publish.payload)?;
        }
        if publish.retain {
            self.retain(qos, publish)
        } else {
            Some(())
        }
    }

    // Notes that the publication with this payload is taken.
    fn note_taken(&mut self, payload: &Payload) -> Option<()> {
        let (_, serial) = made_by(payload)?;
        for _ in self.taken.len() as u64..=serial {
            self.taken.push(false).ok()?;
        }
        if let Some(taken) = self.taken.get_mut(serial as usize) {
            *taken = true;
        }
        Some(())
    }

    // Replaces what was retained about the publication's topic.
    fn retain(&mut self, qos: QoS, publish: &Publish) -> Option<()> {
        let topic = &publish.topic;
        self.retained.retain(|it| it.topic != *topic);
        let before = self.retained.iter().filter(|it| it.topic < *topic).count();
        let kept = Kept {
            qos,
            topic: topic.clone().ok()?,
            payload: publish.payload.clone().ok()?,
        };
        self.retained.insert(before, kept).ok()
    }
}

// Returns true if these are the same sessions with the same entries.
fn are_alike(some: &[Session], others: &[Session]) -> bool {
    some.len() == others.len()
        && some
            .iter()
            .zip(others)
            .all(|(one, other)| one.is_like(other))
}
