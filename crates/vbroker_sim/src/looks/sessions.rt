// One client's session: what the agreed commands make of it.

use crate::looks::matching::is_match;
use broker_spec::ConnectionName;
use packet_base::{ClientId, PacketId, Payload, QoS};
use std::alloc::Global;
use topics::{Filter, TopicName};

/// A publication that a session has to send at QoS 2.
#[derive(Drop)]
pub struct Entry {
    /// Its RETAIN flag.
    pub retain: bool,
    /// Its topic.
    pub topic: TopicName,
    /// Its payload.
    pub payload: Payload,
}

impl Entry {
    /// Returns true if two entries are alike.
    pub fn is_like(&self, other: &Entry) -> bool {
        self.retain == other.retain && self.topic == other.topic && self.payload == other.payload
    }
}

/// A session.
#[derive(Drop)]
pub struct Session {
    /// The identifier of its client.
    pub client: ClientId,
    /// Whether it was begun with CleanSession 1.
    pub clean: bool,
    /// Whether it is about to end.
    pub is_over: bool,
    /// Its current connection.
    pub connection: Option<ConnectionName>,
    // Its subscriptions, each with the QoS that was granted last.
    filters: Vec<(Filter, QoS)>,
    // The identifiers of PUBLISHes at QoS 2 whose PUBREL did not come yet.
    received: Vec<PacketId>,
    /// All that it ever had to send at QoS 2, the oldest first.
    pub entries: Vec<Entry>,
}

impl Session {
    /// Begins a session.
    pub fn new(
        alloc: Global,
        client: ClientId,
        clean: bool,
        connection: ConnectionName,
    ) -> Session {
        Session {
            client,
            clean,
            is_over: false,
            connection: Some(connection),
            filters: Vec::new(alloc),
            received: Vec::new(alloc),
            entries: Vec::new(alloc),
        }
    }

    /// Keeps the identifier of a PUBLISH. Returns whether it is a repeat.
    pub fn note_identifier(&mut self, id: PacketId) -> Option<bool> {
        if self.received.iter().any(|it| *it == id) {
            return Some(true);
        }
        self.received.push(id).ok()?;
        Some(false)
    }

    /// Forgets an identifier whose PUBREL came.
    pub fn forget(&mut self, id: PacketId) {
        self.received.retain(|it| *it != id);
    }

    /// Grants a filter in place of the same one.
    pub fn grant(&mut self, filter: &Filter, qos: QoS) -> Option<()> {
        self.revoke(filter);
        self.filters.push((filter.clone().ok()?, qos)).ok()
    }

    /// Takes a filter back.
    pub fn revoke(&mut self, filter: &Filter) {
        self.filters.retain(|(held, _)| held != filter);
    }

    /// Returns true if the session gets a publication at QoS 2 at QoS 2: one of its filters at QoS
    /// 2 matches.
    pub fn wants(&self, topic: &TopicName) -> bool {
        self.filters.iter().any(|(filter, qos)| {
            *qos == QoS::ExactlyOnce && is_match(filter.as_str(), topic.as_str())
        })
    }

    /// Adds a publication to those that it has to send at QoS 2.
    pub fn add(&mut self, retain: bool, topic: &TopicName, payload: &Payload) -> Option<()> {
        let entry = Entry {
            retain,
            topic: topic.clone().ok()?,
            payload: payload.clone().ok()?,
        };
        self.entries.push(entry).ok()
    }

    /// Returns true if two sessions are of the same client, with the same entries.
    pub fn is_like(&self, other: &Session) -> bool {
        self.client == other.client
            && self.entries.len() == other.entries.len()
            && self
                .entries
                .iter()
                .zip(other.entries.iter())
                .all(|(one, other)| one.is_like(other))
    }
}
