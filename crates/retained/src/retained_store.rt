// The store of retained publications.
//
// A topic is in the store exactly if its last publication with RETAIN 1 that was not refused had a
// payload; an empty payload removes it. So no entry has an empty payload, and the number of entries
// is the number of retained topics, at most `MAX_TOPICS`. The limit counts topics and not bytes:
// replacing the publication of a topic is never refused and takes no memory. The entries are
// ordered by the bytes of their topics, since `matching` has to return them in one order on every
// replica, and since a filter that begins with plain levels then needs to be compared only with one
// range of topics. Every refusal leaves the store as it was. `refuses` says beforehand whether
// `put` would return `RetainedFull`; after it, `keep` can only run out of memory.

ghost use Rattle.std.specs.Prelude.{◌≡◌, ◌++◌, ◌↔◌, [], length, take, Err, IsErr, IsOk, IsNone};
ghost use Rattle.std.specs.Prelude.{true, false, IsTrue, OnOk, OnErr, option_copied};
ghost use Rattle.std.specs.Cmp.Lexicographic.{slice_cmp};
ghost use Rattle.std.specs.Ordering.{nat_cmp};
ghost use Rattle.topics.specs.Text.{has_no_wildcard};
ghost use Rattle.retained.specs.Retained.{IsRising, publication_on, after_put, with_topic};
ghost use Rattle.retained.specs.Retained.{without_topic, is_full_for, is_retaining_refused, matching_entries};

use crate::error::RetainedError;
use crate::retained_publication::RetainedPublication;
use crate::search::append_matching;
use packet_base::{Payload, QoS};
use std::alloc::{AllocError, Global};
use std::collections::BTreeMap;
use std::collections::btree_map::Iter;
use std::marker::Model;
use topics::{Filter, TopicName, matches};

/// The most topics with a retained publication.
pub const MAX_TOPICS: usize = 16_384;

/// For each topic its last publication with RETAIN 1 (MQTT 3.3.1.3), at most [`MAX_TOPICS`] of
/// them.
#[derive(Debug)]
pub struct RetainedStore {
    // No entry has an empty payload.
    topics: BTreeMap<TopicName, RetainedPublication>,
}

impl Drop for RetainedStore {
    fn drop(self) {
        let RetainedStore { topics: _topics } = self;
    }
}

impl Model for RetainedStore {
    ghost use Rattle.retained.specs.Retained.{RetainedTopics};

    ghost Value = { RetainedTopics };

    ghost view = { λ store. store.topics.entries };
}

impl RetainedStore {
    /// Returns an empty store.
    pub fn new(alloc: Global) -> RetainedStore
        ensures { result ≡ [] }
    {
        RetainedStore {
            topics: BTreeMap::new(alloc),
        }
    }

    /// Returns how many topics have a retained publication.
    pub fn len(&self) -> usize
        ensures { result ≡ length self.now }
    {
        self.topics.len()
    }

    /// Returns true if no topic has a retained publication.
    pub fn is_empty(&self) -> bool
        ensures { IsTrue result ↔ (self.now ≡ []) }
    {
        self.topics.is_empty()
    }

    /// Returns the retained publication of the topic.
    pub fn get(&self, topic: &TopicName) -> Option<&RetainedPublication>
        ensures { option_copied result ≡ publication_on topic.now self.now }
    {
        self.topics.get(topic)
    }

    /// Returns true if [`RetainedStore::put`] would return `RetainedFull`.
    pub fn refuses(&self, topic: &TopicName, payload: &Payload) -> bool
        ensures { result ≡ is_retaining_refused self.now topic.now payload.now }
    {
        !payload.as_slice().is_empty() && self.is_full_for(topic)
    }

    /// Retains a publication in place of the topic's last one. An empty payload removes that one,
    /// which takes no memory (MQTT 3.3.1.3). `RetainedFull` if the topic would be the 16,385th,
    /// `Memory` if memory ran out; replacing a publication takes none.
    pub fn put(&mut self, topic: TopicName, qos: QoS, payload: Payload) -> Result<(), RetainedError>
        ensures ok { OnOk result (self.new ≡ after_put self.old topic qos payload) }

        // A refusal leaves the store as it was.
        ensures full { (result ≡ Err RetainedError.RetainedFull)
            ↔ IsTrue (is_retaining_refused self.old topic payload) }
        ensures memory { result ≡ Err RetainedError.Memory
            → IsNone (publication_on topic self.old) }
        ensures removal { payload ≡ [] → IsOk result }
        ensures err { OnErr result (self.new ≡ self.old) }
    {
        if payload.as_slice().is_empty() {
            self.remove(&topic);
            return Ok(());
        }
        if self.refuses(&topic, &payload) {
            return Err(RetainedError::RetainedFull);
        }
        self.keep(topic, RetainedPublication { qos, payload })?;
        Ok(())
    }

    /// Retains a publication in place of the topic's last one, if its topic is in the store or
    /// there is room for it. The only error is that memory ran out; replacing a publication takes
    /// none.
    pub fn keep(&mut self, topic: TopicName, kept: RetainedPublication) -> Result<(), AllocError>
        requires room { is_full_for self.old topic ≡ false }
        ensures ok { OnOk result (self.new ≡ with_topic self.old topic kept) }
        ensures memory { IsErr result → IsNone (publication_on topic self.old) }
        ensures err { OnErr result (self.new ≡ self.old) }
    {
        self.topics.insert(topic, kept)?;
        Ok(())
    }

    /// Removes the retained publication of the topic, if there is one.
    pub fn remove(&mut self, topic: &TopicName)
        ensures { self.new ≡ without_topic self.old topic.now }
    {
        self.topics.remove(topic);
    }

    /// Appends each topic that the filter matches, with its retained publication, in the order of
    /// the topics' bytes. If memory runs out the vector is unchanged; if no topic matches no memory
    /// is taken.
    pub fn matching(
        &self,
        filter: &Filter,
        entries: &mut Vec<(TopicName, RetainedPublication)>,
    ) -> Result<(), AllocError>
        ensures ok { OnOk result
            (entries.new.items ≡ entries.old.items ++ matching_entries self.now filter.now) }
        ensures err { OnErr result (entries.new.items ≡ entries.old.items) }
        ensures nothing { matching_entries self.now filter.now ≡ [] → IsOk result }
    {
        let before = entries.len();
        let appended = append_matching(&self.topics, filter, entries);
        if appended.is_err() {
            entries.truncate(before);
        }
        appended
    }

    /// Returns the retained publications in the order of the bytes of their topics.
    pub fn iter(&self) -> Iter<'_, TopicName, RetainedPublication>
        ensures entries { result ≡ self.now }
        ensures rising { IsRising self.now }
    {
        self.topics.iter()
    }

    // Returns true if the topic is not in the store and the store is full.
    fn is_full_for(&self, topic: &TopicName) -> bool
        ensures { result ≡ is_full_for self.now topic.now }
    {
        !self.topics.contains_key(topic) && self.topics.len() >= MAX_TOPICS
    }
}
