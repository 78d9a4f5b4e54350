// The simple index: a map from clients to their filters, scanned for each publication.
//
// Two nested maps have each pair of client and filter once, so setting a filter again replaces it.
// The value in contracts is the list of clients in the order of their bytes, each with its filters;
// the content of which the trait's clauses speak, a function, is read from that list, since a value
// in contracts must be data. `granted` tests every filter, which makes it easy to prove and slow:
// programs use the tree of `subs`, which keeps a `ListIndex` beside its nodes and proves that both
// have the same content.

ghost use Rattle.std.specs.Prelude.{
  ◌≡◌,
  ◌≢◌,
  [],
  ◌++◌,
  ◌↔◌,
  IsTrue,
  IsSome,
  OnOk,
  OnErr,
  is_some,
  option_map,
  List,
  ℕ,
  Some,
  None,
  bytes_eq,
  if◌then◌else◌,
  take,
  length,
};
ghost use Rattle.std.specs.Cmp.Lexicographic.{slice_cmp};
ghost use Rattle.std.specs.Ordering.{nat_cmp};
ghost use Rattle.std.specs.BTreeMap.{Updates, IsOrdered, get};
ghost use Rattle.subs_base.specs.Content.{without_row, with_client_filters};
ghost use Rattle.subs_base.specs.Granted.{IsWanted};
ghost use Rattle.subs_base.specs.ListIndex.{content_of, at};
ghost use Rattle.subs_base.specs.Inside.{listed, greatest_from, rows_of, AreOrdered};

use crate::sub_index::SubIndex;
use machine::Memory;
use packet_base::{ClientId, QoS};
use std::alloc::Global;
use std::collections::BTreeMap;
use std::marker::Model;
use topics::{Filter, TopicName, matches};

/// An index that tests every filter of every client for each publication.
#[derive(Debug)]
pub struct ListIndex {
    // Each filter with the QoS that was granted last.
    clients: BTreeMap<ClientId, BTreeMap<Filter, QoS>>,
    alloc: Global,
}

impl Drop for ListIndex {
    fn drop(self) {
        let ListIndex {
            clients: _clients,
            alloc: _,
        } = self;
    }
}

impl Model for ListIndex {
    ghost use Rattle.subs_base.specs.ListIndex.{Clients};
    ghost use Rattle.subs_base.specs.Inside.{listed};

    ghost Value = { Clients };

    ghost view = { λ index. listed index.clients.entries };
}

impl SubIndex for ListIndex {
    ghost content = { content_of };

    fn new(alloc: Global) -> ListIndex {
        ListIndex {
            clients: BTreeMap::new(alloc),
            alloc,
        }
    }

    fn set(&mut self, client: &ClientId, filter: &Filter, qos: QoS) -> Result<(), Memory> {
        match self.clients.get_mut(client) {
            Some(filters) => set_filter(filters, filter, qos),
            None => {
                let mut filters = BTreeMap::new(self.alloc);
                set_filter(&mut filters, filter, qos)?;
                self.clients.insert(client.clone()?, filters)?;
                Ok(())
            }
        }
    }

    fn clear(&mut self, client: &ClientId, filter: &Filter) -> bool {
        let found = self.clear_row(client, filter);
        self.drop_empty(client);
        found
    }

    fn drop_client(&mut self, client: &ClientId) {
        self.clients.remove(client);
    }

    fn granted(&self, topic: &TopicName, rows: &mut Vec<(ClientId, QoS)>) -> Result<(), Memory> {
        let before = rows.len();
        let appended = append_rows(&self.clients, topic, rows);
        if appended.is_err() {
            rows.truncate(before);
        }
        appended
    }
}

impl ListIndex {
    /// Returns the clients in the order of their bytes, each with its filters in theirs.
    pub fn clients(&self) -> &BTreeMap<ClientId, BTreeMap<Filter, QoS>>
        ensures { listed result.now.entries ≡ self.now }
    {
        &self.clients
    }

    /// Replaces all filters of a client by these. If memory runs out the index is unchanged.
    pub fn put(&mut self, client: &ClientId, filters: BTreeMap<Filter, QoS>) -> Result<(), Memory>
        ensures ok { OnOk result
            (content_of self.new ≡ with_client_filters (content_of self.old) client.now
            (get (slice_cmp nat_cmp) filters)) }
        ensures err { OnErr result (content_of self.new ≡ content_of self.old) }
    {
        if filters.is_empty() {
            self.drop_client(client);
            return Ok(());
        }
        self.clients.insert(client.clone()?, filters)?;
        Ok(())
    }

    /// Returns the filters of a client, if it has any, in the order of their bytes.
    pub fn filters_of(&self, client: &ClientId) -> Option<&BTreeMap<Filter, QoS>>
        ensures { option_map (λ filters. filters.now.entries) result ≡ at client.now self.now }
    {
        self.clients.get(client)
    }

    // Removes the subscription and returns whether it was there. The client's map stays, and may be
    // empty.
    fn clear_row(&mut self, client: &ClientId, filter: &Filter) -> bool
        ensures found { IsTrue result ↔ IsSome (content_of self.old client.now filter.now) }
        ensures after { content_of self.new
            ≡ without_row (content_of self.old) client.now filter.now }
    {
        match self.clients.get_mut(client) {
            Some(filters) => clear_filter(filters, filter),
            None => false,
        }
    }

    // Removes the client's map if it is empty.
    fn drop_empty(&mut self, client: &ClientId)
        ensures same { content_of self.new ≡ content_of self.old }
        ensures gone { at client.now self.new ≢ Some [] }
    {
        let Some(filters) = self.clients.get(client) else {
            return;
        };
        if filters.is_empty() {
            let _empty = self.clients.remove(client);
        }
    }
}

// Sets the QoS of a filter. After an error nothing has changed.
fn set_filter(filters: &mut BTreeMap<Filter, QoS>, filter: &Filter, qos: QoS) -> Result<(), Memory>
    ensures ok { OnOk result
        (Updates (slice_cmp nat_cmp) filters.old filters.new filter.now (Some qos)) }
    ensures err { OnErr result (filters.new.entries ≡ filters.old.entries) }
    ensures absent { OnErr result (get (slice_cmp nat_cmp) filters.old filter.now ≡ None) }
{
    if let Some(kept) = filters.get_mut(filter) {
        *kept = qos;
        return Ok(());
    }
    filters.insert(filter.clone()?, qos)?;
    Ok(())
}

// Removes a filter and returns whether it was there.
fn clear_filter(filters: &mut BTreeMap<Filter, QoS>, filter: &Filter) -> bool
    ensures found { result ≡ is_some (get (slice_cmp nat_cmp) filters.old filter.now) }
    ensures after { Updates (slice_cmp nat_cmp) filters.old filters.new filter.now None }
{
    filters.remove(filter).is_some()
}

// Appends a row for each client with a matching filter. If memory runs out, some of them may have
// been appended.
fn append_rows(
    clients: &BTreeMap<ClientId, BTreeMap<Filter, QoS>>,
    topic: &TopicName,
    rows: &mut Vec<(ClientId, QoS)>,
) -> Result<(), Memory>
    ensures ok { OnOk result
        (rows.new.items ≡ rows.old.items ++ rows_of topic.now (listed clients.now.entries)) }
    ensures ordered { OnOk result (AreOrdered (listed clients.now.entries)) }
    ensures clients_ordered { IsOrdered (slice_cmp nat_cmp) clients.now }
    ensures err { OnErr result (rows.old.items ≡ take (length rows.old.items) rows.new.items) }
    ensures wanted { OnErr result (IsWanted (content_of (listed clients.now.entries)) topic.now) }
{
    for (client, filters) in clients {
        if let Some(qos) = greatest(filters, topic) {
            rows.push((client.clone()?, qos))?;
        }
    }
    Ok(())
}

// Returns the greatest QoS of the filters that match the topic, if any does.
fn greatest(filters: &BTreeMap<Filter, QoS>, topic: &TopicName) -> Option<QoS>
    ensures value { result ≡ greatest_from topic.now None filters.now.entries }
    ensures ordered { IsOrdered (slice_cmp nat_cmp) filters.now }
{
    let mut best = None;
    for (filter, qos) in filters {
        if matches(filter, topic) {
            best = Some(qos.greater(best));
        }
    }
    best
}
