// The index of subscriptions as a tree of the filters' levels.
//
// The same subscriptions are held twice, and the invariant says that both contents are equal. The
// list, by client and then by filter, finds the filters of a client that is dropped, and is the
// value of the index in contracts. The tree, by the levels of the filters, answers `granted`: the
// walk follows at most the child of a level and the child of `+`, so its cost depends on the topic
// and on what matches, not on all subscriptions. Nodes are numbered in a slab and do not own each
// other, so the index can be passed from thread to thread. The nodes are a tree: no two paths lead
// to one node, and each node on a path is in use. A change that runs out of memory changes neither
// side.

ghost use Rattle.std.specs.Prelude.{◌≡◌, ◌++◌, IfOk, OnOk, OnErr, take, length};
ghost use Rattle.std.specs.BTreeMap.{IsOrdered, get};
ghost use Rattle.std.specs.Cmp.Lexicographic.{slice_cmp};
ghost use Rattle.std.specs.Ordering.{nat_cmp};
ghost use Rattle.subs_base.specs.ListIndex.{content_of};
ghost use Rattle.subs.specs.Inside.{cleared};
ghost use Rattle.subs.specs.Walk.{GivesSome};
ghost use Rattle.subs.specs.Shown.{content_of_nodes, IsSoundTree};

use crate::nodes::Nodes;
use crate::row_groups::{gather, nodes_of};
use machine::Memory;
use packet_base::{ClientId, QoS};
use std::alloc::Global;
use std::collections::BTreeMap;
use std::marker::Model;
use subs_base::{ListIndex, SubIndex};
use topics::{Filter, TopicName};

/// An index that walks the levels of a topic: the cost of a publication depends on its levels and
/// the rows that match, not on other subscriptions. No contract states the cost.
#[derive(Debug)]
pub struct TreeIndex {
    // Finds the filters of a client that is dropped.
    clients: ListIndex,
    /// The same subscriptions by the levels of their filters.
    pub(crate) nodes: Nodes,
    // For the map of clients found for a publication.
    alloc: Global,
}

impl Drop for TreeIndex {
    fn drop(self) {
        let TreeIndex {
            clients: _clients,
            nodes: _nodes,
            alloc: _,
        } = self;
    }
}

impl Model for TreeIndex {
    ghost use Rattle.std.specs.Prelude.{◌≡◌};
    ghost use Rattle.subs_base.specs.ListIndex.{Clients, content_of};
    ghost use Rattle.subs.specs.Shown.{content_of_nodes, IsSoundTree};

    ghost Value = { Clients };

    ghost view = { λ index. index.clients };

    ghost invariant = { λ index. (content_of index.clients ≡ content_of_nodes index.nodes)
        × IsSoundTree index.nodes };
}

impl SubIndex for TreeIndex {
    ghost content = { content_of };

    fn new(alloc: Global) -> TreeIndex {
        TreeIndex {
            clients: ListIndex::new(alloc),
            nodes: Nodes::new(alloc),
            alloc,
        }
    }

    fn set(&mut self, client: &ClientId, filter: &Filter, qos: QoS) -> Result<(), Memory> {
        self.clients.set(client, filter, qos)?;
        let text = filter.as_str().as_bytes();
        let set = self.nodes.set(text, client, qos);
        if set.is_err() {
            self.clients.clear(client, filter);
        }
        set
    }

    fn clear(&mut self, client: &ClientId, filter: &Filter) -> bool {
        self.clients.clear(client, filter);
        self.nodes.clear(filter.as_str().as_bytes(), client)
    }

    fn drop_client(&mut self, client: &ClientId) {
        if let Some(filters) = self.clients.filters_of(client) {
            clear_all(&mut self.nodes, filters, client);
        }
        self.clients.drop_client(client);
    }

    fn granted(&self, topic: &TopicName, rows: &mut Vec<(ClientId, QoS)>) -> Result<(), Memory> {
        let mut found = BTreeMap::new(self.alloc);
        self.nodes.find(topic.as_str().as_bytes(), &mut found)?;
        let before = rows.len();
        let appended = append_rows(&found, rows);
        if appended.is_err() {
            rows.truncate(before);
        }
        appended
    }
}

impl TreeIndex {
    /// Builds the index of a whole list in one pass, in place of one `set` for each of its filters.
    pub fn of_list(alloc: Global, clients: ListIndex) -> Result<TreeIndex, Memory>
        ensures { IfOk result (λ index. index ≡ clients) }
    {
        let groups = gather(alloc, clients.clients())?;
        let nodes = nodes_of(alloc, groups)?;
        Ok(TreeIndex {
            clients,
            nodes,
            alloc,
        })
    }
}

// Removes the client's rows of these filters.
fn clear_all(nodes: &mut Nodes, filters: &BTreeMap<Filter, QoS>, client: &ClientId)
    requires { IsSoundTree nodes.old }
    ensures after { content_of_nodes nodes.new
        ≡ cleared client.now filters.now.entries (content_of_nodes nodes.old) }
    ensures sound { IsSoundTree nodes.new }
{
    for (filter, _) in filters {
        nodes.clear(filter.as_str().as_bytes(), client);
    }
}

// Appends the rows. If memory runs out, some of them may have been appended.
fn append_rows(
    found: &BTreeMap<ClientId, QoS>,
    rows: &mut Vec<(ClientId, QoS)>,
) -> Result<(), Memory>
    ensures ok { OnOk result (rows.new.items ≡ rows.old.items ++ found.now.entries) }
    ensures ordered { IsOrdered (slice_cmp nat_cmp) found.now }
    ensures err { OnErr result (rows.old.items ≡ take (length rows.old.items) rows.new.items) }
    ensures some { OnErr result (GivesSome (get (slice_cmp nat_cmp) found.now)) }
{
    for (client, qos) in found {
        rows.push((client.clone()?, *qos))?;
    }
    Ok(())
}
