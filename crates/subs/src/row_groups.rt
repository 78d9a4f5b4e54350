// Building the tree of a whole list: the rows are gathered by filter, and then all rows of a filter
// are put at its node at once. So the nodes of a filter are looked up once, however many clients it
// has.

ghost use Rattle.std.specs.Prelude.{◌≡◌, IfOk, OnOk};
ghost use Rattle.std.specs.BTreeMap.{IsOrdered};
ghost use Rattle.std.specs.Cmp.Lexicographic.{slice_cmp};
ghost use Rattle.std.specs.Ordering.{nat_cmp};
ghost use Rattle.subs_base.specs.Content.{no_subscriptions, with_row};
ghost use Rattle.subs_base.specs.ListIndex.{content_of};
ghost use Rattle.subs_base.specs.Inside.{listed};
ghost use Rattle.subs.specs.Gathered.{gathered, groups_as_lists, clients_set, filters_set};
ghost use Rattle.subs.specs.Shown.{content_of_nodes, IsSoundTree};

use crate::group::Group;
use crate::nodes::Nodes;
use indexmap::IndexMap;
use machine::Memory;
use packet_base::{ClientId, QoS};
use std::alloc::Global;
use std::collections::BTreeMap;
use topics::Filter;

/// Each filter with its rows, in the order in which the filters were first met.
pub(crate) type Groups = IndexMap<Filter, Group>;

/// Returns the rows of each filter of a list.
pub(crate) fn gather(
    alloc: Global,
    clients: &BTreeMap<ClientId, BTreeMap<Filter, QoS>>,
) -> Result<Groups, Memory>
    ensures { IfOk result
        (λ groups. gathered (groups_as_lists groups.entries)
        ≡ content_of (listed clients.now.entries)) }
{
    let mut groups = IndexMap::new(alloc);
    for (client, filters) in clients {
        gather_filters(alloc, &mut groups, client, filters)?;
    }
    Ok(groups)
}

// Adds the rows of a client.
fn gather_filters(
    alloc: Global,
    groups: &mut Groups,
    client: &ClientId,
    filters: &BTreeMap<Filter, QoS>,
) -> Result<(), Memory>
    ensures rows { OnOk result
        (gathered (groups_as_lists groups.new.entries)
        ≡ filters_set client.now filters.now.entries
        (gathered (groups_as_lists groups.old.entries))) }

    // Going over the map shows that it is ordered, which `gather` needs.
    ensures ordered { IsOrdered (slice_cmp nat_cmp) filters.now }
{
    for (filter, qos) in filters {
        add_row(alloc, groups, filter, (client.clone()?, *qos))?;
    }
    Ok(())
}

// Adds one row to a filter.
fn add_row(
    alloc: Global,
    groups: &mut Groups,
    filter: &Filter,
    row: (ClientId, QoS),
) -> Result<(), Memory>
    ensures { OnOk result
        (gathered (groups_as_lists groups.new.entries)
        ≡ with_row (gathered (groups_as_lists groups.old.entries)) row.0 filter.now row.1) }
{
    if let Some(group) = groups.get_mut(filter) {
        return group.add(alloc, row);
    }
    groups.insert(filter.clone()?, Group::One(row.0, row.1))?;
    Ok(())
}

/// Returns the tree of these filters.
pub(crate) fn nodes_of(alloc: Global, groups: Groups) -> Result<Nodes, Memory>
    ensures content { IfOk result
        (λ nodes. content_of_nodes nodes ≡ gathered (groups_as_lists groups.entries)) }
    ensures sound { IfOk result IsSoundTree }
{
    let mut nodes = Nodes::new(alloc);
    for (filter, group) in groups {
        let rows = group.into_rows(alloc)?;
        nodes.put(filter.as_str().as_bytes(), rows)?;
    }
    Ok(nodes)
}
