// The number of nodes, about which there is no clause.

use crate::tree_index::TreeIndex;
use packet_base::{ClientId, QoS};
use std::alloc::Global;
use std::test::*;
use subs_base::{ListIndex, SubIndex};
use topics::Filter;

const FILTERS: u32 = 100_000;

/// The root, `a`, 331 groups, each with a `+` below it, and one node for each filter.
const NODES: usize = 1 + 1 + 331 + 331 + 100_000;

// Returns the filter with this number: four levels, of which some have a common prefix and some a
// `+`.
fn filter_of(alloc: Global, number: u32) -> Option<Filter> {
    let group = number % 331;
    let text = if number % 2 == 0 {
        format!(in alloc; "a/{group}/+/{number}")
    } else {
        format!(in alloc; "a/{group}/{number}/#")
    };
    Filter::new(alloc, text.ok()?.as_str()).ok()
}

// Sets the filter with this number; false if memory ran out.
fn set_one(alloc: Global, index: &mut TreeIndex, client: &ClientId, number: u32) -> bool {
    match filter_of(alloc, number) {
        Some(filter) => index.set(client, &filter, QoS::AtLeastOnce).is_ok(),
        None => false,
    }
}

// Clears the filter with this number; false if it was not set.
fn clear_one(alloc: Global, index: &mut TreeIndex, client: &ClientId, number: u32) -> bool {
    match filter_of(alloc, number) {
        Some(filter) => index.clear(client, &filter),
        None => false,
    }
}

// Sets all filters; false if memory ran out.
fn set_all(alloc: Global, index: &mut TreeIndex, client: &ClientId) -> bool {
    for number in 0..FILTERS {
        if !set_one(alloc, index, client, number) {
            return false;
        }
    }
    true
}

// Clears all filters; false if one was not set.
fn clear_all(alloc: Global, index: &mut TreeIndex, client: &ClientId) -> bool {
    for number in 0..FILTERS {
        if !clear_one(alloc, index, client, number) {
            return false;
        }
    }
    true
}

// Returns the number of nodes, and the capacity of the slab.
fn counts(index: &TreeIndex) -> (usize, usize) {
    (index.nodes.slab.len(), index.nodes.slab.capacity())
}

// Returns how many nodes all filters have; whether that number is the same after dropping, setting,
// clearing and setting them again; and whether only the root was left in between.
fn nodes_in_turn(alloc: Global) -> Option<(usize, bool, bool)> {
    let mut index = TreeIndex::new(alloc);
    let client = ClientId::new(alloc, "a").ok()?;
    let first = set_all(alloc, &mut index, &client);
    let before = counts(&index);
    index.drop_client(&client);
    let dropped = index.nodes.slab.len();
    let second = set_all(alloc, &mut index, &client);
    let between = counts(&index);
    let cleared = clear_all(alloc, &mut index, &client) && index.nodes.slab.len() == 1;
    let third = set_all(alloc, &mut index, &client);
    let stays = first && second && third && between == before && counts(&index) == before;
    Some((before.0, stays, dropped == 1 && cleared))
}

#[test]
fn nodes_are_used_again(rt: HostRuntime) {
    assert_eq!(rt; nodes_in_turn(rt.alloc()), Some((NODES, true, true)));
}

// Sets all filters in a list; false if memory ran out.
fn list_all(alloc: Global, list: &mut ListIndex, client: &ClientId) -> bool {
    for number in 0..FILTERS {
        match filter_of(alloc, number) {
            Some(filter) if list.set(client, &filter, QoS::AtLeastOnce).is_ok() => {}
            _ => return false,
        }
    }
    true
}

// Returns how many nodes the tree has that is built from the list of all filters.
fn nodes_built(alloc: Global) -> Option<usize> {
    let client = ClientId::new(alloc, "a").ok()?;
    let mut list = ListIndex::new(alloc);
    if !list_all(alloc, &mut list, &client) {
        return None;
    }
    let index = TreeIndex::of_list(alloc, list).ok()?;
    Some(index.nodes.slab.len())
}

#[test]
fn a_list_is_built_into_as_many_nodes(rt: HostRuntime) {
    assert_eq!(rt; nodes_built(rt.alloc()), Some(NODES));
}
