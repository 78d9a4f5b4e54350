// A long list of calls by a fixed rule, of both indexes.

use super::grants::{Shown, shown};
use packet_base::{ClientId, QoS};
use rows::Numbers;
use std::alloc::Global;
use std::test::*;
use subs::TreeIndex;
use subs_base::{ListIndex, SubIndex};
use topics::{Filter, TopicName};

/// How many calls.
const CALLS: u32 = 20_000;

const CLIENTS: [&str; 8] = ["a", "aa", "ab", "b", "ba", "c", "d", "e"];

const FILTERS: [&str; 32] = [
    "#", "+", "+/+", "+/+/+", "a", "a/#", "a/+", "a/+/#", "a/b", "a/b/#", "a/b/c", "a/+/c", "+/b",
    "+/b/#", "+/+/c", "+/#", "/", "/#", "/+", "+/", "a/", "a//b", "a/+/b", "$s", "$s/#", "$s/+",
    "$s/b", "+/$s", "a/$s", "b", "ab", "a/b/c/d",
];

const TOPICS: [&str; 16] = [
    "a", "a/b", "a/b/c", "a/b/c/d", "b", "b/b", "b/b/c", "ab", "/", "/a", "a/", "a//b", "$s",
    "$s/b", "$s/b/c", "a/$s",
];

// Both indexes, after the same calls.
#[derive(Drop)]
struct Both {
    list: ListIndex,
    tree: TreeIndex,
}

// What came of a call that both do not answer alike.
#[derive(Clone, Copy, Debug, PartialEq, Eq)]
enum Came {
    // Nothing: memory ran out.
    Nothing,
    // The list had a subscription to remove and the tree none, or the other way round.
    Cleared(bool),
    // The numbers of rows that the list and the tree grant. They differ; the rows that both grant
    // are equal.
    Counts(usize, usize),
    // At this index the list grants the first of these, and the tree the second.
    Granted(usize, Shown, Shown),
}

// A client, a filter and a topic.
type Names = (&'static str, &'static str, &'static str);

// A call that both do not answer alike, by its number, what it names, and what came.
#[derive(Clone, Copy, Debug, PartialEq, Eq)]
struct Fault {
    number: u32,
    names: Names,
    came: Came,
}

fn set_alike(both: &mut Both, client: &ClientId, filter: &Filter, number: u64) -> bool {
    let qos = match number % 3 {
        0 => QoS::AtMostOnce,
        1 => QoS::AtLeastOnce,
        _ => QoS::ExactlyOnce,
    };
    both.list.set(client, filter, qos).is_ok() && both.tree.set(client, filter, qos).is_ok()
}

// Returns how many rows both grant alike, or how they differ.
fn rows_alike(list: &[(ClientId, QoS)], tree: &[(ClientId, QoS)]) -> Result<usize, Came> {
    let mut index: usize = 0;
    for ((client, qos), (other, level)) in list.iter().zip(tree) {
        if client.as_str() != other.as_str() || *qos != *level {
            return Err(Came::Granted(index, shown(client, *qos), shown(other, *level)));
        }
        index = index.saturating_add(1);
    }
    if list.len() == tree.len() {
        Ok(list.len())
    } else {
        Err(Came::Counts(list.len(), tree.len()))
    }
}

// Returns the same of the rows at a topic.
fn granted_alike(alloc: Global, both: &Both, topic: &str) -> Result<usize, Came> {
    let mut list = Vec::new(alloc);
    let mut tree = Vec::new(alloc);
    let is_granted = match TopicName::new(alloc, topic) {
        Ok(topic) => {
            both.list.granted(&topic, &mut list).is_ok()
                && both.tree.granted(&topic, &mut tree).is_ok()
        }
        Err(_) => false,
    };
    if is_granted {
        rows_alike(list.as_slice(), tree.as_slice())
    } else {
        Err(Came::Nothing)
    }
}

// Makes the call of the next number for this client, filter and topic. Returns how many rows were
// granted, or how the answers differ.
fn call_with(
    alloc: Global,
    both: &mut Both,
    numbers: &mut Numbers,
    client: &ClientId,
    filter: &Filter,
    topic: &str,
) -> Result<usize, Came> {
    match numbers.next() % 64 {
        0 => {
            both.list.drop_client(client);
            both.tree.drop_client(client);
            Ok(0)
        }
        1..=23 => {
            let listed = both.list.clear(client, filter);
            let is_alike = listed == both.tree.clear(client, filter);
            if is_alike {
                Ok(0)
            } else {
                Err(Came::Cleared(listed))
            }
        }
        24..=31 => granted_alike(alloc, both, topic),
        _ => {
            let is_alike = set_alike(both, client, filter, numbers.next());
            if is_alike { Ok(0) } else { Err(Came::Nothing) }
        }
    }
}

// Makes the call of the next number for the client, filter and topic of these texts, in the same
// way.
fn call_both(
    alloc: Global,
    both: &mut Both,
    numbers: &mut Numbers,
    names: Names,
) -> Result<usize, Came> {
    let (client, filter, topic) = names;
    let Ok(client) = ClientId::new(alloc, client) else {
        return Err(Came::Nothing);
    };
    let Ok(filter) = Filter::new(alloc, filter) else {
        return Err(Came::Nothing);
    };
    call_with(alloc, both, numbers, &client, &filter, topic)
}

// Returns the client, the filter and the topic of the next numbers.
fn next_names(numbers: &mut Numbers) -> Names {
    let client = CLIENTS[(numbers.next() % 8) as usize];
    let filter = FILTERS[(numbers.next() % 32) as usize];
    let topic = TOPICS[(numbers.next() % 16) as usize];
    (client, filter, topic)
}

// Returns the first call that both do not answer alike, and what came. How many rows were granted
// is added up.
fn first_fault(alloc: Global, both: &mut Both, rows: &mut usize) -> Option<Fault> {
    let mut numbers = Numbers::new(23);
    for number in 0..CALLS {
        let names = next_names(&mut numbers);
        match call_both(alloc, both, &mut numbers, names) {
            Ok(found) => *rows = rows.saturating_add(found),
            Err(came) => {
                return Some(Fault {
                    number,
                    names,
                    came,
                });
            }
        }
    }
    None
}

// Returns the first call that the two indexes do not answer alike, and how many rows were granted.
fn call_in_turn(alloc: Global) -> (Option<Fault>, usize) {
    let mut rows: usize = 0;
    let mut both = Both {
        list: ListIndex::new(alloc),
        tree: TreeIndex::new(alloc),
    };
    let fault = first_fault(alloc, &mut both, &mut rows);
    (fault, rows)
}

#[test]
fn list_and_tree_answer_many_calls_alike(rt: HostRuntime) {
    let (fault, rows) = call_in_turn(rt.alloc());
    assert_eq!(rt; fault, None);
    assert!(rt; rows > 5_000, "{rows}");
}
