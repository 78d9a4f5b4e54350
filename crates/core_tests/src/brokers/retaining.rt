// A store of retained publications at its limit (MQTT 3.3.1.3).

use packet_base::{Payload, QoS};
use retained::{RetainedError, RetainedStore};
use std::alloc::Global;
use std::test::*;
use topics::TopicName;

// Returns what a store answers to a publication; none if there was no memory for it.
fn put(
    alloc: Global,
    store: &mut RetainedStore,
    topic: &str,
    qos: QoS,
    payload: &str,
) -> Option<Result<(), RetainedError>> {
    let topic = TopicName::new(alloc, topic).ok()?;
    let payload = Payload::new(alloc, payload.as_bytes()).ok()?;
    Some(store.put(topic, qos, payload))
}

// What a store answers to a publication, and how many topics are kept then.
type Came = (Option<Result<(), RetainedError>>, usize);

// Keeps a publication of the topic of a number.
fn put_numbered(
    alloc: Global,
    store: &mut RetainedStore,
    number: u32,
) -> Option<Result<(), RetainedError>> {
    let text = format!(in alloc; "t/{number}").ok()?;
    put(alloc, store, text.as_str(), QoS::AtMostOnce, "x")
}

// Keeps a publication of each of as many topics as a store may have. Returns the number of the
// first topic that is not kept, and what came.
fn first_fault_of_filling(alloc: Global, store: &mut RetainedStore) -> Option<(u32, Came)> {
    for number in 0..16_384u32 {
        let answer = put_numbered(alloc, store, number);
        if answer != Some(Ok(())) {
            return Some((number, (answer, store.len())));
        }
    }
    None
}

// What is put into a full store: the topic, the payload, the answer, and how many topics are kept
// then. Another topic is refused until one is removed.
const AT_THE_LIMIT: &[(&str, &str, Result<(), RetainedError>, usize)] = &[
    ("new", "x", Err(RetainedError::RetainedFull), 16_384),
    ("new", "", Ok(()), 16_384),
    ("t/7", "y", Ok(()), 16_384),
    ("t/7", "", Ok(()), 16_383),
    ("new", "x", Ok(()), 16_384),
];

// Returns the first of these that is answered otherwise, and what came.
fn first_fault_at_the_limit(
    alloc: Global,
    store: &mut RetainedStore,
) -> Option<(&'static str, Came)> {
    for (topic, payload, wanted, kept) in AT_THE_LIMIT {
        let answer = put(alloc, store, topic, QoS::AtMostOnce, payload);
        if answer != Some(*wanted) || store.len() != *kept {
            return Some((*topic, (answer, store.len())));
        }
    }
    None
}

#[test]
fn a_store_keeps_16384_topics(rt: HostRuntime) {
    let mut store = RetainedStore::new(rt.alloc());
    assert!(rt; store.is_empty());
    assert_eq!(rt; first_fault_of_filling(rt.alloc(), &mut store), None);
    assert_eq!(rt; (store.len(), store.is_empty()), (16_384, false));
    assert_eq!(rt; first_fault_at_the_limit(rt.alloc(), &mut store), None);
}
