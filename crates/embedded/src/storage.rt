// What a broker keeps: subscriptions, the session of a client, retained publications.

use crate::bytes::{PUBLISH, PUBREL, are_spelled};
use crate::names::Names;
use anyhow::Result;
use packet::{ClientId, PacketId, Payload, QoS};
use retained::{RetainedPublication, RetainedStore};
use session::{Arrival, MAX_ENTRIES, Publication, Session};
use std::alloc::Global;
use subs::{ListIndex, SubIndex, TreeIndex};
use topics::{Filter, TopicName};

/// PUBLISH 2 of `y` to `t/1` at QoS 1.
const PUBLISH_2: &[u8] = &[0x32, 0x08, 0x00, 0x03, 0x74, 0x2F, 0x31, 0x00, 0x02, 0x79];

/// The same with DUP 1.
const PUBLISH_2_AGAIN: &[u8] = &[0x3A, 0x08, 0x00, 0x03, 0x74, 0x2F, 0x31, 0x00, 0x02, 0x79];

/// Uses `subs`, `session` and `retained`.
pub fn run<R: Print>(rt: &R, alloc: Global) -> Result<()> {
    use_subs(alloc)?.print(rt)?;
    use_session(alloc)?.print(rt)?;
    use_retained(alloc)?.print(rt)
}

// Both indexes do the same.
fn use_subs(alloc: Global) -> Result<Names> {
    let (mut names, mut again) = (Names::of("subs"), Names::of("subs"));
    use_new_index::<TreeIndex>(alloc, &mut names)?;
    names.uses("TreeIndex", names.are_right());
    use_new_index::<ListIndex>(alloc, &mut again)?;
    names.uses("ListIndex", again.are_right());
    Ok(names)
}

// Lends the index, so that it is dropped in one place.
fn use_new_index<S: SubIndex>(alloc: Global, names: &mut Names) -> Result<()> {
    let mut index = S::new(alloc);
    let used = use_index(alloc, &mut index, names);
    drop(index);
    used
}

// Client `a` subscribes, and unsubscribes; then it is forgotten.
fn use_index<S: SubIndex>(alloc: Global, index: &mut S, names: &mut Names) -> Result<()> {
    let client = ClientId::new(alloc, "a")?;
    let filter = Filter::new(alloc, "t/#")?;
    let topic = TopicName::new(alloc, "t/1")?;
    let is_set = index.set(&client, &filter, QoS::AtLeastOnce).is_ok();
    names.uses("SubIndex::set", is_set);
    names.uses("SubIndex::granted", has_clients(alloc, index, &topic, 1));
    let is_right = index.clear(&client, &filter) && !index.clear(&client, &filter);
    names.uses("SubIndex::clear", is_right);
    let is_set = index.set(&client, &filter, QoS::AtMostOnce).is_ok();
    index.drop_client(&client);
    names.uses(
        "SubIndex::drop_client",
        is_set && has_clients(alloc, index, &topic, 0),
    );
    Ok(())
}

// Returns true if a topic is granted to this many clients.
fn has_clients<S: SubIndex>(alloc: Global, index: &S, topic: &TopicName, count: usize) -> bool {
    let mut rows = Vec::new(alloc);
    index.granted(topic, &mut rows).is_ok() && rows.len() == count
}

// Makes a session, and lends it, so that it is dropped in one place.
fn use_session(alloc: Global) -> Result<Names> {
    let mut names = Names::of("session");
    let mut session = Session::new(alloc);
    names.uses("Session", session.subscription_count() == 0);
    receive(&mut session, &mut names);
    let queued = queue(alloc, &mut session, &mut names);
    send(alloc, &mut session, &mut names);
    drop(session);
    queued?;
    Ok(names)
}

// The receiver's side of QoS 2 (MQTT 4.3.3).
fn receive(session: &mut Session, names: &mut Names) {
    let id = PacketId::new(1);
    let first = session.inbound(id) == Ok(Arrival::First);
    let is_right = first && session.inbound(id) == Ok(Arrival::Again);
    names.uses("Session::inbound", is_right);
    session.release(id);
    let is_right = session.inbound(id) == Ok(Arrival::First);
    names.uses("Session::release", is_right);
}

// Queues `x` at QoS 2 and `y` at QoS 1.
fn queue(alloc: Global, session: &mut Session, names: &mut Names) -> Result<()> {
    names.uses("Session::room", session.room() == MAX_ENTRIES);
    let first = session
        .enqueue(publication(alloc, QoS::ExactlyOnce, b"x")?)
        .is_ok();
    let second = session
        .enqueue(publication(alloc, QoS::AtLeastOnce, b"y")?)
        .is_ok();
    let is_right = first && second && session.room() == MAX_ENTRIES - 2;
    names.uses("Session::enqueue", is_right);
    Ok(())
}

// Returns a publication on `t/1`.
fn publication(alloc: Global, qos: QoS, payload: &[u8]) -> Result<Publication> {
    let topic = TopicName::new(alloc, "t/1")?;
    Ok(Publication {
        retain: false,
        qos,
        topic,
        payload: Payload::new(alloc, payload)?,
    })
}

// The sender's side: `x` gets identifier 1, and `y` 2. In between the connection is lost.
fn send(alloc: Global, session: &mut Session, names: &mut Names) {
    let (x, y) = (PacketId::new(1), PacketId::new(2));
    let (mut filled, mut released, mut resent) = (
        Vec::new(alloc),
        Vec::new(alloc),
        Vec::new(alloc),
    );
    let is_filled = session.fill(&mut filled).is_ok();
    let is_right = is_filled && are_spelled(alloc, filled.as_slice(), &[PUBLISH, PUBLISH_2]);
    names.uses("Session::fill", is_right);
    let is_released = session.on_pubrec(x, &mut released).is_ok();
    let is_right = is_released && are_spelled(alloc, released.as_slice(), &[PUBREL]);
    names.uses("Session::on_pubrec", is_right);
    let is_resent = session.resend(&mut resent).is_ok();
    let is_right = is_resent && are_spelled(alloc, resent.as_slice(), &[PUBREL, PUBLISH_2_AGAIN]);
    names.uses("Session::resend", is_right);
    session.on_puback(y);
    names.uses("Session::on_puback", session.room() == MAX_ENTRIES - 1);
    session.on_pubcomp(x);
    names.uses("Session::on_pubcomp", session.room() == MAX_ENTRIES);
}

// Makes a store, and lends it, so that it is dropped in one place.
fn use_retained(alloc: Global) -> Result<Names> {
    let mut names = Names::of("retained");
    let mut store = RetainedStore::new(alloc);
    names.uses("RetainedStore", store.is_empty());
    let kept = keep(alloc, &mut store, &mut names);
    drop(store);
    kept?;
    Ok(names)
}

// Retains `x`.
fn keep(alloc: Global, store: &mut RetainedStore, names: &mut Names) -> Result<()> {
    let filter = Filter::new(alloc, "t/#")?;
    let topic = TopicName::new(alloc, "t/1")?;
    let payload = Payload::new(alloc, b"x")?;
    let is_put = store.put(topic, QoS::ExactlyOnce, payload).is_ok();
    names.uses("RetainedStore::put", is_put && store.len() == 1);
    let mut entries = Vec::new(alloc);
    let is_read = store.matching(&filter, &mut entries).is_ok();
    let is_right = is_read && is_x(entries.as_slice());
    names.uses("RetainedStore::matching", is_right);
    Ok(())
}

// Returns true if these are `x` of the topic `t/1` at QoS 2, and nothing else.
fn is_x(entries: &[(TopicName, RetainedPublication)]) -> bool {
    match entries {
        [(topic, kept)] => {
            topic.as_str() == "t/1"
                && kept.qos == QoS::ExactlyOnce
                && kept.payload.as_slice() == b"x".as_slice()
        }
        _ => false,
    }
}
