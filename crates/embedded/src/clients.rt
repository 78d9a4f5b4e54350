// A client that keeps its side of the handshakes.

use crate::bytes::{
    ACCEPTED, CONNECT_A, DISCONNECT, PRESENT, PUBCOMP, PUBLISH, PUBREC, PUBREL, SUBACK, SUBSCRIBE,
    UNSUBACK, UNSUBSCRIBE,
};
use crate::names::Names;
use anyhow::Result;
use client::{Accepted, ClientCore};
use packet::{ClientId, Payload, QoS};
use std::alloc::Global;
use topics::{Filter, TopicName};

/// Uses `client`.
pub fn run<R: Print>(rt: &R, alloc: Global) -> Result<()> {
    use_client(alloc)?.print(rt)
}

// Makes client `a`, and lends it, so that it is dropped in one place.
fn use_client(alloc: Global) -> Result<Names> {
    let mut names = Names::of("client");
    let mut client = ClientCore::new(alloc, ClientId::new(alloc, "a")?, 60);
    names.uses("ClientCore", client.client().as_str() == "a");
    let used = use_core(alloc, &mut client, &mut names);
    drop(client);
    used?;
    Ok(names)
}

// Calls each call of a client.
fn use_core(alloc: Global, client: &mut ClientCore, names: &mut Names) -> Result<()> {
    connect(alloc, client, names);
    subscribe(alloc, client, names)?;
    publish(alloc, client, names)?;
    accept(alloc, client, names);
    unsubscribe(alloc, client, names)?;
    reconnect(alloc, client, names);
    Ok(())
}

// Returns true if these are the bytes that the client wrote for the server.
fn wrote(alloc: Global, client: &mut ClientCore, bytes: &[u8]) -> bool {
    let mut out = Vec::new(alloc);
    client.outgoing(&mut out).is_ok() && out.as_slice() == bytes
}

// Opens a connection, which the server accepts.
fn connect(alloc: Global, client: &mut ClientCore, names: &mut Names) {
    names.uses("ClientCore::open", client.open().is_ok());
    names.uses("ClientCore::outgoing", wrote(alloc, client, CONNECT_A));
    let was_offline = !client.connected();
    names.uses("ClientCore::on_bytes", client.on_bytes(ACCEPTED).is_ok());
    names.uses("ClientCore::connected", was_offline && client.connected());
}

// Subscribes to `t/#` at QoS 2.
fn subscribe(alloc: Global, client: &mut ClientCore, names: &mut Names) -> Result<()> {
    let filter = Filter::new(alloc, "t/#")?;
    let is_sent = client.subscribe(filter, QoS::ExactlyOnce).is_ok();
    let is_written = wrote(alloc, client, SUBSCRIBE);
    let is_right = is_sent && is_written && client.on_bytes(SUBACK).is_ok();
    names.uses("ClientCore::subscribe", is_right);
    Ok(())
}

// Publishes `x` at QoS 2; it is kept until PUBCOMP.
fn publish(alloc: Global, client: &mut ClientCore, names: &mut Names) -> Result<()> {
    let topic = TopicName::new(alloc, "t/1")?;
    let payload = Payload::new(alloc, b"x")?;
    let is_sent = client
        .publish(topic, QoS::ExactlyOnce, false, payload)
        .is_ok();
    let is_right = is_sent && wrote(alloc, client, PUBLISH);
    names.uses("ClientCore::publish", is_right);
    let is_kept = client.kept() == 1;
    let is_released = client.on_bytes(PUBREC).is_ok() && wrote(alloc, client, PUBREL);
    let is_done = client.on_bytes(PUBCOMP).is_ok() && client.kept() == 0;
    names.uses("ClientCore::kept", is_kept && is_released && is_done);
    Ok(())
}

// Accepts `x` once, though it comes twice.
fn accept(alloc: Global, client: &mut ClientCore, names: &mut Names) {
    let first = client.on_bytes(PUBLISH).is_ok() && wrote(alloc, client, PUBREC);
    let again = client.on_bytes(PUBLISH).is_ok() && wrote(alloc, client, PUBREC);
    let is_right = first && again && client.accepted().len() == 1;
    names.uses("ClientCore::accepted", is_right);
    names.uses("Accepted", client.accepted().iter().all(is_wanted));
}

// Returns true if `x` was accepted on `t/1` at QoS 2.
fn is_wanted(accepted: &Accepted) -> bool {
    accepted.session == 1
        && accepted.qos == QoS::ExactlyOnce
        && !accepted.retain
        && accepted.topic.as_str() == "t/1"
        && accepted.payload.as_slice() == b"x".as_slice()
}

// Unsubscribes from `t/#`.
fn unsubscribe(alloc: Global, client: &mut ClientCore, names: &mut Names) -> Result<()> {
    let filter = Filter::new(alloc, "t/#")?;
    let is_sent = client.unsubscribe(filter).is_ok() && wrote(alloc, client, UNSUBSCRIBE);
    let is_answered = client.on_bytes(UNSUBACK).is_ok();
    names.uses("ClientCore::unsubscribe", is_sent && is_answered);
    Ok(())
}

// The connection is lost; on the next one the server has the session.
fn reconnect(alloc: Global, client: &mut ClientCore, names: &mut Names) {
    client.lost();
    names.uses("ClientCore::lost", !client.connected());
    let was_absent = !client.present();
    let is_open = client.open().is_ok() && wrote(alloc, client, CONNECT_A);
    let is_accepted = client.on_bytes(PRESENT).is_ok();
    let is_right = was_absent && is_open && is_accepted && client.present();
    names.uses("ClientCore::present", is_right);
    let is_ended = client.disconnect().is_ok() && wrote(alloc, client, DISCONNECT);
    names.uses("ClientCore::disconnect", is_ended && !client.connected());
}
