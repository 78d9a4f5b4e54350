// Publications a second, each with the handshakes of its publisher and of its subscribers.

use crate::brokers::clients::Clients;
use crate::brokers::crowd::{self, Filters};
use crate::measures::nanos_each;
use anyhow::Result;
use packet_base::QoS;
use std::alloc::Global;
use std::time::CpuClock;
use topics::TopicName;

const ROUNDS: u32 = 100_000;

/// The connection of the publisher; those of the subscribers follow.
const PUBLISHER: u64 = 1;

/// How many other sessions there are: with the publisher's and the subscriber's, as many as there
/// may be.
const BESIDE: u32 = 4_094;

/// Prints the time of a publication at each QoS: to one subscriber, to ten, and to one with many
/// other sessions.
pub fn run(rt: &HostRuntime) -> Result<()> {
    for qos in &[QoS::AtMostOnce, QoS::AtLeastOnce, QoS::ExactlyOnce] {
        measure(rt, *qos, 1, 0)?;
        measure(rt, *qos, 10, 0)?;
        measure(rt, *qos, 1, BESIDE)?;
    }
    Ok(())
}

fn measure(rt: &HostRuntime, qos: QoS, subscribers: u64, beside: u32) -> Result<()> {
    let mut clients = Clients::new(rt.alloc())?;
    let measured = measure_with(rt, &mut clients, qos, subscribers, beside);
    drop(clients);
    measured
}

// Prints the time of a publication to this many subscribers, with other sessions beside them. Each
// function below is lent the broker, so that no exit from it has to drop it.
fn measure_with(
    rt: &HostRuntime,
    clients: &mut Clients,
    qos: QoS,
    subscribers: u64,
    beside: u32,
) -> Result<()> {
    gather(rt, clients, qos, subscribers, beside)?;
    let nanos = publish(rt, clients, qos)?;
    let number = qos.number();
    println!(rt;
        "QoS {number}, to {subscribers}, {beside} other sessions: {nanos} ns a publication"
    )?;
    Ok(())
}

fn gather(
    rt: &HostRuntime,
    clients: &mut Clients,
    qos: QoS,
    subscribers: u64,
    beside: u32,
) -> Result<()> {
    crowd::gather(clients, rt.alloc(), beside, Filters::Shared)?;
    clients.connect(PUBLISHER, "publisher")?;
    for number in 0..subscribers {
        subscribe(clients, rt.alloc(), number, qos)?;
    }
    Ok(())
}

fn publish(rt: &HostRuntime, clients: &mut Clients, qos: QoS) -> Result<u128> {
    let topic = TopicName::new(rt.alloc(), "plant/1/pump/speed")?;
    time(rt, clients, qos, &topic)
}

// Returns the time of a publication of this topic.
fn time(rt: &HostRuntime, clients: &mut Clients, qos: QoS, topic: &TopicName) -> Result<u128> {
    let start = rt.process_cpu_time()?;
    for _ in 0..ROUNDS {
        clients.publish(PUBLISHER, topic, qos)?;
    }
    nanos_each(rt, start, ROUNDS)
}

fn subscribe(clients: &mut Clients, alloc: Global, number: u64, qos: QoS) -> Result<()> {
    let count = PUBLISHER.saturating_add(1).saturating_add(number);
    let name = format!(in alloc; "subscriber-{number}")?;
    clients.connect(count, name.as_str())?;
    clients.subscribe_one(count, "plant/+/pump/#", qos)
}
