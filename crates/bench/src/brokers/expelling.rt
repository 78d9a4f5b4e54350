// A full session is expelled, while there are as many others as there may be.

use crate::brokers::clients::Clients;
use crate::brokers::crowd::{self, Filters};
use crate::measures::nanos_each;
use anyhow::Result;
use packet_base::QoS;
use std::time::CpuClock;
use topics::TopicName;

/// How many other sessions there are. One more is the publisher's.
const BESIDE: u32 = 4_094;

/// How many publications wait in its queue.
const WAITING: u32 = 4_096;

/// Prints how long it takes to end the session.
pub fn run(rt: &HostRuntime) -> Result<()> {
    let mut clients = Clients::new(rt.alloc())?;
    let measured = measure(rt, &mut clients);
    drop(clients);
    measured
}

fn measure(rt: &HostRuntime, clients: &mut Clients) -> Result<()> {
    crowd::gather(clients, rt.alloc(), BESIDE, Filters::Shared)?;
    leave(rt, clients)?;
    clients.connect(2, "publisher")?;
    fill(rt, clients)?;
    expel(rt, clients)
}

// Sets the filters of the session that is expelled, and loses its connection.
fn leave(rt: &HostRuntime, clients: &mut Clients) -> Result<()> {
    clients.connect(1, "expelled")?;
    clients.subscribe(1, crowd::wanted(rt.alloc(), crowd::FILTERS - 1, None)?)?;
    clients.subscribe_one(1, "plant/#", QoS::AtLeastOnce)?;
    clients.lose(1)
}

fn expel(rt: &HostRuntime, clients: &mut Clients) -> Result<()> {
    let start = rt.process_cpu_time()?;
    clients.expel("expelled")?;
    let took = nanos_each(rt, start, 1)? / 1_000;
    println!(rt;
        "a session of {} filters and {WAITING} entries is gone in {took} us",
        crowd::FILTERS
    )?;
    Ok(())
}

fn fill(rt: &HostRuntime, clients: &mut Clients) -> Result<()> {
    let topic = TopicName::new(rt.alloc(), "plant/1/pump/speed")?;
    put_in(clients, &topic)
}

// Publishes what waits for the session. The topic is lent, so that no exit from the loop has to
// drop it.
fn put_in(clients: &mut Clients, topic: &TopicName) -> Result<()> {
    for _ in 0..WAITING {
        clients.publish(2, topic, QoS::AtLeastOnce)?;
    }
    Ok(())
}
