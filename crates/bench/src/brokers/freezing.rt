// The frozen form of a broker with many sessions, for which publications wait.

use crate::brokers::clients::Clients;
use crate::brokers::crowd::{self, Filters};
use crate::measures::nanos_each;
use anyhow::Result;
use broker::BrokerMachine;
use machine::Machine;
use packet_base::QoS;
use std::alloc::Global;
use std::time::CpuClock;
use topics::TopicName;

/// How many sessions there are besides the publisher's: at most one less than a broker has.
const SESSIONS: [u32; 4] = [0, 100, 1_000, 4_095];

/// How many publications wait for each session.
const WAITING: [u32; 2] = [0, 100];

/// Whose filters the sessions have.
const KINDS: [Filters; 2] = [Filters::Shared, Filters::Own];

// A broker's sessions besides the publisher's.
#[derive(Clone, Copy)]
struct Crowd {
    sessions: u32,
    waiting: u32,
    filters: Filters,
}

/// Prints the times in which brokers are frozen, and thawed again, and how many bytes they take.
pub fn run(rt: &HostRuntime) -> Result<()> {
    for sessions in &SESSIONS {
        for waiting in &WAITING {
            for filters in &KINDS {
                with_new_clients(
                    rt,
                    Crowd {
                        sessions: *sessions,
                        waiting: *waiting,
                        filters: *filters,
                    },
                )?;
            }
        }
    }
    Ok(())
}

fn with_new_clients(rt: &HostRuntime, of: Crowd) -> Result<()> {
    let mut clients = Clients::new(rt.alloc())?;
    let measured = gather(rt, &mut clients, of);
    drop(clients);
    measured
}

fn gather(rt: &HostRuntime, clients: &mut Clients, of: Crowd) -> Result<()> {
    clients.connect(1, "publisher")?;
    crowd::gather(clients, rt.alloc(), of.sessions, of.filters)?;
    fill(rt.alloc(), clients, of.waiting)?;
    let mut bytes = Vec::new(rt.alloc());
    measure(rt, clients, of, &mut bytes)
}

fn fill(alloc: Global, clients: &mut Clients, waiting: u32) -> Result<()> {
    let topic = TopicName::new(alloc, "house/0/hall/light")?;
    publish_all(clients, &topic, waiting)
}

// Publishes this many times. One filter of each session of the crowd matches.
fn publish_all(clients: &mut Clients, topic: &TopicName, waiting: u32) -> Result<()> {
    for _ in 0..waiting {
        clients.publish(1, topic, QoS::AtLeastOnce)?;
    }
    Ok(())
}

fn measure(rt: &HostRuntime, clients: &Clients, of: Crowd, bytes: &mut Vec<u8>) -> Result<()> {
    let start = rt.process_cpu_time()?;
    clients.broker.freeze(bytes)?;
    let frozen = nanos_each(rt, start, 1)? / 1_000;
    let thawed = thaw(rt, bytes.as_slice())? / 1_000;
    let len = bytes.len();
    println!(rt;
        "{} sessions of {} filters {}, {} waiting: {len} bytes, frozen in {frozen} us, \
         thawed in {thawed} us",
        of.sessions,
        crowd::FILTERS,
        of.filters.name(),
        of.waiting
    )?;
    Ok(())
}

// Returns the time of reading alone: the clock is read before what was read is dropped.
fn thaw(rt: &HostRuntime, bytes: &[u8]) -> Result<u128> {
    let start = rt.process_cpu_time()?;
    let read = BrokerMachine::thaw(rt.alloc(), bytes)?;
    let taken = nanos_each(rt, start, 1);
    drop(read);
    taken
}
