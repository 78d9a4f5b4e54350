// The tree index compared with the list index: a grant, a set and a clear, over many clients with
// 64 filters each. In processor time.

use crate::measures::nanos_each;
use anyhow::{Result, ensure};
use packet_base::{ClientId, QoS};
use std::alloc::Global;
use std::time::CpuClock;
use subs::TreeIndex;
use subs_base::{ListIndex, SubIndex};
use topics::{Filter, TopicName};

const FILTERS: u32 = 64;

/// How many clients have one filter cleared and set again.
const CHANGES: u32 = 1_000;

// Whose last filter matches the topic.
#[derive(Clone, Copy, Debug)]
enum Shape {
    // Each client's, by `+` at one level.
    One,
    // Each client's, only by `#`.
    All,
    // That of ten clients.
    Ten,
}

/// Prints the times of both indexes at three sizes.
pub fn run(rt: &HostRuntime) -> Result<()> {
    for clients in &[1_000, 4_000, 64_000] {
        measure::<TreeIndex>(rt, "tree", Shape::One, *clients, 10)?;
        measure::<ListIndex>(rt, "list", Shape::One, *clients, 10)?;
        measure::<TreeIndex>(rt, "tree", Shape::All, *clients, 10)?;
        measure::<ListIndex>(rt, "list", Shape::All, *clients, 10)?;
        measure::<TreeIndex>(rt, "tree", Shape::Ten, *clients, 10_000)?;
        measure::<ListIndex>(rt, "list", Shape::Ten, *clients, 10)?;
    }
    Ok(())
}

fn measure<I: SubIndex>(
    rt: &HostRuntime,
    name: &str,
    shape: Shape,
    clients: u32,
    rounds: u32,
) -> Result<()> {
    let mut index = I::new(rt.alloc());
    measure_over(rt, name, shape, &mut index, clients, rounds)
}

fn measure_over<I: SubIndex>(
    rt: &HostRuntime,
    name: &str,
    shape: Shape,
    index: &mut I,
    clients: u32,
    rounds: u32,
) -> Result<()> {
    fill(rt.alloc(), index, shape, clients)?;
    println!(rt; "{name} {shape:?}, {clients} clients of {FILTERS} filters")?;
    print_grant(rt, index, rounds)?;
    print_changes(rt, index, clients)
}

fn fill<I: SubIndex>(alloc: Global, index: &mut I, shape: Shape, clients: u32) -> Result<()> {
    for number in 0..clients {
        set_filters(alloc, index, shape, number)?;
    }
    Ok(())
}

fn set_filters<I: SubIndex>(alloc: Global, index: &mut I, shape: Shape, number: u32) -> Result<()> {
    let client = client_of(alloc, number)?;
    for which in 0..FILTERS {
        let filter = filter_of(alloc, shape, number, which)?;
        index.set(&client, &filter, QoS::AtLeastOnce)?;
    }
    Ok(())
}

fn client_of(alloc: Global, number: u32) -> Result<ClientId> {
    let name = format!(in alloc; "client-{number}")?;
    Ok(ClientId::new(alloc, name.as_str())?)
}

fn filter_of(alloc: Global, shape: Shape, number: u32, which: u32) -> Result<Filter> {
    let text = match shape {
        Shape::All if which == FILTERS - 1 => String::from_str(alloc, "#")?,
        Shape::Ten if which == FILTERS - 1 && number >= 10 => {
            String::from_str(alloc, "house/64/+/light")?
        }
        _ => format!(in alloc; "house/{which}/+/light")?,
    };
    Ok(Filter::new(alloc, text.as_str())?)
}

fn print_grant<I: SubIndex>(rt: &HostRuntime, index: &I, rounds: u32) -> Result<()> {
    let topic = TopicName::new(rt.alloc(), "house/63/kitchen/light")?;
    let (rows, nanos) = time_grants(rt, index, &topic, rounds)?;
    println!(rt; "    {rows} rows granted in {nanos} ns")?;
    Ok(())
}

// Returns the rows of a grant, and the nanoseconds that one took.
fn time_grants<I: SubIndex>(
    rt: &HostRuntime,
    index: &I,
    topic: &TopicName,
    rounds: u32,
) -> Result<(usize, u128)> {
    let mut rows = Vec::new(rt.alloc());
    let start = rt.process_cpu_time()?;
    for _ in 0..rounds {
        rows.clear();
        index.granted(topic, &mut rows)?;
    }
    Ok((rows.len(), nanos_each(rt, start, rounds)?))
}

// Clears a filter of some clients, sets it again, and prints the times of both.
fn print_changes<I: SubIndex>(rt: &HostRuntime, index: &mut I, clients: u32) -> Result<()> {
    let mut some = Vec::new(rt.alloc());
    put_clients(rt.alloc(), clients, &mut some)?;
    print_changes_of(rt, index, some.as_slice())
}

// Adds clients at equal distances.
fn put_clients(alloc: Global, clients: u32, some: &mut Vec<ClientId>) -> Result<()> {
    for number in 0..CHANGES {
        some.push(client_of(alloc, number.saturating_mul(clients / CHANGES))?)?;
    }
    Ok(())
}

fn print_changes_of<I: SubIndex>(rt: &HostRuntime, index: &mut I, some: &[ClientId]) -> Result<()> {
    let filter = Filter::new(rt.alloc(), "house/7/+/light")?;
    let clear = clear_nanos(rt, index, &filter, some)?;
    let set = set_nanos(rt, index, &filter, some)?;
    println!(rt; "    one cleared in {clear} ns, set in {set} ns")?;
    Ok(())
}

fn clear_nanos<I: SubIndex>(
    rt: &HostRuntime,
    index: &mut I,
    filter: &Filter,
    some: &[ClientId],
) -> Result<u128> {
    let start = rt.process_cpu_time()?;
    let all = some.iter().all(|client| index.clear(client, filter));
    ensure!(all, "a client does not have its filter");
    nanos_each(rt, start, CHANGES)
}

fn set_nanos<I: SubIndex>(
    rt: &HostRuntime,
    index: &mut I,
    filter: &Filter,
    some: &[ClientId],
) -> Result<u128> {
    let start = rt.process_cpu_time()?;
    for client in some {
        index.set(client, filter, QoS::AtLeastOnce)?;
    }
    nanos_each(rt, start, CHANGES)
}
