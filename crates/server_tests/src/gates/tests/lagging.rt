// A member that is held, while a client sends on. What the primary takes then is bounded.

use super::gates::Bar;
use crate::clients::{
    Fault, Flood, join, large_publish, limit_writes, named, send_times, unless, visit,
};
use post::Cluster;
use run_history::RunNaming;
use std::net::{Net, TcpStream};
use std::sync::Wait;
use std::thread;
use std::time::{Clock, Duration};
use streams::Listener;

/// Checks that of 98,304 PINGREQ that come while a member is held, no more than 37,000 become
/// places until it continues. All are answered then. Returns the first step that fails.
pub(super) fn first_fault_of_places<H, R>(
    rt: &R,
    bar: &Bar,
    cluster: &Cluster<H>,
    listener: Option<&Listener>,
) -> Result<(), Fault>
where
    H: RunNaming,
    R: AllocGlobal + Wait + Clock + Net<Stream = TcpStream>,
{
    match Flood::new(rt.alloc()) {
        Ok(mut flood) => wait_with(rt, bar, cluster, listener, &mut flood),
        Err(_) => Err(Fault::new("there is memory for a flood")),
    }
}

// Returns the first step that fails with this flood.
fn wait_with<H, R>(
    rt: &R,
    bar: &Bar,
    cluster: &Cluster<H>,
    listener: Option<&Listener>,
    flood: &mut Flood,
) -> Result<(), Fault>
where
    H: RunNaming,
    R: Wait + Clock + Net<Stream = TcpStream>,
{
    let mut stream = named(join(rt, listener, b'a', false), "a client comes")?;
    wait_on(rt, bar, cluster, flood, &mut stream)
}

// Returns the first step that fails with this client.
fn wait_on<H: RunNaming, R: Wait + Clock>(
    rt: &R,
    bar: &Bar,
    cluster: &Cluster<H>,
    flood: &mut Flood,
    stream: &mut TcpStream,
) -> Result<(), Fault> {
    bar.set(rt, true);
    let sent = flood.send_to(stream, 3);
    let open = crowded_places(rt, cluster);
    bar.note(rt, open);
    bar.set(rt, false);
    named(sent, "all PINGREQ are sent")?;
    unless(
        open.is_some_and(|open| open > 4_096 && open <= 37_000),
        "4,097 to 37,000 places are open",
    )?;
    named(flood.hear_from(stream, 3), "as many PINGRESP come")
}

// Returns how many places are open a second and a half after more than 4,096 were, or after at most
// 30 seconds: other work on the machine may slow the node down.
fn crowded_places<H: RunNaming, R: Wait + Clock>(rt: &R, cluster: &Cluster<H>) -> Option<u64> {
    for _ in 0..300u16 {
        if open_places(rt, cluster).is_some_and(|open| open > 4_096) {
            break;
        }
        thread::sleep(rt, Duration::from_millis(100));
    }
    thread::sleep(rt, Duration::from_millis(1_500));
    open_places(rt, cluster)
}

// Returns how many places of the primary's log are not known to be held by all; none if it has no
// status.
fn open_places<H: RunNaming, R: Wait + Clock>(rt: &R, cluster: &Cluster<H>) -> Option<u64> {
    let status = cluster.status(rt, 1)?;
    Some(status.held.saturating_sub(status.committed))
}

/// Has a client send 150 MB while a member is held: no more than 72 MB become places, 64 MiB and
/// what was in transit. The rest is not read. Once the member continues, another client is
/// answered. Returns the first step that fails.
pub(super) fn first_fault_of_bytes<H, R>(
    rt: &R,
    bar: &Bar,
    cluster: &Cluster<H>,
    listener: Option<&Listener>,
) -> Result<(), Fault>
where
    H: RunNaming,
    R: AllocGlobal + Wait + Clock + Net<Stream = TcpStream>,
{
    match large_publish(rt.alloc()) {
        Ok(large) => fill_with(rt, bar, cluster, listener, large.as_slice()),
        Err(_) => Err(Fault::new("there is memory for a publication")),
    }
}

// Returns the first step that fails with this publication.
fn fill_with<H, R>(
    rt: &R,
    bar: &Bar,
    cluster: &Cluster<H>,
    listener: Option<&Listener>,
    large: &[u8],
) -> Result<(), Fault>
where
    H: RunNaming,
    R: Wait + Clock + Net<Stream = TcpStream>,
{
    let mut stream = named(join(rt, listener, b's', false), "a client comes")?;
    let held = fill_on(rt, bar, cluster, large, &mut stream);
    let visited = named(visit(rt, listener), "another client is answered then");
    held.and(visited)
}

// Returns the first step that fails while a member is held. A write is given up after a second, as
// the socket is full.
fn fill_on<H: RunNaming, R: Wait + Clock>(
    rt: &R,
    bar: &Bar,
    cluster: &Cluster<H>,
    large: &[u8],
    stream: &mut TcpStream,
) -> Result<(), Fault> {
    bar.set(rt, true);
    let limited = limit_writes(stream, 1_000);
    let is_sent = send_times(stream, large, 150).is_ok();
    let open = open_places(rt, cluster);
    bar.note(rt, open);
    bar.set(rt, false);
    named(limited, "the socket takes a limit for writes")?;
    unless(!is_sent, "not all bytes are read")?;
    unless(
        open.is_some_and(|open| open > 32 && open <= 72),
        "33 to 72 places are open",
    )
}
