// What is done with a cluster of two nodes, which have no threads, and what comes of it.

ghost use Rattle.std.specs.Prelude.{◌≡◌, false};

use crate::opened_run::{Opened, open_two};
use ballot_base::{Config, Members, Status};
use machine::Memory;
use packet_base::ClientId;
use post::{Cluster, Peer};
use run_history::{RunNaming, SentItem};
use std::alloc::Global;
use std::marker::Brand;
use std::sync::Wait;
use std::time::{Clock, Duration, Instant};
use world_base::node_core::Item;

/// What is done, to the node of a number or to the cluster.
#[derive(Clone, Copy, Debug, PartialEq, Eq)]
pub(super) enum Act {
    /// A node shows this status.
    Show(u8, Status),
    /// The status that the cluster has of it.
    Status(u8),
    /// Clients bring it ten pieces of 65,536 bytes, each once the one before was taken.
    Admit(u8),
    /// It is ordered to crash.
    Crash(u8),
    /// The session of client `a` is ended.
    Expel,
    /// It is the primary of so many ballots, one after another.
    Assign(u8, u8),
    /// Its thread is about to sleep.
    Doze(u8),
    /// It is woken.
    Wake(u8),
    /// All are woken for which something urgent waits.
    WakeUrgent,
    /// Its thread sleeps for 30 seconds at most: so long a test takes that fails.
    Sleep(u8),
    /// Its thread sleeps for no time, twenty times.
    SleepBriefly(u8),
    /// All that waits for it is taken.
    Take(u8),
    /// What it shows.
    Look(u8),
}

/// What came of an act.
#[derive(Clone, Copy, Debug, PartialEq, Eq)]
pub(super) enum Came {
    /// It was done.
    Done,
    /// There is no such node, or memory or the clock failed.
    Nothing,
    /// An order's answer; whether a thread finds work before it sleeps; whether a sleep ended before
    /// 30 seconds.
    Says(bool),
    /// How many pieces were let in.
    LetIn(u8),
    /// This status.
    Has(Option<Status>),
    /// So many items waited: orders to crash, orders to end the session of client `a`, others.
    Waited(usize, usize, usize),
    /// Whether something waits for the node, and whether another thread should do its turn.
    Shown(bool, bool),
}

/// An act, and what is to come of it.
pub(super) type Row = (Act, Came);

/// The row at this index, and what came of its act; no row if there was no memory for the nodes.
pub(super) type Fault = Option<(usize, Row, Came)>;

const SLEEP_SECONDS: u64 = 30;

// Appends a configuration of nodes 1 and 2 with this primary to the cluster's ballots.
fn assign<H: RunNaming, R: Wait>(rt: &R, alloc: Global, cluster: &Cluster<H>, primary: u8) -> bool {
    match Members::from_slice(alloc, &[1, 2]) {
        Ok(members) => cluster.assign(rt, Config { members, primary }).is_ok(),
        Err(_) => false,
    }
}

// Ends the session of client `a`.
fn expel<H: RunNaming, R: Wait + Clock>(rt: &R, alloc: Global, cluster: &Cluster<H>) -> Came {
    match ClientId::new(alloc, "a") {
        Ok(client) => says(cluster.expel(rt, &client)),
        Err(_) => Came::Nothing,
    }
}

fn says(answer: Result<bool, Memory>) -> Came {
    match answer {
        Ok(is_so) => Came::Says(is_so),
        Err(_) => Came::Nothing,
    }
}

fn done(is_done: bool) -> Came {
    if is_done { Came::Done } else { Came::Nothing }
}

// Lets pieces in, and counts each as taken.
fn let_in<H: RunNaming, R: Wait>(rt: &R, peer: &Peer<H>) -> Came {
    let mut count: u8 = 0;
    for _ in 0..10u8 {
        let admitted = peer.admit(rt, 65_536);
        if admitted.is_some() {
            count = count.saturating_add(1);
        }
        peer.count_taken(rt, admitted);
    }
    Came::LetIn(count)
}

fn is_crash(item: &Item) -> bool {
    matches!(item, Item::Crash)
}

fn is_expel(item: &Item) -> bool {
    matches!(item, Item::Expel(client) if client.as_str() == "a")
}

// Counts items that waited.
fn counted<H: RunNaming>(items: &[SentItem<H>]) -> Came {
    let crashes = items.iter().filter(|sent| is_crash(sent.item())).count();
    let expels = items.iter().filter(|sent| is_expel(sent.item())).count();
    let others = items.len().saturating_sub(crashes).saturating_sub(expels);
    Came::Waited(crashes, expels, others)
}

// Sleeps this often, each time for so long at most. Returns whether it ended before 30 seconds; none
// if the clock failed.
fn sleep<H: RunNaming, R: Wait + Clock>(
    rt: &R,
    peer: &Peer<H>,
    times: u8,
    time: Duration,
) -> Option<bool> {
    let start = Instant::now(rt).ok()?;
    for _ in 0..times {
        peer.sleep(rt, time);
    }
    Some(start.elapsed(rt).ok()?.as_secs() < SLEEP_SECONDS)
}

fn slept(ended_early: Option<bool>) -> Came {
    match ended_early {
        Some(is_so) => Came::Says(is_so),
        None => Came::Nothing,
    }
}

// Does an act that is one of the cluster.
fn perform<H: RunNaming, R: Wait + Clock>(
    rt: &R,
    alloc: Global,
    cluster: &Cluster<H>,
    act: Act,
) -> Came {
    match act {
        Act::Status(node) => Came::Has(cluster.status(rt, node)),
        Act::Crash(node) => says(cluster.crash(rt, node)),
        Act::Expel => expel(rt, alloc, cluster),
        Act::Assign(node, times) => { done((0..times).all(|_| assign(rt, alloc, cluster, node))) }
        Act::WakeUrgent => {
            cluster.wake_urgent(rt);
            Came::Done
        }
        _ => perform_at(rt, alloc, cluster, act),
    }
}

// Does an act that is one of a node.
fn perform_at<H: RunNaming, R: Wait + Clock>(
    rt: &R,
    alloc: Global,
    cluster: &Cluster<H>,
    act: Act,
) -> Came {
    let number = match act {
        Act::Show(node, _) | Act::Admit(node) | Act::Doze(node) | Act::Wake(node) => node,
        Act::Sleep(node) | Act::SleepBriefly(node) | Act::Take(node) | Act::Look(node) => node,
        _ => 0,
    };
    match cluster.node(number) {
        Some(peer) => perform_by(rt, alloc, peer, act),
        None => Came::Nothing,
    }
}

// Does an act of a node. To ask whether it needs help wakes its thread, but only if more than
// sixteen items wait.
fn perform_by<H: RunNaming, R: Wait + Clock>(
    rt: &R,
    alloc: Global,
    peer: &Peer<H>,
    act: Act,
) -> Came {
    match act {
        Act::Show(_, status) => {
            peer.show(rt, status);
            Came::Done
        }
        Act::Admit(_) => let_in(rt, peer),
        Act::Doze(_) => Came::Says(peer.doze(rt)),
        Act::Wake(_) => {
            peer.wake(rt);
            Came::Done
        }
        Act::Sleep(_) => slept(sleep(rt, peer, 1, Duration::from_secs(SLEEP_SECONDS))),
        Act::SleepBriefly(_) => slept(sleep(rt, peer, 20, Duration::from_millis(0))),
        Act::Take(_) => counted(peer.take_waiting(rt, alloc).as_slice()),
        Act::Look(_) => Came::Shown(peer.is_wanted(rt), peer.ask_for_help(rt)),
        _ => Came::Nothing,
    }
}

// Returns the first row of whose act comes something else.
fn fault_in<H: RunNaming, R: Wait + Clock>(
    rt: &R,
    alloc: Global,
    cluster: &Cluster<H>,
    rows: &[Row],
) -> Option<Fault> {
    for (at, row) in rows.iter().enumerate() {
        let came = perform(rt, alloc, cluster, row.0);
        if came != row.1 {
            return Some(Some((at, *row, came)));
        }
    }
    None
}

fn fault_of_opened<H: RunNaming, R: Wait + Clock>(
    rt: &R,
    alloc: Global,
    opened: Opened,
    rows: &[Row],
) -> Option<Fault>
    requires book { opened.run.book ≡ H.book }
    requires nodes { H.nodes ≡ 2 }
    requires config { opened.config ≡ H.config }
    requires own { H.linked ≡ false }
{
    let Opened {
        run,
        master,
        config,
    } = opened;
    let (master, _maker, log) = run.named::<H>(master);
    match Cluster::new(alloc, &[1, 2], &config, master, &log) {
        Ok(cluster) => fault_in(rt, alloc, &cluster, rows),
        Err(_) => Some(None),
    }
}

/// Returns the first row that fails with nodes 1 and 2, of which node 1 is the primary of ballot 1.
pub(super) fn fault_of<R: Wait + Clock>(rt: &R, alloc: Global, rows: &[Row]) -> Option<Fault> {
    match open_two(alloc, &[1, 2]) {
        Ok(opened) => fault_of_opened::<Brand, R>(rt, alloc, opened, rows),
        Err(_) => Some(None),
    }
}
