// Nodes that are held at a gate.

use super::lagging::{first_fault_of_bytes, first_fault_of_places};
use crate::clients::{
    Came, Fault, Heard, Pair, hear, hear_nothing, listen_all, named, opening, publish, send,
    unless, visit,
};
use node_base::devices::Gate;
use post::Cluster;
use run_history::{RunNaming, SeenRun};
use server::node_threads::NodeReport;
use server::{Attendant, serve_gated};
use std::net::{Net, TcpListener, TcpStream};
use std::sync::{Mutex, Wait};
use std::thread;
use std::thread::Threads;
use std::time::{Clock, Duration};
use streams::Listener;

// A gate, and what is done while nodes ask it.
trait Watched: Gate {
    // Returns the first step that fails while nodes ask it.
    fn attend<H, R>(
        &self,
        rt: &R,
        cluster: &Cluster<H>,
        listener: Option<&Listener>,
    ) -> Result<(), Fault>
    where
        H: RunNaming,
        R: AllocGlobal + Wait + Clock + Net<Stream = TcpStream>;
}

// Returns the first step that fails with these nodes, the members of ballot 1, of which node 1 is
// the primary. The last one is that each node took what was sent to it.
fn first_fault_at<R, G>(rt: &R, members: &[u8], gate: &G) -> Result<(), Fault>
where
    R: AllocGlobal + Threads + Wait + Clock + Sync,
    R: Net<Listener = TcpListener, Stream = TcpStream>,
    G: Watched + Sync,
{
    let mut listeners = Vec::new(rt.alloc());
    if listen_all(rt, members, &mut listeners) {
        serve(rt, members, listeners.as_slice(), gate)
    } else {
        Err(Fault::new("a port is free"))
    }
}

// Returns the first step that fails with the nodes of these listeners.
fn serve<R, G>(rt: &R, members: &[u8], listeners: &[Listener], gate: &G) -> Result<(), Fault>
where
    R: AllocGlobal + Threads + Wait + Clock + Sync + Net<Stream = TcpStream>,
    G: Watched + Sync,
{
    let Ok(config) = opening(rt.alloc(), members) else {
        return Err(Fault::new("there is memory for a ballot"));
    };
    let served = serve_gated(
        rt,
        rt.alloc(),
        listeners,
        &config,
        gate,
        AtGate {
            rt,
            gate,
            listener: listeners.first(),
        },
    );
    match served {
        Ok((attended, run)) => attended.and(unless(
            are_through(run.reports.as_slice(), listeners.len()),
            "each node took what was sent to it, and passed no shut gate",
        )),
        Err(_) => Err(Fault::new("the nodes serve")),
    }
}

// What is done while nodes ask a gate.
#[derive(Drop)]
struct AtGate<'a, R, G: Watched> {
    rt: &'a R,
    gate: &'a G,
    listener: Option<&'a Listener>,
}

impl<'a, R, G: Watched> Attendant for AtGate<'a, R, G>
where
    R: AllocGlobal + Wait + Clock + Net<Stream = TcpStream>,
{
    type Answer = Result<(), Fault>;

    ghost attends = { λ _ _ _ _. Unit {0} };

    fn attend<H: RunNaming + Send + Sync>(
        self,
        cluster: &Cluster<H>,
        _seen: &mut SeenRun<H>,
    ) -> Result<(), Fault> {
        self.gate.attend(self.rt, cluster, self.listener)
    }
}

// Returns true if each of this many nodes took what was sent to it.
fn are_through(reports: &[NodeReport], count: usize) -> bool {
    reports.len() == count && reports.iter().all(|report| is_through(report))
}

// Returns true if a node took what was sent to it, and never continued while the gate was shut.
fn is_through(report: &NodeReport) -> bool {
    report.report.gate_missed() == 0
        && report.report.left().is_empty()
        && report.report.taken().iter().any(|count| *count > 0)
}

// At this gate nodes 1, 2, .. wait for each other: it opens once all are there at the same time.
#[derive(Drop)]
struct Meeting {
    nodes: usize,
    there: Mutex<[bool; 3]>,
    met: Mutex<bool>,
    // How many takings each node has done.
    done: Mutex<[u64; 3]>,
    // Each call named the taking after those that were done.
    in_order: Mutex<bool>,
}

impl Meeting {
    // Returns a meeting of this many nodes, at most three.
    fn new(nodes: usize) -> Meeting {
        Meeting {
            nodes,
            there: Mutex::new([false; 3]),
            met: Mutex::new(false),
            done: Mutex::new([0; 3]),
            in_order: Mutex::new(true),
        }
    }

    // Notes that a node asks for a taking, or has done it.
    fn note<R: Wait>(&self, rt: &R, node: u8, taking: u64, is_done: bool) {
        let mut done = self.done.lock(rt);
        let Some(done) = done.get_mut(usize::from(node).wrapping_sub(1)) else {
            return;
        };
        if taking != done.saturating_add(1) {
            *self.in_order.lock(rt) = false;
        }
        if is_done {
            *done = taking;
        }
    }

    // Notes that a node comes or goes; says whether all are there.
    fn see<R: Wait>(&self, rt: &R, node: u8, comes: bool) -> bool {
        let mut there = self.there.lock(rt);
        if let Some(entry) = there.get_mut(usize::from(node).wrapping_sub(1)) {
            *entry = comes;
        }
        there.iter().take(self.nodes).all(|node| *node)
    }

    // Holds a node inside until all are there, ten thousand turns at most, and returns true if they
    // are. A lock that another node needs on its way would keep them apart.
    fn holds_until_met<R: Wait>(&self, rt: &R) -> bool {
        for _ in 0..10_000 {
            if self.has_met(rt) {
                return true;
            }
            thread::yield_now();
        }
        false
    }

    // Returns true if all were there at one time.
    fn has_met<R: Wait>(&self, rt: &R) -> bool {
        *self.met.lock(rt)
    }
}

impl Gate for Meeting {
    // No clause is about what is under a lock.
    ghost answers = { λ _ _ _ _. Unit {0} };

    ghost hears = { λ _ _ _. Unit {0} };

    fn open<R: Wait>(&self, rt: &R, node: u8, taking: u64) -> bool {
        self.note(rt, node, taking, false);
        if self.see(rt, node, true) {
            *self.met.lock(rt) = true;
        }
        let is_met = self.holds_until_met(rt);
        if !is_met {
            // It gives up, so it is not inside any more.
            self.see(rt, node, false);
        }
        is_met
    }

    fn answered<R: Wait>(&self, rt: &R, node: u8, taking: u64) {
        self.note(rt, node, taking, true);
        self.see(rt, node, false);
    }
}

impl Watched for Meeting {
    // Waits until the nodes have met, at most ten seconds, and has client `a` be answered then.
    // Each taking was asked for by its number. Returns the first step that fails.
    fn attend<H, R>(
        &self,
        rt: &R,
        _cluster: &Cluster<H>,
        listener: Option<&Listener>,
    ) -> Result<(), Fault>
    where
        H: RunNaming,
        R: AllocGlobal + Wait + Clock + Net<Stream = TcpStream>,
    {
        for _ in 0..1_000 {
            if self.has_met(rt) {
                let served = named(visit(rt, listener), "a client is answered");
                let is_in_order = *self.in_order.lock(rt);
                return served.and(unless(is_in_order, "each taking is asked for by its number"));
            }
            thread::sleep(rt, Duration::from_millis(10));
        }
        Err(Fault::new("the nodes meet within ten seconds"))
    }
}

// If one thread ran all nodes in turn, or if a common lock were held at the gate, the nodes would
// not meet.
#[test]
fn nodes_run_apart(rt: HostRuntime) {
    for members in [[1, 2].as_slice(), [1, 2, 3].as_slice()] {
        let meeting = Meeting::new(members.len());
        assert_eq!(rt;
            first_fault_at(&rt, members, &meeting),
            Ok(()),
            "{members:?}"
        );
    }
}

// What clients send while node 3 is held.
#[derive(Clone, Copy, Debug)]
enum Load {
    // A publication.
    One,
    // Many small packets.
    Packets,
    // Large publications.
    Bytes,
}

/// A gate that is shut only for node 3, for a while.
#[derive(Drop)]
pub(super) struct Bar {
    shut: Mutex<bool>,
    load: Load,
    // How many places were open while it was shut, if that was looked at.
    open: Mutex<Option<u64>>,
}

impl Bar {
    /// Shuts or opens it.
    pub(super) fn set<R: Wait>(&self, rt: &R, shut: bool) {
        *self.shut.lock(rt) = shut;
    }

    /// Notes how many places are open, so that a test that fails shows it.
    pub(super) fn note<R: Wait>(&self, rt: &R, open: Option<u64>) {
        *self.open.lock(rt) = open;
    }

    // Returns the first step of `hold_node_three` that fails with a subscriber and a publisher.
    fn hold_with_fresh<R>(&self, rt: &R, listener: Option<&Listener>) -> Result<(), Fault>
    where
        R: AllocGlobal + Wait + Net<Stream = TcpStream>,
    {
        let mut heard = Heard::new(rt);
        match named(Pair::join(rt, listener, false), "two clients come") {
            Ok(mut pair) => self.hold_node_three(rt, &mut pair, &mut heard),
            Err(fault) => Err(fault),
        }
    }

    // Checks that a publication at QoS 2 is answered, and comes to its subscriber, but neither
    // while node 3 is held. Returns the first step that fails.
    fn hold_node_three<R: Wait>(
        &self,
        rt: &R,
        pair: &mut Pair,
        heard: &mut Heard,
    ) -> Result<(), Fault> {
        named(pair.subscribe(), "SUBACK comes")?;
        self.set(rt, true);
        let held = hold_back(pair);
        self.set(rt, false);
        named(held, "nothing comes while node 3 is held")?;
        named(
            hear(&mut pair.speaker, &[0x50, 2, 0, 1]),
            "PUBREC comes once node 3 goes on",
        )?;
        named(
            heard.answer(&mut pair.sink),
            "the publication comes once node 3 goes on",
        )?;
        named(heard.has_accepted(b"x"), "it is that of the publisher")
    }
}

// Publishes `x`: neither client gets anything then.
fn hold_back(pair: &mut Pair) -> Result<(), Came> {
    send(&mut pair.speaker, &publish(0x34, 1, b'x'))?;
    hear_nothing(&mut pair.speaker)?;
    hear_nothing(&mut pair.sink)
}

impl Gate for Bar {
    ghost answers = { λ _ _ _ _. Unit {0} };

    ghost hears = { λ _ _ _. Unit {0} };

    fn open<R: Wait>(&self, rt: &R, node: u8, _taking: u64) -> bool {
        node != 3 || !*self.shut.lock(rt)
    }

    fn answered<R: Wait>(&self, _rt: &R, _node: u8, _taking: u64) {}
}

impl Watched for Bar {
    // Returns the first step that fails under this load.
    fn attend<H, R>(
        &self,
        rt: &R,
        cluster: &Cluster<H>,
        listener: Option<&Listener>,
    ) -> Result<(), Fault>
    where
        H: RunNaming,
        R: AllocGlobal + Wait + Clock + Net<Stream = TcpStream>,
    {
        match self.load {
            Load::One => self.hold_with_fresh(rt, listener),
            Load::Packets => first_fault_of_places(rt, self, cluster, listener),
            Load::Bytes => first_fault_of_bytes(rt, self, cluster, listener),
        }
    }
}

#[test]
fn what_waits_for_a_held_member_is_bounded(rt: HostRuntime) {
    for load in [Load::One, Load::Packets, Load::Bytes] {
        let bar = Bar {
            shut: Mutex::new(false),
            load,
            open: Mutex::new(None),
        };
        let fault = first_fault_at(&rt, &[1, 2, 3], &bar);
        let open = *bar.open.lock(&rt);
        assert_eq!(rt; fault, Ok(()), "{load:?}, places open: {open:?}");
    }
}
