// Serving the nodes of a program while an attendant runs.
//
// Configuration, threads, clock and the nodes' memory are tried before a client is served. When all
// nodes have ended, the run is settled. The step from `serve_all` to `serve_run` chooses the name of
// the run, once it has opened.

ghost use Rattle.std.specs.Prelude.{◌≡◌, ◌≤◌, false, IfOk, map};
ghost use mathlib.Core.List.{IsPrefix};
ghost use Rattle.agreement.specs.MasterState.{opening_master};
ghost use Rattle.ballot_base.specs.LawfulConfig.{max_node};
ghost use Rattle.server.specs.Ends.{HasAttended, IsServedRun};

use crate::attendant::Attendant;
use crate::attending::AtCluster;
use crate::ending::settle;
use crate::node_threads::NodeContexts;
use crate::serve_error::ServeError;
use crate::served_run::ServedRun;
use crate::serving::serve_opened;
use crate::thread_starts::begin;
use ballot_base::errors::OpeningError;
use ballot_base::{Config, MAX_NODE};
use master::Master;
use node_base::devices::{Gate, NoGate};
use post::Cluster;
use run_history::{MasterOnRecord, OpenedRun, RunNaming, SeenRun};
use std::alloc::Global;
use std::marker::Brand;
use std::net::{Net, TcpStream};
use std::sync::Wait;
use std::thread::Threads;
use std::time::Clock;
use streams::Listener;

/// Serves the clients of several nodes, each at its listener, while the attendant runs with these
/// nodes. Then ends all connections, and returns what the attendant returned, and what was served.
/// The nodes open in ballot 1 of this configuration.
///
/// The errors are [`ServeError::Clock`] and those of the opening, where `BadMembers` comes also if
/// two listeners have one number. [`ServeError::Threads`] comes before anything is served if fewer
/// threads can be started than the nodes need. It also comes at the end, in place of the answer, if
/// a node's own thread could not be started later: then that node was not served.
pub fn serve_while<R, A>(
    rt: &R,
    alloc: Global,
    listeners: &[Listener],
    config: &Config,
    attendant: A,
) -> Result<(A::Answer, ServedRun), ServeError>
where
    R: Threads + Wait + Clock + Sync + Net<Stream = TcpStream>,
    A: Attendant,
    // It ran with the nodes of all these listeners, and with no others; what it saw of the log is a
    // prefix of the run's.
    ensures attended { IfOk result (λ served. HasAttended A.attends attendant
        (map (λ listener. listener.number) listeners.now) served.1.log served.0) }

    // What these nodes did is one run of the model, and each has a report of it.
    ensures run { IfOk result (λ served. IsServedRun config.now
        (map (λ listener. listener.number) listeners.now) served.1) }
{
    serve_all(rt, alloc, listeners, config, None::<&NoGate>, attendant)
}

/// Serves as [`serve_while`] does, but each node asks a gate before it takes an item. At the end it
/// reports what it took and what it left. The reports are in the order of the nodes' numbers. If
/// the gate has not opened after it was asked ten thousand times, a millisecond apart, the node
/// continues, and its report counts it. No clause says anything of the gate.
///
/// The errors are those of [`serve_while`].
pub fn serve_gated<R, G, A>(
    rt: &R,
    alloc: Global,
    listeners: &[Listener],
    config: &Config,
    gate: &G,
    attendant: A,
) -> Result<(A::Answer, ServedRun), ServeError>
where
    R: Threads + Wait + Clock + Sync + Net<Stream = TcpStream>,
    G: Gate + Sync,
    A: Attendant,
    ensures attended { IfOk result (λ served. HasAttended A.attends attendant
        (map (λ listener. listener.number) listeners.now) served.1.log served.0) }
    ensures run { IfOk result (λ served. IsServedRun config.now
        (map (λ listener. listener.number) listeners.now) served.1) }
{
    serve_all(rt, alloc, listeners, config, Some(gate), attendant)
}

// Serves the nodes of these listeners while the attendant runs, with a gate or without one.
fn serve_all<R, G, A>(
    rt: &R,
    alloc: Global,
    listeners: &[Listener],
    config: &Config,
    gate: Option<&G>,
    attendant: A,
) -> Result<(A::Answer, ServedRun), ServeError>
where
    R: Threads + Wait + Clock + Sync + Net<Stream = TcpStream>,
    G: Gate + Sync,
    A: Attendant,
    ensures attended { IfOk result (λ served. HasAttended A.attends attendant
        (map (λ listener. listener.number) listeners.now) served.1.log served.0) }
    ensures run { IfOk result (λ served. IsServedRun config.now
        (map (λ listener. listener.number) listeners.now) served.1) }
{
    let (opened, master) = OpenedRun::open(alloc, MAX_NODE, config)?;
    serve_run::<Brand, R, G, A>(
        rt, alloc, listeners, config, opened, master, gate, attendant,
    )
}

// Serves the nodes of these listeners in a run that has a name, and then settles the run.
fn serve_run<H, R, G, A>(
    rt: &R,
    alloc: Global,
    listeners: &[Listener],
    config: &Config,
    opened: OpenedRun,
    master: Master,
    gate: Option<&G>,
    attendant: A,
) -> Result<(A::Answer, ServedRun), ServeError>
where
    H: RunNaming + Send + Sync,
    R: Threads + Wait + Clock + Sync + Net<Stream = TcpStream>,
    G: Gate + Sync,
    A: Attendant,
    requires book { opened.book ≡ H.book }
    requires nodes { opened.group.nodes ≡ H.nodes }
    requires config { opened.group.config ≡ H.config }
    requires group { opened.group.linked ≡ H.linked }
    requires own { H.linked ≡ false }
    requires all { H.nodes ≡ MAX_NODE }
    requires same { config.now ≡ H.config }
    requires master { master ≡ opening_master max_node H.config }
    ensures attended { IfOk result (λ served. HasAttended A.attends attendant
        (map (λ listener. listener.number) listeners.now) served.1.log served.0) }
    ensures run { IfOk result (λ served. IsServedRun config.now
        (map (λ listener. listener.number) listeners.now) served.1) }
{
    let (master, maker, log) = opened.named::<H>(master);
    let cluster = open_cluster(alloc, listeners, config, master, &log)?;
    let start = begin(rt, listeners.len())?;
    let contexts = NodeContexts::of_cluster(&cluster, listeners, start);
    let attendant = AtCluster {
        attendant,
        cluster: &cluster,
    };
    let (answer, seen, ended) = serve_opened::<H, R, G, AtCluster<'_, H, A>>(
        rt, alloc, &contexts, config, maker, log, gate, attendant,
    )?;
    let run = settle(rt, &seen, &cluster.into_master(), ended)?;
    Ok((answer, run))
}

// Returns the nodes of these listeners, with the master of their run.
fn open_cluster<H: RunNaming>(
    alloc: Global,
    listeners: &[Listener],
    config: &Config,
    master: MasterOnRecord<H>,
    log: &SeenRun<H>,
) -> Result<Cluster<H>, OpeningError>
    requires given { 1 ≤ master.state.given }
    requires numbers { master.state.greatest ≡ max_node }
    ensures { IfOk result (λ cluster.
        cluster ≡ map (λ listener. listener.number) listeners.now) }
{
    let numbers: Vec<u8> = listeners
        .iter()
        .map(|listener| listener.number)
        .collect(alloc)?;
    Ok(Cluster::new(alloc, numbers.as_slice(), config, master, log)?)
}
