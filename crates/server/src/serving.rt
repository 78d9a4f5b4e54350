// Serving the nodes of a run that has a name, while something attends.
//
// All that the threads borrow lives in one call, so no thread outlives it. Each node has a thread
// that runs its own threads; they return once its listener is closed, and nothing else ends them.
// The order of the end is fixed: the attendant returns, all listeners are closed, all threads have
// returned, and then the nodes are closed and their reports gathered. The step from `serve_opened`
// to `serve_named` chooses what the nodes' numbers name, once all inboxes exist. `serve_states` is
// the one place where it is proved that threads may share a node's state.

ghost use Rattle.std.specs.Prelude.{◌≡◌, ◌≤◌, [], All, IfOk, IsPermutation, length, map, vec_capacity};
ghost use Rattle.std.specs.List.Sorted.{IsNonDecreasingBy};
ghost use Rattle.run_history.specs.Log.{opening_log};
ghost use Rattle.server.specs.Inside.{IsIdle, numbers_of};
ghost use Rattle.server.specs.node_threads.Named.{AreFresh, AreNamed};

use crate::attending::Attends;
use crate::ending::EndedNodes;
use crate::node_threads::{EndedNode, NodeContexts, OpenedNode, ServedNode, start_all};
use crate::opening::{OpenedNodes, open_all};
use crate::outcome::Outcome;
use crate::serve_error::ServeError;
use crate::shutdown::{Closing, end_all};
use ballot_base::{Config, MAX_NUMBER};
use node::{HasState, NodeNaming, NodeState};
use node_base::devices::Gate;
use run_history::{NodeMaker, RunNaming, SeenRun};
use std::alloc::Global;
use std::marker::Brand;
use std::net::{Net, TcpStream};
use std::sync::Wait;
use std::thread;
use std::thread::Threads;
use std::time::Clock;
use streams::Closed;

/// Opens the nodes of a run, and serves those that have listeners. Returns what the attendant
/// returned and what it saw of the run's log, and the nodes as they ended.
pub(crate) fn serve_opened<H, R, G, A>(
    rt: &R,
    alloc: Global,
    contexts: &NodeContexts<'_, H>,
    config: &Config,
    maker: NodeMaker<H>,
    log: SeenRun<H>,
    gate: Option<&G>,
    attendant: A,
) -> Result<(A::Answer, SeenRun<H>, EndedNodes<H>), ServeError>
where
    H: RunNaming + Send + Sync,
    R: Threads + Wait + Clock + Sync + Net<Stream = TcpStream>,
    G: Gate + Sync,
    A: Attends<H>,
    requires nodes { contexts.now.nodes ≡ H.nodes }
    requires bound { contexts.now.nodes ≤ MAX_NUMBER }
    requires config { config.now ≡ H.config }
    requires maker { maker ≡ 0 }
    requires log { log ≡ opening_log H.nodes H.config H.linked }
    ensures attended { IfOk result (λ served. A.attends attendant served.1 served.0) }
    ensures served { IfOk result (λ served. IsPermutation
        (map (λ listener. listener.number) contexts.now.listeners.now)
        (numbers_of served.2.served.items)) }
    ensures rising { IfOk result (λ served.
        IsNonDecreasingBy (λ one. one.report.number) served.2.served.items) }
    ensures idle { IfOk result (λ served. All IsIdle served.2.others.items) }
    ensures empty { IfOk result (λ served. served.2.reports.items ≡ []) }
{
    let OpenedNodes { served, others } = open_all(alloc, contexts, config, maker, &log)?;
    let Ok(reports) = Vec::with_capacity(alloc, served.len()) else {
        return Err(ServeError::Memory);
    };
    let (answer, seen, served) = serve_named::<H, Brand, R, G, A>(
        rt, alloc, contexts, served, log, gate, attendant,
    )?;
    let ended = EndedNodes {
        served,
        others,
        reports,
    };
    Ok((answer, seen, ended))
}

// Serves nodes whose numbers name their inboxes and first states, for all threads.
fn serve_named<H, J, R, G, A>(
    rt: &R,
    alloc: Global,
    contexts: &NodeContexts<'_, H>,
    opened: Vec<OpenedNode<H>>,
    log: SeenRun<H>,
    gate: Option<&G>,
    attendant: A,
) -> Result<(A::Answer, SeenRun<H>, Vec<EndedNode<H>>), ServeError>
where
    H: RunNaming + Send + Sync,
    J: NodeNaming + Send + Sync,
    R: Threads + Wait + Clock + Sync + Net<Stream = TcpStream>,
    G: Gate + Sync,
    A: Attends<H>,
    requires named { AreNamed J.inbox_of J.first_of opened.items }
    requires fresh { AreFresh opened.items }
    requires log { log ≡ opening_log H.nodes H.config H.linked }
    ensures attended { IfOk result (λ served. A.attends attendant served.1 served.0) }
    ensures served { IfOk result (λ served. IsPermutation
        (map (λ one. one.number) opened.items) (numbers_of served.2.items)) }
    ensures rising { IfOk result (λ served.
        IsNonDecreasingBy (λ one. one.report.number) served.2.items) }
{
    let nodes = start_all::<H, J, R, G>(rt, alloc, contexts, opened, &log, gate)?;
    let Ok(mut outcome) = Outcome::new(alloc, nodes.len()) else {
        return Err(ServeError::Memory);
    };
    let Ok(closings) = Vec::with_capacity(alloc, nodes.len()) else {
        return Err(ServeError::Memory);
    };
    let served = serve_states(rt, nodes.as_slice(), log, closings, attendant);
    outcome.expect_started(served.all_started);
    end_all(rt, nodes, served.closings, &mut outcome);
    let ended = outcome.into_ended()?;
    Ok((served.answer, served.seen, ended))
}

// How a run of nodes ended.
#[derive(Drop)]
struct Served<H: RunNaming, T: Drop> {
    // What the attendant returned.
    answer: T,
    // What the attendant saw of the run's log.
    seen: SeenRun<H>,
    // Whether each node's own thread could be started.
    all_started: bool,
    // The witnesses that the nodes' listeners were closed, in the order of the nodes.
    closings: Vec<Closed>,
}

// Calls `serve_by` with the type that a node's lock holds. That threads may share it is proved only
// here.
fn serve_states<H, J, R, G, A>(
    rt: &R,
    nodes: &[ServedNode<'_, H, J, NodeState<H, J>, G>],
    log: SeenRun<H>,
    closings_with_capacity: Vec<Closed>,
    attendant: A,
) -> Served<H, A::Answer>
where
    H: RunNaming + Send + Sync,
    J: NodeNaming + Send + Sync,
    R: Threads + Wait + Clock + Sync + Net<Stream = TcpStream>,
    G: Gate + Sync,
    A: Attends<H>,
    requires empty { closings_with_capacity.items ≡ [] }
    requires capacity { length nodes.now ≤ vec_capacity closings_with_capacity }
    ensures attended { A.attends attendant result.seen result.answer }
    ensures closed { result.closings.items ≡ map (λ node. node.number) nodes.now }
{
    serve_by::<H, J, NodeState<H, J>, R, G, A>(rt, nodes, log, closings_with_capacity, attendant)
}

// Runs the threads of these nodes while the attendant runs, and then closes their listeners. The
// list has capacity for the witnesses.
fn serve_by<H, J, S, R, G, A>(
    rt: &R,
    nodes: &[ServedNode<'_, H, J, S, G>],
    log: SeenRun<H>,
    closings_with_capacity: Vec<Closed>,
    attendant: A,
) -> Served<H, A::Answer>
where
    H: RunNaming + Send + Sync,
    J: NodeNaming + Send + Sync,
    S: HasState<H, J> + Send,
    R: Threads + Wait + Clock + Sync + Net<Stream = TcpStream>,
    G: Gate + Sync,
    A: Attends<H>,
    requires empty { closings_with_capacity.items ≡ [] }
    requires capacity { length nodes.now ≤ vec_capacity closings_with_capacity }
    ensures attended { A.attends attendant result.seen result.answer }
    ensures closed { result.closings.items ≡ map (λ node. node.number) nodes.now }
{
    let closing = Closing {
        nodes,
        closings: closings_with_capacity,
    };
    let attending = Attending {
        attendant,
        seen: log,
    };
    thread::scope(
        thread::scope_env(),
        rt,
        move |scope|
            ensures attended { A.attends attending.attendant result.seen result.answer }
            ensures closed { result.closings.items ≡ map (λ node. node.number) closing.entry.nodes.now }
        {
            let nodes = closing.nodes;
            let mut all_started = true;
            for node in nodes {
                if scope.spawn(move || node.work(rt, nodes)).is_err() {
                    all_started = false;
                }
            }
            let (answer, seen) = attending.attend();
            let closings = closing.close_all(rt);
            Served {
                answer,
                seen,
                all_started,
                closings,
            }
        },
    )
}

// An attendant, and the log of the run as it opened.
#[derive(Drop)]
struct Attending<H: RunNaming, A: Attends<H>> {
    attendant: A,
    seen: SeenRun<H>,
}

impl<H: RunNaming, A: Attends<H>> Attending<H, A> {
    // Runs the attendant. Returns what it returned, and what it saw of the log.
    fn attend(self) -> (A::Answer, SeenRun<H>)
        ensures { A.attends self.attendant result.1 result.0 }
    {
        let Attending {
            attendant,
            mut seen,
        } = self;
        let answer = attendant.attend(&mut seen);
        (answer, seen)
    }
}
