// Settling the run of the nodes that were served.

ghost use Rattle.std.specs.Prelude.{◌≡◌, ◌++◌, [], true, All, Contains, IfOk, IsPermutation, OnOk, map};
ghost use Rattle.std.specs.List.Sorted.{IsNonDecreasingBy};
ghost use mathlib.Core.List.{IsPrefix};
ghost use Rattle.run_history.specs.Linked.{IsRun};
ghost use Rattle.server.specs.Ended.{IsTold};
ghost use Rattle.server.specs.Ends.{IsReportIn, IsServedRun};
ghost use Rattle.server.specs.Inside.{IsIdle, numbers_of};

use crate::linked_run::LinkedRun;
use crate::node_threads::{EndedNode, NodeReport};
use crate::serve_error::ServeError;
use crate::served_run::ServedRun;
use ballot_base::MAX_NODE;
use machine::Memory;
use run_history::{MasterOnRecord, NodeOnRecord, RunNaming, SeenRun, settle_all};
use std::sync::Wait;

/// The nodes of a run as they ended.
#[derive(Drop)]
pub(crate) struct EndedNodes<H: RunNaming> {
    /// Those that were served, in rising order.
    pub(crate) served: Vec<EndedNode<H>>,
    /// The others, which did nothing, in a list with capacity for all nodes.
    pub(crate) others: Vec<NodeOnRecord<H>>,
    /// An empty list with capacity for the reports.
    pub(crate) reports: Vec<NodeReport>,
}

/// Returns the run of these nodes, which are all nodes of their run, and of their master. `seen` is
/// any prefix of its log. Needs no memory, since the lists have their capacity; fails with `Memory`
/// if they have not, or if a node is missing, which does not occur.
pub(crate) fn settle<H: RunNaming, R: Wait>(
    rt: &R,
    seen: &SeenRun<H>,
    master: &MasterOnRecord<H>,
    ended: EndedNodes<H>,
) -> Result<ServedRun, ServeError>
    requires nodes { H.nodes ≡ MAX_NODE }
    requires rising { IsNonDecreasingBy (λ one. one.report.number) ended.served.items }
    requires idle { All IsIdle ended.others.items }
    requires empty { ended.reports.items ≡ [] }
    ensures seen { IfOk result (λ run. IsPrefix seen.now run.log) }
    ensures run { IfOk result (λ run.
        IsServedRun H.config (numbers_of ended.served.items) run) }
{
    let seen = with_ended(seen, ended.served.as_slice());
    let (nodes, reports) = parted(ended)?;
    let nodes = by_index(nodes);
    if nodes.len() != usize::from(MAX_NODE) {
        return Err(ServeError::Memory);
    }
    let log = settle_all(rt, &seen, master, nodes.as_slice());
    Ok(ServedRun {
        log: log.into_log(),
        reports,
    })
}

/// Returns the run of the node that was served, the only one of linked nodes that did anything here.
/// `seen` is any prefix of its log. Fails with `Memory` if there is none, which does not occur.
pub(crate) fn settle_linked<H: RunNaming, R: Wait>(
    rt: &R,
    seen: &SeenRun<H>,
    ended: EndedNodes<H>,
) -> Result<LinkedRun, ServeError>
    requires { H.linked ≡ true }
    ensures seen { IfOk result (λ run. IsPrefix seen.now run.log) }
    ensures run { IfOk result (λ run. IsRun true H.nodes H.config run.log) }
    ensures report { IfOk result (λ run. IsReportIn H.nodes H.config run.log run.report) }
    ensures among { IfOk result (λ run.
        Contains (numbers_of ended.served.items) run.report.number) }
{
    let EndedNodes { served, .. } = ended;
    let Some(one) = served.into_iter().next() else {
        return Err(ServeError::Memory);
    };
    Ok(settle_one(rt, seen, one))
}

// Returns the run of a node.
fn settle_one<H: RunNaming, R: Wait>(rt: &R, seen: &SeenRun<H>, one: EndedNode<H>) -> LinkedRun
    requires { H.linked ≡ true }
    ensures seen { IsPrefix seen.now result.log }
    ensures run { IsRun true H.nodes H.config result.log }
    ensures report { IsReportIn H.nodes H.config result.log result.report }
    ensures number { result.report ≡ one.report }
{
    let mut mark = seen.again();
    mark.learn(one.seen());
    let EndedNode { report, node, .. } = one;
    mark.learn(&node.seen());
    node.settle(rt, &mark);
    mark.is_run();
    LinkedRun {
        log: mark.into_log(),
        report,
    }
}

// Returns a prefix of the log that has what was seen, and what these nodes know of messages.
fn with_ended<H: RunNaming>(seen: &SeenRun<H>, served: &[EndedNode<H>]) -> SeenRun<H>
    ensures seen { IsPrefix seen.now result }
    ensures known { All (λ one. IsPrefix one.log result) served.now }
{
    let mut joined = seen.again();
    for one in served {
        joined.learn(one.seen());
    }
    joined
}

// Returns all nodes, and the reports of those that were served.
fn parted<H: RunNaming>(
    ended: EndedNodes<H>,
) -> Result<(Vec<NodeOnRecord<H>>, Vec<NodeReport>), Memory>
    requires { ended.reports.items ≡ [] }
    ensures nodes { IfOk result (λ parts.
        parts.0.items ≡ ended.others.items ++ map (λ one. one.node) ended.served.items) }
    ensures reports { IfOk result (λ parts.
        parts.1.items ≡ map (λ one. one.report) ended.served.items) }
    ensures told { OnOk result (All IsTold ended.served.items) }
{
    let EndedNodes {
        served,
        others,
        reports,
    } = ended;
    let mut nodes = others;
    let mut reports = reports;
    for one in served {
        let EndedNode { report, node, .. } = one;
        nodes.push(node)?;
        reports.push(report)?;
    }
    Ok((nodes, reports))
}

// Returns these nodes in the order of their numbers.
fn by_index<H: RunNaming>(nodes: Vec<NodeOnRecord<H>>) -> Vec<NodeOnRecord<H>>
    ensures { IsPermutation nodes.items result.items }
{
    let mut sorted = nodes;
    sorted.sort_unstable_by_key(|node| node.index());
    sorted
}
