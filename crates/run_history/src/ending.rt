// How a run ends.
//
// All that the parties know is learned into one mark, and then each party looks at its word once.
// By the mark a party has at least the events that it counted; by the word, which is read later,
// it has no more. So the mark is one log by which every party is as it is.

ghost use Rattle.std.specs.Prelude.{◌≡◌, length};
ghost use mathlib.Core.List.{IsPrefix};
ghost use Rattle.run_history.specs.Ends.{AllEnded, AllKnown, IsEnd, IsEnded};

use crate::master_on_record::MasterOnRecord;
use crate::naming::RunNaming;
use crate::node_on_record::NodeOnRecord;
use crate::seen_run::SeenRun;
use crate::waiting::wait_unless_equal;
use std::sync::Wait;

/// Returns a log by which the master and all nodes have the states that they have, when no call of
/// theirs runs any more; `seen` is any prefix of it. The nodes are all those of the run, in order.
/// Waits for ever if one of them has further events, or a node is not at its index.
pub fn settle_all<H: RunNaming, R: Wait>(
    rt: &R,
    seen: &SeenRun<H>,
    master: &MasterOnRecord<H>,
    nodes: &[NodeOnRecord<H>],
) -> SeenRun<H>
    requires { length nodes.now ≡ H.nodes }
    ensures seen { IsPrefix seen.now result }
    ensures end { IsEnd H.nodes H.config result master.now nodes.now }
{
    let mut mark = mark_of(seen, master);
    learn_all(&mut mark, nodes);
    master.settle(rt, &mark);
    settle_each(rt, &mark, nodes);
    master.has_all_nodes();
    mark.is_history();
    mark
}

fn mark_of<H: RunNaming>(seen: &SeenRun<H>, master: &MasterOnRecord<H>) -> SeenRun<H>
    ensures seen { IsPrefix seen.now result }
    ensures known { IsPrefix master.now.log result }
{
    let mut mark = seen.again();
    let known = master.seen();
    mark.learn(&known);
    mark
}

fn learn_all<H: RunNaming>(mark: &mut SeenRun<H>, nodes: &[NodeOnRecord<H>])
    ensures begins { IsPrefix mark.old mark.new }
    ensures known { AllKnown mark.new nodes.now (length nodes.now) }
{
    for node in nodes {
        mark.learn(&node.seen());
    }
}

fn settle_each<H: RunNaming, R: Wait>(rt: &R, mark: &SeenRun<H>, nodes: &[NodeOnRecord<H>])
    requires { AllKnown mark.now nodes.now (length nodes.now) }
    ensures { AllEnded H.nodes H.config mark.now nodes.now (length nodes.now) }
{
    for index in 0..nodes.len() {
        settle_at(rt, mark, &nodes[index], index as u64);
    }
}

fn settle_at<H: RunNaming, R: Wait>(rt: &R, mark: &SeenRun<H>, node: &NodeOnRecord<H>, index: u64)
    requires { IsPrefix node.now.log mark.now }
    ensures { IsEnded H.nodes H.config mark.now index node.now }
{
    wait_unless_equal(rt, u64::from(node.index()), index);
    node.settle(rt, mark);
}
