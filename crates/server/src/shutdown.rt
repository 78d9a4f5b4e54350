// Closing nodes: first all listeners, then the nodes, each with a report.

ghost use Rattle.std.specs.Prelude.{◌≡◌, ◌≤◌, ◌++◌, [], None, length, map, vec_capacity};
ghost use Rattle.server.specs.Inside.{numbers_of};

use crate::node_threads::ServedNode;
use crate::outcome::Outcome;
use node::{HasState, NodeNaming, NodeState};
use node_base::devices::Gate;
use run_history::RunNaming;
use std::net::{Net, TcpStream};
use std::sync::Wait;
use std::time::Clock;
use streams::Closed;

/// Nodes whose listeners are still open, and a list with capacity for the witnesses that they were
/// closed.
#[derive(Drop)]
pub(crate) struct Closing<'n, 'a, H: RunNaming, J: NodeNaming, S: HasState<H, J>, G: Gate> {
    pub(crate) nodes: &'n [ServedNode<'a, H, J, S, G>],
    pub(crate) closings: Vec<Closed>,
    pub(crate) ghost empty: { closings.items ≡ [] },
    pub(crate) ghost capacity: { length nodes.now ≤ vec_capacity closings },
}

impl<'n, 'a, H: RunNaming, J: NodeNaming, S: HasState<H, J>, G: Gate> Closing<'n, 'a, H, J, S, G> {
    /// Closes the listeners of all nodes. Returns the witnesses, in the order of the nodes.
    pub(crate) fn close_all<R>(self, rt: &R) -> Vec<Closed>
    where
        R: Wait + Clock + Net<Stream = TcpStream>,
        ensures { result.items ≡ map (λ node. node.number) self.entry.nodes.now }
    {
        let Closing {
            nodes,
            mut closings,
        } = self;
        for node in nodes {
            closings.push_reserved(node.close_listener(rt));
        }
        closings
    }
}

/// Ends the nodes, whose listeners are closed and whose threads have returned, and keeps them with
/// their reports.
pub(crate) fn end_all<H, J, G, R>(
    rt: &R,
    nodes: Vec<ServedNode<'_, H, J, NodeState<H, J>, G>>,
    closings: Vec<Closed>,
    outcome: &mut Outcome<H>,
)
where
    H: RunNaming,
    J: NodeNaming,
    G: Gate,
    R: Wait,
    requires { closings.items ≡ map (λ node. node.number) nodes.items }

    // If nothing failed, there is a report of each.
    ensures { outcome.new.failure ≡ None → numbers_of outcome.new.ended.items
        ≡ numbers_of outcome.old.ended.items ++ map (λ node. node.number) nodes.entry.items }
{
    let mut closings = closings.into_iter();
    for node in nodes {
        match closings.next() {
            Some(closed) => outcome.keep(node.close(rt, closed)),
            None => unreachable!(),
        }
    }
}
