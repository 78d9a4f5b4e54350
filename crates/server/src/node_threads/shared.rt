// What the threads of a node share.

ghost use Rattle.std.specs.Prelude.{◌≡◌, All, IfOk, OnErr, OnOk, length, map};
ghost use Rattle.mailbox.specs.Ends.{ArrivesWhole, unmet};
ghost use Rattle.node.specs.LockedNode.{AreItsLanes, ReportsOn};
ghost use Rattle.run_history.specs.Log.{opening_log};

use crate::node_threads::node_context::NodeContext;
use machine::Memory;
use mailbox::Lane;
use node::{HasState, Node, NodeNaming, NodeState, Report};
use node_base::devices::Gate;
use run_history::{NodeOnRecord, RunNaming, SeenRun, SentItem};
use std::alloc::Global;
use std::sync::Wait;
use streams::Connections;
use streams::writer::{BlockedLinks, Writer};

/// What the threads of a node share. No thread waits while it holds one of the locks, except for
/// its turn at a gate.
#[derive(Drop)]
pub(crate) struct Shared<'a, H: RunNaming, J: NodeNaming, S: HasState<H, J>, G: Gate> {
    pub(crate) alloc: Global,
    pub(crate) node: Node<'a, H, J, S, G>,
    /// Its listener, the other nodes, and its clock.
    pub(crate) context: NodeContext<'a, H>,
    pub(crate) connections: Connections<H>,
    pub(crate) blocked: BlockedLinks<H>,
    /// The log of the run as it opened: all that is known of what comes from outside.
    pub(crate) opening: SeenRun<H>,
    pub(crate) ghost opened: { opening ≡ opening_log H.nodes H.config H.linked },
    pub(crate) ghost named: { node.number ≡ context.listener.now.number },
}

impl<'a, H: RunNaming, J: NodeNaming, G: Gate> Shared<'a, H, J, NodeState<H, J>, G> {
    /// Ends the node, whose threads have returned. Reports the fate of the items that these lanes
    /// sent, and returns the node as the run has it on record. Fails with `Memory` if they are not
    /// all its lanes, in order.
    pub(crate) fn close<R: Wait>(
        self,
        rt: &R,
        lanes: &mut [Lane<SentItem<H>, J>],
    ) -> Result<(Report, NodeOnRecord<H>), Memory>
        // Lane by lane, what was taken followed by what is left over is all that was sent, in
        // order.
        ensures whole { IfOk result (λ ended.
            All (ArrivesWhole ended.0.taken ended.0.left) lanes.new) }
        ensures lanes { OnOk result (map unmet lanes.new ≡ map unmet lanes.old) }
        ensures each { OnOk result (length lanes.new ≡ self.entry.node.lanes) }
        ensures its { OnOk result (AreItsLanes self.entry.node lanes.old) }
        ensures reports { IfOk result (λ ended. ReportsOn
            (J.first_of self.entry.node.number) self.entry.node.number lanes.new ended.0 ended.1) }
        ensures err { OnErr result (AreItsLanes self.entry.node lanes.old → ⊥) }
    {
        let Shared { node, .. } = self;
        if !node.has_all(lanes) {
            // This does not come: each thread puts its lane back, and there is room for all. But
            // the slots were under a lock, and no clause speaks of what is there.
            return Err(Memory);
        }
        Ok(node.close(rt, lanes))
    }
}

impl<'a, H: RunNaming, J: NodeNaming, S: HasState<H, J>, G: Gate> Shared<'a, H, J, S, G> {
    /// Returns the writer of the node's connections.
    pub(crate) fn writer(&self) -> Writer<'_, 'a, H, J, S, G>
        ensures { result.listener.now.number ≡ self.now.context.listener.now.number }
    {
        Writer {
            alloc: self.alloc,
            node: &self.node,
            listener: self.context.listener,
            connections: &self.connections,
            blocked: &self.blocked,
        }
    }
}
