// Dropping what a node holds for connections that it has closed.

ghost use Rattle.std.specs.Prelude.{◌≡◌, ◌≢◌, ◌⊎◌, length};
ghost use Rattle.node.specs.HandedCounts.{counts_after};
ghost use Rattle.world_base.specs.node_connections.PendingOutput.{pending_bytes};
ghost use Rattle.world_base.specs.node_core.PortOutput.{hands_over, listed_at};
ghost use Rattle.world_base.specs.node_connections.Stands.{standing_of};

use node::{NodeNaming, NodeState};
use run_history::RunNaming;
use std::alloc::Global;
use std::sync::Wait;
use world_base::node_connections::{Port, Standing};

/// Takes what a node still holds for a port whose connection it has closed, and drops it. The node
/// queues nothing more for that port, so what was written there stays a prefix of what it queued. The
/// node counts these bytes as handed over there, so the port's tap takes no more.
/// If memory runs out, the node keeps it; the clauses let it do so at any time.
pub fn forget<H, J, R>(rt: &R, alloc: Global, node: &mut NodeState<H, J>, port: Port)
where
    H: RunNaming,
    J: NodeNaming,
    R: Wait,
    ensures open { standing_of (listed_at port node.old.node.core) ≢ Standing.Closed →
        node.new ≡ node.old }

    // Nothing is taken from any other port.
    ensures takes { (node.new ≡ node.old)
        ⊎ (node.new ≡ record node.old {
          node = record node.old.node { core = hands_over port node.old.node.core };
          log = node.new.log;
          counts = counts_after node.old.counts port
              (length (pending_bytes (listed_at port node.old.node.core)));
        }) }
{
    if node.standing(port) == Standing::Closed {
        let mut left = Vec::new(alloc);
        let _ = node.outgoing(rt, port, &mut left);
    }
}
