// What runs while nodes are served.

use post::{Cluster, LinkedNode};
use run_history::{RunNaming, SeenRun};
use std::alloc::Global;
use std::sync::Arc;
use std::thread::Parker;

/// What runs while nodes are served, and gives them orders.
pub trait Attendant: Drop {
    ghost use Rattle.std.specs.Prelude.{ℕ, List};
    ghost use Rattle.run_history.specs.declared.event.RunEvent.{RunEvent};

    /// What it returns.
    type Answer: Drop;

    // What it may return, and have seen of the run's log, if it ran with the nodes of these numbers.
    ghost attends: { Self → List ℕ → List RunEvent → Self.Answer → Type 0 };

    /// Runs with these nodes. When it returns, they end. `seen` is the log of the run as it opened,
    /// and may be extended by what the orders show; the run that is returned at the end begins with
    /// it.
    fn attend<H: RunNaming + Send + Sync>(
        self,
        cluster: &Cluster<H>,
        seen: &mut SeenRun<H>,
    ) -> Self::Answer
        ensures { attends self cluster.now seen.new result };
}

/// What runs while a node serves whose other nodes and master are in other programs: it keeps the
/// links to them.
pub trait LinkAttendant: Drop {
    ghost use Rattle.std.specs.Prelude.{ℕ, List};
    ghost use Rattle.run_history.specs.declared.event.RunEvent.{RunEvent};

    /// What it returns.
    type Answer: Drop;

    // What it may return, and have seen of the run's log, if it ran with the node of this number.
    ghost attends: { Self → ℕ → List RunEvent → Self.Answer → Type 0 };

    /// Returns where its thread sleeps. It is woken once something urgent waits for a link.
    fn parker(&self) -> &Arc<Parker, Global>;

    /// Runs with this node. When it returns, the node ends. `seen` is the log of the run as it
    /// opened; the run that is returned at the end begins with what it is extended to.
    fn attend<H: RunNaming + Send + Sync>(
        self,
        node: &LinkedNode<H>,
        seen: &mut SeenRun<H>,
    ) -> Self::Answer
        ensures { attends self node.now.number seen.new result };
}
