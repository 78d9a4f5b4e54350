// Attendants with those whom they attend.

ghost use Rattle.std.specs.Prelude.{◌≡◌};

use crate::attendant::{Attendant, LinkAttendant};
use post::{Cluster, LinkedNode};
use run_history::{RunNaming, SeenRun};

/// An attendant with all that it runs with, but the log.
pub(crate) trait Attends<H: RunNaming>: Drop {
    ghost use Rattle.std.specs.Prelude.{List};
    ghost use Rattle.run_history.specs.declared.event.RunEvent.{RunEvent};

    /// What it returns.
    type Answer: Drop;

    // What it may return, and have seen of the run's log.
    ghost attends: { Self → List RunEvent → Self.Answer → Type 0 };

    /// Runs it.
    fn attend(self, seen: &mut SeenRun<H>) -> Self::Answer
        ensures { attends self seen.new result };
}

/// An attendant with the nodes of its program.
#[derive(Drop)]
pub(crate) struct AtCluster<'c, H: RunNaming, A: Attendant> {
    pub(crate) attendant: A,
    pub(crate) cluster: &'c Cluster<H>,
}

impl<'c, H: RunNaming + Send + Sync, A: Attendant> Attends<H> for AtCluster<'c, H, A> {
    type Answer = A::Answer;

    ghost attends = { λ at seen answer. A.attends at.attendant at.cluster.now seen answer };

    fn attend(self, seen: &mut SeenRun<H>) -> A::Answer {
        let AtCluster { attendant, cluster } = self;
        attendant.attend(cluster, seen)
    }
}

/// An attendant with a node that has links.
#[derive(Drop)]
pub(crate) struct AtLinks<'c, H: RunNaming, A: LinkAttendant> {
    pub(crate) attendant: A,
    pub(crate) node: &'c LinkedNode<H>,
}

impl<'c, H: RunNaming + Send + Sync, A: LinkAttendant> Attends<H> for AtLinks<'c, H, A> {
    type Answer = A::Answer;

    ghost attends = { λ at seen answer. A.attends at.attendant at.node.now.number seen answer };

    fn attend(self, seen: &mut SeenRun<H>) -> A::Answer {
        let AtLinks { attendant, node } = self;
        attendant.attend(node, seen)
    }
}
