// What nodes begin with.

ghost use Rattle.std.specs.Prelude.{◌≡◌, IfSome, false};
ghost use Rattle.run_history.specs.Log.{events_by};

use crate::opened_run::Opened;
use mailbox::Inbox;
use run_history::{NodeOnRecord, RunNaming, SeenRun, SentItem};
use std::alloc::Global;
use world_base::node_core::NodeCore;

/// A node of a run that has taken nothing, its inbox, and the log of the run as it opened.
#[derive(Drop)]
pub(super) struct Start<H: RunNaming> {
    pub(super) inbox: Inbox<SentItem<H>>,
    pub(super) node: NodeOnRecord<H>,
    pub(super) log: SeenRun<H>,
}

/// Returns both nodes of a group that opened, each with an unused inbox; none without memory.
pub(super) fn fresh_two<H: RunNaming>(alloc: Global, opened: Opened) -> Option<(Start<H>, Start<H>)>
    requires book { opened.run.book ≡ H.book }
    requires nodes { H.nodes ≡ 2 }
    requires config { opened.config ≡ H.config }
    requires own { H.linked ≡ false }
    ensures first { IfSome result (λ starts. starts.0.node.index ≡ 0) }
    ensures none { IfSome result (λ starts. events_by 1 starts.0.node.log ≡ 0) }
    ensures second { IfSome result (λ starts. starts.1.node.index ≡ 1) }
    ensures still_none { IfSome result (λ starts. events_by 2 starts.1.node.log ≡ 0) }
{
    let Opened {
        run,
        master,
        config,
    } = opened;
    let (_master, mut maker, log) = run.named::<H>(master);
    let core = NodeCore::new(alloc, 1, &config).ok()?;
    let other_core = NodeCore::new(alloc, 2, &config).ok()?;
    let node = maker.make(&log, core, 0);
    let other = maker.make(&log, other_core, 1);
    let (inbox, other_inbox) = (Inbox::new(alloc).ok()?, Inbox::new(alloc).ok()?);
    let first = Start {
        inbox,
        node,
        log: log.again(),
    };
    let second = Start {
        inbox: other_inbox,
        node: other,
        log,
    };
    Some((first, second))
}
