// Opening the nodes of a program.

ghost use Rattle.std.specs.Prelude.{◌≡◌, ◌<◌, ◌≤◌, ◌+◌, All, IfOk, IsPermutation, OnOk, length, map};
ghost use Rattle.run_history.specs.Log.{opening_log};
ghost use Rattle.server.specs.Inside.{IsIdle};
ghost use Rattle.server.specs.node_threads.Named.{AreFresh, AreNamed};
ghost use Rattle.server.specs.Opening.{AddsNode, first_in, inbox_among};

use crate::node_threads::{NodeContexts, OpenedNode};
use ballot_base::errors::OpeningError;
use ballot_base::{Config, MAX_NUMBER};
use machine::Memory;
use mailbox::Inbox;
use run_history::{NodeMaker, NodeOnRecord, RunNaming, SeenRun};
use std::alloc::Global;
use world_base::node_core::NodeCore;

/// The nodes of a run as they opened.
#[derive(Drop)]
pub(crate) struct OpenedNodes<H: RunNaming> {
    /// Those that are about to serve, in rising order.
    pub(crate) served: Vec<OpenedNode<H>>,
    /// The others, which only stand there, in a list with capacity for all nodes.
    pub(crate) others: Vec<NodeOnRecord<H>>,
}

impl<H: RunNaming> OpenedNodes<H> {
    // Adds the node of this number to those that are about to serve, or to the others.
    fn add(
        &mut self,
        alloc: Global,
        number: u8,
        node: NodeOnRecord<H>,
        is_served: bool,
    ) -> Result<(), Memory>
        ensures { OnOk result (AddsNode number node is_served self.old self.new) }
    {
        if is_served {
            let inbox = Inbox::new(alloc)?;
            self.served.push(OpenedNode {
                number,
                inbox,
                node,
            })?;
        } else {
            self.others.push(node)?;
        }
        Ok(())
    }
}

/// Opens the node of each number, and puts it on record; those that have a listener are to be
/// served. Fails with `BadMembers` if two listeners have one number, if a number is none of the
/// nodes', or if no ballot may have the configuration. The other error is that memory ran out.
pub(crate) fn open_all<H: RunNaming>(
    alloc: Global,
    contexts: &NodeContexts<'_, H>,
    config: &Config,
    maker: NodeMaker<H>,
    log: &SeenRun<H>,
) -> Result<OpenedNodes<H>, OpeningError>
    requires nodes { contexts.now.nodes ≡ H.nodes }
    requires bound { contexts.now.nodes ≤ MAX_NUMBER }
    requires config { config.now ≡ H.config }
    requires maker { maker ≡ 0 }
    requires log { log.now ≡ opening_log H.nodes H.config H.linked }
    ensures named { IfOk result (λ opened.
        AreNamed (inbox_among opened.served.items) (first_in config.now) opened.served.items) }
    ensures fresh { IfOk result (λ opened. AreFresh opened.served.items) }

    // They are those that have a listener.
    ensures all { IfOk result (λ opened. IsPermutation
        (map (λ listener. listener.number) contexts.now.listeners.now)
        (map (λ one. one.number) opened.served.items)) }
    ensures idle { IfOk result (λ opened. All IsIdle opened.others.items) }
{
    let mut maker = maker;
    let mut opened = OpenedNodes {
        served: Vec::with_capacity(alloc, contexts.listeners.len())?,
        others: Vec::with_capacity(alloc, usize::from(contexts.nodes))?,
    };
    for index in 0..contexts.nodes {
        let number = index + 1;
        let core = NodeCore::up_to(alloc, contexts.nodes, number, config)?;
        let node = maker.make(log, core, index);
        let is_served = contexts.listener_of(number).is_some();
        opened.add(alloc, number, node, is_served)?;
    }
    if opened.served.len() != contexts.listeners.len() {
        return Err(OpeningError::BadMembers);
    }
    Ok(opened)
}
