// What the threads of a node know of its surroundings.

ghost use Rattle.std.specs.Prelude.{◌≡◌, IfSome, is_some, map};
ghost use Rattle.lists.specs.Lists.{has_id};

use ballot_base::MAX_NODE;
use post::{Cluster, LinkedNode, Neighbours, Peer};
use run_history::RunNaming;
use std::time::{Clock, Instant};
use streams::Listener;

/// The listeners of all nodes, and what the nodes have in common.
#[derive(Drop)]
pub struct NodeContexts<'a, H: RunNaming> {
    /// The other nodes and the master of each.
    pub neighbours: Neighbours<'a, H>,
    /// The listener of each node.
    pub listeners: &'a [Listener],
    /// How many nodes the run has; those without a listener only stand there.
    pub nodes: u8,
    /// The zero of the nodes' clocks.
    pub start: Instant,
}

impl<'a, H: RunNaming> NodeContexts<'a, H> {
    /// Returns the contexts of nodes with these listeners, in a program that has all nodes.
    pub fn of_cluster(
        cluster: &'a Cluster<H>,
        listeners: &'a [Listener],
        start: Instant,
    ) -> NodeContexts<'a, H>
        ensures listeners { result.listeners.now ≡ listeners.now }
        ensures nodes { result.nodes ≡ MAX_NODE }
    {
        let neighbours = Neighbours::InProgram(cluster);
        NodeContexts {
            neighbours,
            listeners,
            nodes: MAX_NODE,
            start,
        }
    }

    /// Returns the context of a node whose others are in other programs, with its listener: its run
    /// has the nodes up to its number.
    pub fn of_links(
        node: &'a LinkedNode<H>,
        listeners: &'a [Listener],
        start: Instant,
    ) -> NodeContexts<'a, H>
        ensures listeners { result.listeners.now ≡ listeners.now }
        ensures nodes { result.nodes ≡ node.now.number }
    {
        let neighbours = Neighbours::ByLinks(node);
        NodeContexts {
            neighbours,
            listeners,
            nodes: node.number(),
            start,
        }
    }

    /// Returns the listener of the node of this number.
    pub fn listener_of(&self, number: u8) -> Option<&'a Listener>
        ensures some { IfSome result (λ listener. listener.now.number ≡ number) }
        ensures is { is_some result
            ≡ has_id number (map (λ listener. listener.number) self.now.listeners.now) }
    {
        self.listeners
            .iter()
            .find(|listener| listener.number == number)
    }

    /// Returns the context of the node of this number, if a listener has it.
    pub(crate) fn context_of(&self, number: u8) -> Option<NodeContext<'a, H>>
        ensures { IfSome result (λ context. context.listener.now.number ≡ number) }
    {
        let listener = self.listener_of(number)?;
        NodeContext::new(self.neighbours.again(), listener, self.start)
    }
}

/// A node's listener, the node as others see it, and the other nodes.
#[derive(Drop)]
pub(crate) struct NodeContext<'a, H: RunNaming> {
    pub(crate) neighbours: Neighbours<'a, H>,
    /// The node as others see it.
    pub(crate) peer: &'a Peer<H>,
    /// The listener, which has the node's number.
    pub(crate) listener: &'a Listener,
    // The zero of the node's clock.
    start: Instant,
}

impl<'a, H: RunNaming> NodeContext<'a, H> {
    /// Returns the context of a listener. Times are counted from `start`. Returns none if no node
    /// has the listener's number.
    pub(crate) fn new(
        neighbours: Neighbours<'a, H>,
        listener: &'a Listener,
        start: Instant,
    ) -> Option<NodeContext<'a, H>>
        ensures { IfSome result (λ context. context.listener.now.number ≡ listener.now.number) }
    {
        let peer = neighbours.node(listener.number)?;
        Some(NodeContext {
            neighbours,
            peer,
            listener,
            start,
        })
    }

    /// Returns the milliseconds since `start`, or 0 if the clock fails. No clause says so.
    pub(crate) fn now<R: Clock>(&self, rt: &R) -> u64 {
        match self.start.elapsed(rt) {
            Ok(time) => u64::try_from(time.as_millis()).unwrap_or(u64::MAX),
            Err(_) => 0,
        }
    }
}
