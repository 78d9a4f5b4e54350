// What a node's threads know of those to whom its steps give messages.

ghost use Rattle.std.specs.Prelude.{◌≡◌, IfSome, is_some};
ghost use Rattle.post.specs.Several.{has_node, has_several};

use crate::cluster::Cluster;
use crate::given_effects::GivenEffects;
use crate::linked::LinkedNode;
use crate::peer::Peer;
use node::{NodeNaming, NodeState};
use run_history::RunNaming;
use std::sync::Wait;

/// The other nodes and the master of a node.
#[derive(Drop)]
pub enum Neighbours<'a, H: RunNaming> {
    /// They are in its program.
    InProgram(&'a Cluster<H>),
    /// They are in other programs, to which there are links.
    ByLinks(&'a LinkedNode<H>),
}

impl<'a, H: RunNaming> Neighbours<'a, H> {
    /// Returns the same.
    pub fn again(&self) -> Neighbours<'a, H>
        ensures { result ≡ self.now }
    {
        match self {
            Neighbours::InProgram(cluster) => Neighbours::InProgram(cluster),
            Neighbours::ByLinks(node) => Neighbours::ByLinks(node),
        }
    }

    /// Returns the node of this number, if it is in the program.
    pub fn node(&self, number: u8) -> Option<&'a Peer<H>>
        ensures some { IfSome result (λ node. node.now.number ≡ number) }
        ensures is { is_some result ≡ has_node self.now number }
    {
        match self {
            Neighbours::InProgram(cluster) => cluster.node(number),
            Neighbours::ByLinks(node) => {
                if node.number() == number {
                    Some(node.peer())
                } else {
                    None
                }
            }
        }
    }

    /// Returns true if a ballot of the node may have other members.
    pub fn are_several(&self) -> bool
        ensures { result ≡ has_several self.now }
    {
        match self {
            Neighbours::InProgram(cluster) => cluster.are_several(),
            Neighbours::ByLinks(_) => true,
        }
    }

    /// Returns true if a node is to tick at once, since a link to another program came up. Counts
    /// that as a hurried tick.
    pub fn hurry<R: Wait>(&self, rt: &R) -> bool {
        match self {
            Neighbours::InProgram(_) => false,
            Neighbours::ByLinks(node) => node.hurries(rt),
        }
    }

    /// Queues what a node's steps gave for others, as [`Cluster::queue_given`] and
    /// [`LinkedNode::queue_given`].
    pub fn queue_given<J: NodeNaming, R: Wait>(
        &self,
        rt: &R,
        giver: &NodeState<H, J>,
        given: GivenEffects<H>,
    ) {
        match self {
            Neighbours::InProgram(cluster) => cluster.queue_given(rt, giver, given),
            Neighbours::ByLinks(node) => node.queue_given(rt, giver, given),
        }
    }

    /// Wakes the thread that carries to the links, if something urgent waits of which it was not
    /// told.
    pub fn wake_links<R: Wait>(&self, rt: &R) {
        match self {
            Neighbours::InProgram(_) => {}
            Neighbours::ByLinks(node) => node.wake_links(rt),
        }
    }

    /// Wakes those for whom something urgent waits, as [`Cluster::wake_urgent`] and
    /// [`LinkedNode::wake_urgent`].
    pub fn wake_urgent<R: Wait>(&self, rt: &R) {
        match self {
            Neighbours::InProgram(cluster) => cluster.wake_urgent(rt),
            Neighbours::ByLinks(node) => node.wake_urgent(rt),
        }
    }
}
