// The number of a node.

/// The number of a node in the vector of nodes.
#[derive(Clone, Copy, Debug, PartialEq, Eq)]
pub(crate) struct NodeId {
    /// The key of the node in `Nodes::slab`.
    pub(crate) number: usize,
}
