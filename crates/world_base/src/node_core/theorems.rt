// Theorems about nodes as they open, and about steps in which memory may run out: the contracts of
// functions with an empty body.

ghost use Rattle.world_base.specs.node_core.ConnectionSteps.{AGapIsClosed};
ghost use Rattle.world_base.specs.node_core.Core.{StrangerNodesOpenAlike};
ghost use Rattle.world_base.specs.node_core.LossyProposals.{ProposalsAreSteps};

/// States that in each step of a node, also one in which memory ran out, a connection keeps its
/// port and its name, and is open only if it was. If it is still open afterwards, everything that
/// the replica output for it was queued, in order, after what was already there. A connection with
/// a gap is closed: a prefix of the outputs for it was queued, and perhaps the node's refusal of
/// its CONNECT. No connection is added except the one that an item opens, with the next name.
pub fn a_gap_is_closed()
    ensures { AGapIsClosed }
{}

/// States that, even if memory runs out, a command that a node proposes to its replica is a step of
/// that replica, exact or with losses, and its effects are done at once.
pub fn proposals_are_steps()
    ensures { ProposalsAreSteps }
{}

/// States that a node opens alike in any two configurations that do not name it.
pub fn stranger_nodes_open_alike()
    ensures { StrangerNodesOpenAlike }
{}
