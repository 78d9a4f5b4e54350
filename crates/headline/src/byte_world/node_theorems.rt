// Theorems about the connections that a world's nodes keep: the contracts of functions with an
// empty body.

ghost use Rattle.headline.specs.byte_world.AtNodes.{NodesAreOrderly, PortsHavePipes};

/// States that each connection that a node lists was opened by a client, whatever happened: a pipe
/// leads to its port. So a port without a pipe is new to its node.
pub fn ports_have_pipes()
    ensures { PortsHavePipes }
{}

/// States that the names of a node's connections are distinct and were given, the last one in a
/// ballot that is not above the one that the node joined, whatever happened. So the first
/// connection that it opens in a later ballot gets the first name there.
pub fn nodes_are_orderly()
    ensures { NodesAreOrderly }
{}
