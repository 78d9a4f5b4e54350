// A theorem on ports. The call does nothing; its contract is the theorem.

ghost use Rattle.server.specs.node_threads.Theorems.{PortsDiffer};

/// States that no two connections of a node have the same port.
pub fn ports_differ()
    ensures { PortsDiffer }
{}
