// Which node a number names.

use mailbox::Naming;
use std::marker::Brand;

/// The first state of the node that each number names. This is chosen before the first node of a
/// run is served: the caller of a function that is generic in a `NodeNaming` passes [`Brand`], and
/// chooses the nodes that it opened.
pub trait NodeNaming: Naming {
    ghost use Rattle.std.specs.Prelude.{ℕ};
    ghost use Rattle.world_base.specs.node_core.Core.{CountedCore};

    ghost first_of: { ℕ → CountedCore };
}

impl NodeNaming for Brand {
    ghost use Rattle.node.specs.State.{no_core};

    ghost first_of = { λ _. no_core };
}
