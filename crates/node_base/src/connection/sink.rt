// Where a connection is reported.

ghost use Rattle.std.specs.Prelude.{◌≡◌, ◌++◌, ◌∷◌, []};

use std::sync::Wait;
use std::time::Clock;
use world_base::node_core::Item;

/// Takes the reports of a connection, as a lane to a node's inbox does.
pub trait ReportSink {
    ghost use Rattle.std.specs.Prelude.{Bool, List};
    ghost use Rattle.world_base.specs.declared.node_core.item.Item.{Item};

    // Everything that was reported to it, oldest first.
    ghost heard: { Self → List Item };

    // The answers that it may give when it is asked whether the connection may be read.
    ghost lets: { Self → Bool → Type 0 };

    /// Returns the time to report, in milliseconds.
    fn now<R: Clock>(&self, rt: &R) -> u64;

    /// Reports an item.
    fn report<R: Wait + Clock>(&mut self, rt: &R, item: Item)
        ensures { heard self.new ≡ heard self.old ++ item ∷ [] };

    /// Returns true if the connection that was just opened may be read.
    fn let_in<R: Wait>(&self, rt: &R) -> bool
        ensures { lets self.now result };
}
