// Removing nodes that became empty.

ghost use Rattle.std.specs.Prelude.{◌≡◌, ◌++◌, ℕ};
ghost use Rattle.topics.specs.Text.{Levels};
ghost use Rattle.subs.specs.Shown.{rows_at_levels, IsSoundTree, LeadsTo, IsThere};

use crate::node_id::NodeId;
use crate::nodes::Nodes;
use crate::slots::{child, free_node, is_empty, unlink};
use topics::split_level;

impl Nodes {
    /// Removes the empty nodes along these levels below node `at`, from the last to the first.
    pub(crate) fn prune(&mut self, at: NodeId, text: Option<&[u8]>)
        requires sound { IsSoundTree self.old }
        requires there { IsThere self.old at.number }
        ensures rows { rows_at_levels self.new ≡ rows_at_levels self.old }
        ensures sound { IsSoundTree self.new }
        ensures root { self.new.root ≡ self.old.root }

        // The path to this node stays.
        ensures ways { (path after : Levels) (number : ℕ)
            → LeadsTo self.old (path ++ after) at.number
            → LeadsTo self.old path number → LeadsTo self.new path number }
    {
        let Some(text) = text else {
            return;
        };
        let (level, after) = split_level(text);
        let Some(child) = child(&self.slab, at, level) else {
            return;
        };
        self.prune(child, after);
        self.drop_empty(at, level);
    }

    // Removes the child of a node at a level if it is empty.
    fn drop_empty(&mut self, at: NodeId, level: &[u8])
        requires sound { IsSoundTree self.old }
        requires there { IsThere self.old at.number }
        ensures rows { rows_at_levels self.new ≡ rows_at_levels self.old }
        ensures sound { IsSoundTree self.new }
        ensures root { self.new.root ≡ self.old.root }
        ensures ways { (path after : Levels) (number : ℕ)
            → LeadsTo self.old (path ++ after) at.number
            → LeadsTo self.old path number → LeadsTo self.new path number }
    {
        let Some(below) = child(&self.slab, at, level) else {
            return;
        };
        if is_empty(&self.slab, below) {
            unlink(&mut self.slab, at, level);
            free_node(&mut self.slab, below);
        }
    }
}
