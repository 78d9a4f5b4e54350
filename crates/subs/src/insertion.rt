// Inserting a filter: missing nodes along its levels are created.

ghost use Rattle.std.specs.Prelude.{◌≡◌, ◌++◌, [], ◌∷◌, List, ℕ, OnErr, IfOk, None};
ghost use Rattle.topics.specs.Text.{Levels, levels_of};
ghost use Rattle.subs.specs.Ways.{slot};
ghost use Rattle.subs.specs.Shown.{shape, rows_at_levels, IsSoundTree, LeadsTo, IsThere};

use crate::node_id::NodeId;
use crate::nodes::{Nodes, is_all};
use crate::slots::{Slot, add_node, child, free_node, link};
use machine::Memory;
use topics::split_level;

impl Nodes {
    /// Returns the slot of the filter whose levels after node `at` are those of `text`, and creates
    /// missing nodes. If memory runs out some new nodes may stay.
    pub(crate) fn make_slot(&mut self, at: NodeId, text: Option<&[u8]>) -> Result<Slot, Memory>
        requires sound { IsSoundTree self.old }
        requires there { IsThere self.old at.number }
        ensures leads { IfOk result (λ made. (path : Levels) → LeadsTo self.old path at.number
            → LeadsTo self.new (path ++ (slot (levels_of text.entry)).0) made.node.number) }
        ensures side { IfOk result (λ made. made.rest ≡ (slot (levels_of text.entry)).1) }
        ensures rows { rows_at_levels self.new ≡ rows_at_levels self.old }
        ensures sound { IsSoundTree self.new }
        ensures root { self.new.root ≡ self.old.root }
        ensures none { OnErr result
            ((path : Levels) (client : List ℕ) → LeadsTo self.old path at.number
            → rows_at_levels self.old (path ++ levels_of text.entry) client ≡ None) }
    {
        let Some(text) = text else {
            return Ok(Slot {
                node: at,
                rest: false,
            });
        };
        let (level, after) = split_level(text);
        if is_all(level, after) {
            return Ok(Slot {
                node: at,
                rest: true,
            });
        }
        let child = self.child_or_new(at, level)?;
        self.make_slot(child, after)
    }

    // Returns the child of a node at a level, and creates it if it is missing.
    fn child_or_new(&mut self, at: NodeId, level: &[u8]) -> Result<NodeId, Memory>
        requires sound { IsSoundTree self.old }
        requires there { IsThere self.old at.number }
        ensures leads { IfOk result (λ child. (path : Levels) → LeadsTo self.old path at.number
            → LeadsTo self.new (path ++ level.now ∷ []) child.number) }
        ensures rows { rows_at_levels self.new ≡ rows_at_levels self.old }
        ensures sound { IsSoundTree self.new }
        ensures root { self.new.root ≡ self.old.root }
        ensures none { OnErr result ((shape self.old).child at.number level.now ≡ None) }
    {
        match child(&self.slab, at, level) {
            Some(child) => Ok(child),
            None => self.add_child(at, level),
        }
    }

    // Creates the child of a node at a level.
    fn add_child(&mut self, at: NodeId, level: &[u8]) -> Result<NodeId, Memory>
        requires sound { IsSoundTree self.old }
        requires there { IsThere self.old at.number }
        requires none { (shape self.old).child at.number level.now ≡ None }
        ensures leads { IfOk result (λ child. (path : Levels) → LeadsTo self.old path at.number
            → LeadsTo self.new (path ++ level.now ∷ []) child.number) }
        ensures rows { rows_at_levels self.new ≡ rows_at_levels self.old }
        ensures sound { IsSoundTree self.new }
        ensures root { self.new.root ≡ self.old.root }
    {
        let child = add_node(&mut self.slab, self.alloc)?;
        match link(&mut self.slab, self.alloc, at, level, child) {
            Ok(()) => Ok(child),
            Err(error) => {
                free_node(&mut self.slab, child);
                Err(error)
            }
        }
    }
}
