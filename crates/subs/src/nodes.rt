// The nodes of the tree, by number. There is one for each list of levels that some filter begins
// with.

ghost use Rattle.std.specs.Prelude.{◌≡◌, OnOk, OnErr, IfOk, IfSome, ◌↔◌, IsTrue, IsSome, Some};
ghost use Rattle.std.specs.Prelude.{None, option_map};
ghost use Rattle.topics.specs.Text.{levels, levels_of};
ghost use Rattle.topics.specs.Matching.{is_all};
ghost use Rattle.subs.specs.Ways.{reach, slot};
ghost use Rattle.subs.specs.Inside.{no_filter_asked, asked_with, with_rows};
ghost use Rattle.subs.specs.Rows.{qos_of_client};
ghost use Rattle.subs.specs.Shown.{shape, root_of, rows_at_levels, IsSoundTree};

use crate::node::Node;
use crate::node_id::NodeId;
use crate::rows::Rows;
use crate::slots::{Slot, add_node, child, clear_at, put_at, set_at};
use machine::Memory;
use packet_base::{ClientId, QoS};
use slab::Slab;
use std::alloc::Global;
use topics::split_level;

/// The nodes in a slab. The numbers of removed nodes are used again.
#[derive(Debug, Drop)]
pub(crate) struct Nodes {
    pub(crate) slab: Slab<Node>,
    /// The node of the empty list of levels. `None` until the first filter is set.
    pub(crate) root: Option<NodeId>,
    /// For the maps in the nodes.
    pub(crate) alloc: Global,
}

impl Nodes {
    /// Returns an empty tree.
    pub(crate) fn new(alloc: Global) -> Nodes
        ensures rows { rows_at_levels result ≡ no_filter_asked }
        ensures sound { IsSoundTree result }
    {
        Nodes {
            slab: Slab::new(alloc),
            root: None,
            alloc,
        }
    }

    /// Sets the client's subscription to the filter with this text. If memory runs out the rows are
    /// unchanged, and the nodes that were created are removed.
    pub(crate) fn set(&mut self, text: &[u8], client: &ClientId, qos: QoS) -> Result<(), Memory>
        requires { IsSoundTree self.old }
        ensures ok { OnOk result
            (rows_at_levels self.new
            ≡ asked_with (rows_at_levels self.old) (levels text.now) client.now (Some qos)) }
        ensures err { OnErr result (rows_at_levels self.new ≡ rows_at_levels self.old) }
        ensures absent { OnErr result (rows_at_levels self.old (levels text.now) client.now
            ≡ None) }
        ensures sound { IsSoundTree self.new }
    {
        let root = self.make_root()?;
        let set = self.set_below(root, text, client, qos);
        if set.is_err() {
            self.prune(root, Some(text));
        }
        set
    }

    /// Replaces the rows of the filter with this text. If memory runs out some empty nodes may
    /// stay.
    pub(crate) fn put(&mut self, text: &[u8], rows: Rows) -> Result<(), Memory>
        requires { IsSoundTree self.old }
        ensures ok { OnOk result
            (rows_at_levels self.new ≡ with_rows (rows_at_levels self.old) (levels text.now)
            (qos_of_client rows)) }
        ensures sound { OnOk result (IsSoundTree self.new) }
    {
        let root = self.make_root()?;
        let slot = self.make_slot(root, Some(text))?;
        put_at(&mut self.slab, slot, rows);
        Ok(())
    }

    /// Removes the client's subscription to the filter with this text, and returns whether there
    /// was one. Nodes that are then empty are removed.
    pub(crate) fn clear(&mut self, text: &[u8], client: &ClientId) -> bool
        requires { IsSoundTree self.old }
        ensures found { IsTrue result ↔ IsSome
            (rows_at_levels self.old (levels text.now) client.now) }
        ensures after { rows_at_levels self.new
            ≡ asked_with (rows_at_levels self.old) (levels text.now) client.now None }
        ensures sound { IsSoundTree self.new }
    {
        let Some(root) = self.root else {
            return false;
        };
        let Some(slot) = self.find_slot(root, Some(text)) else {
            return false;
        };
        let found = clear_at(&mut self.slab, slot, client);
        self.prune(root, Some(text));
        found
    }

    // Returns the root, and creates it if there is none.
    fn make_root(&mut self) -> Result<NodeId, Memory>
        requires { IsSoundTree self.old }
        ensures sound { IsSoundTree self.new }
        ensures rows { rows_at_levels self.new ≡ rows_at_levels self.old }
        ensures root { IfOk result (λ root. root_of self.new ≡ Some root.number) }
        ensures none { OnErr result (root_of self.old ≡ None) }
    {
        if let Some(root) = self.root {
            return Ok(root);
        }
        let root = add_node(&mut self.slab, self.alloc)?;
        self.root = Some(root);
        Ok(root)
    }

    // Creates the nodes of the filter below the root, and sets the client's row there.
    fn set_below(
        &mut self,
        root: NodeId,
        text: &[u8],
        client: &ClientId,
        qos: QoS,
    ) -> Result<(), Memory>
        requires sound { IsSoundTree self.old }
        requires root { root_of self.old ≡ Some root.number }
        ensures ok { OnOk result
            (rows_at_levels self.new
            ≡ asked_with (rows_at_levels self.old) (levels text.now) client.now (Some qos)) }
        ensures err { OnErr result (rows_at_levels self.new ≡ rows_at_levels self.old) }
        ensures absent { OnErr result (rows_at_levels self.old (levels text.now) client.now
            ≡ None) }
        ensures sound { IsSoundTree self.new }
        ensures root { self.new.root ≡ self.old.root }
    {
        let slot = self.make_slot(root, Some(text))?;
        set_at(&mut self.slab, self.alloc, slot, client, qos)
    }

    // Returns the slot of the filter whose levels after node `at` are those of `text`, if its nodes
    // exist.
    fn find_slot(&self, at: NodeId, text: Option<&[u8]>) -> Option<Slot>
        ensures node { option_map (λ found. found.node.number) result
            ≡ reach (shape self.now).child at.number (slot (levels_of text.entry)).0 }
        ensures side { IfSome result (λ found. found.rest ≡ (slot (levels_of text.entry)).1) }
    {
        let Some(text) = text else {
            return Some(Slot {
                node: at,
                rest: false,
            });
        };
        let (level, after) = split_level(text);
        if is_all(level, after) {
            return Some(Slot {
                node: at,
                rest: true,
            });
        }
        match child(&self.slab, at, level) {
            Some(child) => self.find_slot(child, after),
            None => None,
        }
    }
}

/// Returns true if the level is `#` and the last one: it matches all that is left (MQTT 4.7.1.2).
#[tactic(auto, using(topics::proofs::LevelByLevel::is_last_levels))]
pub(crate) fn is_all(level: &[u8], after: Option<&[u8]>) -> bool
    ensures { result ≡ is_all level.now (levels_of after.entry) }
{
    level == b"#".as_slice() && after.is_none()
}
