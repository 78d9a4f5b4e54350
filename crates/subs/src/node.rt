// A node of the tree: the rows of the filters that end at it, and its children.

ghost use Rattle.std.specs.Prelude.{◌≡◌, OnOk, OnErr, ◌↔◌, IsTrue, IsSome, is_some, true, false};
ghost use Rattle.std.specs.Prelude.{Some, None, option_map};
ghost use Rattle.subs.specs.Rows.{qos_of_client};
ghost use Rattle.subs.specs.Inside.{clients_at, child_in, HoldsNothing};
ghost use Rattle.subs.specs.Changes.{SetsRow, SetsSide, SetsChild};

use crate::node_id::NodeId;
use crate::rows::Rows;
use machine::Memory;
use packet_base::{ClientId, QoS};
use std::alloc::Global;
use std::collections::BTreeMap;

/// A node of the tree. The path to it from the root is a list of levels.
#[derive(Debug, Drop)]
pub(crate) struct Node {
    /// The rows of the filter that ends here.
    pub(crate) here: Rows,
    /// The rows of the filter that continues with `#` and ends.
    pub(crate) rest: Rows,
    // The children by their levels, except `+`.
    named: BTreeMap<Vec<u8>, NodeId>,
    /// The child of `+`.
    pub(crate) plus: Option<NodeId>,
}

impl Node {
    /// Returns a node without rows and children.
    pub(crate) fn new(alloc: Global) -> Node
        ensures { HoldsNothing result }
    {
        Node {
            here: Rows::Empty,
            rest: Rows::Empty,
            named: BTreeMap::new(alloc),
            plus: None,
        }
    }

    /// Returns the child at a level.
    pub(crate) fn child(&self, level: &[u8]) -> Option<NodeId>
        ensures { option_map (λ id. id.number) result ≡ child_in self.now level.now }
    {
        if level == b"+".as_slice() {
            return self.plus;
        }
        self.named.get(level).copied()
    }

    /// Sets the child at a level.
    pub(crate) fn set_child(
        &mut self,
        alloc: Global,
        level: &[u8],
        child: NodeId,
    ) -> Result<(), Memory>
        ensures ok { OnOk result
            (SetsChild (child_in self.old) (child_in self.new) level.now (Some child.number)) }
        ensures err { OnErr result (child_in self.new ≡ child_in self.old) }
        ensures rows { clients_at self.new ≡ clients_at self.old }
    {
        if level == b"+".as_slice() {
            self.plus = Some(child);
            return Ok(());
        }
        self.named.insert(Vec::from_slice(alloc, level)?, child)?;
        Ok(())
    }

    /// Removes the child at a level.
    pub(crate) fn drop_child(&mut self, level: &[u8])
        ensures child { SetsChild (child_in self.old) (child_in self.new) level.now None }
        ensures rows { clients_at self.new ≡ clients_at self.old }
    {
        if level == b"+".as_slice() {
            self.plus = None;
            return;
        }
        self.named.remove(level);
    }

    /// Sets the client's row in `rest` or in `here`.
    pub(crate) fn set(
        &mut self,
        alloc: Global,
        rest: bool,
        client: &ClientId,
        qos: QoS,
    ) -> Result<(), Memory>
        ensures ok { OnOk result
            (SetsRow (clients_at self.old) (clients_at self.new) rest client.now (Some qos)) }
        ensures err { OnErr result (clients_at self.new ≡ clients_at self.old) }
        ensures absent { OnErr result (clients_at self.old rest client.now ≡ None) }
        ensures child { child_in self.new ≡ child_in self.old }
    {
        if rest {
            return self.rest.set(alloc, client, qos);
        }
        self.here.set(alloc, client, qos)
    }

    /// Replaces all rows of `rest` or of `here`.
    pub(crate) fn put(&mut self, rest: bool, rows: Rows)
        ensures rows { SetsSide (clients_at self.old) (clients_at self.new) rest
            (qos_of_client rows) }
        ensures child { child_in self.new ≡ child_in self.old }
    {
        if rest {
            self.rest = rows;
            return;
        }
        self.here = rows;
    }

    /// Removes the client's row and returns whether there was one.
    pub(crate) fn clear(&mut self, rest: bool, client: &ClientId) -> bool
        ensures found { result ≡ is_some (clients_at self.old rest client.now) }
        ensures after { SetsRow (clients_at self.old) (clients_at self.new) rest client.now None }
        ensures child { child_in self.new ≡ child_in self.old }
    {
        if rest {
            return self.rest.clear(client);
        }
        self.here.clear(client)
    }

    /// Returns true if the node has neither rows nor children.
    pub(crate) fn is_empty(&self) -> bool
        ensures { IsTrue result → HoldsNothing self.now }
    {
        if !self.here.is_empty() {
            return false;
        }
        if !self.rest.is_empty() {
            return false;
        }
        if !self.named.is_empty() {
            return false;
        }
        self.plus.is_none()
    }
}
