// Single changes of the slab of nodes: adding or freeing a node, setting a row or a child of one.

ghost use Rattle.std.specs.Prelude.{◌≡◌, OnOk, OnErr, IfOk, IsTrue, is_some, true, Some};
ghost use Rattle.std.specs.Prelude.{None, option_map};
ghost use Rattle.subs.specs.Changes.{WritesRow, Fills, Links, AddsNode, FreesNode, IsBare};
ghost use Rattle.subs.specs.Inside.{shape_of};
ghost use Rattle.subs.specs.Rows.{qos_of_client};

use crate::node::Node;
use crate::node_id::NodeId;
use crate::rows::Rows;
use machine::Memory;
use packet_base::{ClientId, QoS};
use slab::Slab;
use std::alloc::Global;

/// Where the rows of a filter are stored: in `here` or in `rest` of a node.
#[derive(Clone, Copy, Debug)]
pub(crate) struct Slot {
    /// The node at the end of the filter's levels, a last `#` left out.
    pub(crate) node: NodeId,
    /// True if the filter ends with `#`.
    pub(crate) rest: bool,
}

/// Adds an empty node and returns its number.
pub(crate) fn add_node(nodes: &mut Slab<Node>, alloc: Global) -> Result<NodeId, Memory>
    ensures adds { IfOk result (λ id.
        AddsNode (shape_of nodes.old) (shape_of nodes.new) id.number) }
    ensures bare { IfOk result (λ id. IsBare (shape_of nodes.new) id.number) }
    ensures err { OnErr result (shape_of nodes.new ≡ shape_of nodes.old) }
{
    let number = nodes.insert(Node::new(alloc))?;
    Ok(NodeId { number })
}

/// Frees the number of an empty node, which may then be used again.
pub(crate) fn free_node(nodes: &mut Slab<Node>, at: NodeId)
    requires { IsBare (shape_of nodes.old) at.number }
    ensures { FreesNode (shape_of nodes.old) (shape_of nodes.new) at.number }
{
    nodes.try_remove(at.number);
}

/// Returns the child of a node at a level.
pub(crate) fn child(nodes: &Slab<Node>, at: NodeId, level: &[u8]) -> Option<NodeId>
    ensures { option_map (λ id. id.number) result ≡ (shape_of nodes.now).child at.number level.now }
{
    match nodes.get(at.number) {
        Some(node) => node.child(level),
        None => None,
    }
}

/// Returns true if the node has neither rows nor children.
pub(crate) fn is_empty(nodes: &Slab<Node>, at: NodeId) -> bool
    ensures { IsTrue result → IsBare (shape_of nodes.now) at.number }
{
    match nodes.get(at.number) {
        Some(node) => node.is_empty(),
        None => false,
    }
}

/// Makes one node the child of another at a level.
pub(crate) fn link(
    nodes: &mut Slab<Node>,
    alloc: Global,
    at: NodeId,
    level: &[u8],
    child: NodeId,
) -> Result<(), Memory>
    requires { (shape_of nodes.old).used at.number ≡ true }
    ensures ok { OnOk result
        (Links (shape_of nodes.old) (shape_of nodes.new) at.number level.now (Some child.number)) }
    ensures err { OnErr result (shape_of nodes.new ≡ shape_of nodes.old) }
{
    match nodes.get_mut(at.number) {
        Some(node) => node.set_child(alloc, level, child),
        None => Ok(()),
    }
}

/// Removes the link to the child at a level. The child itself stays.
pub(crate) fn unlink(nodes: &mut Slab<Node>, at: NodeId, level: &[u8])
    requires { (shape_of nodes.old).used at.number ≡ true }
    ensures { Links (shape_of nodes.old) (shape_of nodes.new) at.number level.now None }
{
    if let Some(node) = nodes.get_mut(at.number) {
        node.drop_child(level);
    }
}

/// Sets the client's row at a slot.
pub(crate) fn set_at(
    nodes: &mut Slab<Node>,
    alloc: Global,
    slot: Slot,
    client: &ClientId,
    qos: QoS,
) -> Result<(), Memory>
    requires { (shape_of nodes.old).used slot.node.number ≡ true }
    ensures ok { OnOk result
        (WritesRow (shape_of nodes.old)
        (shape_of nodes.new) slot.node.number slot.rest client.now (Some qos)) }
    ensures err { OnErr result (shape_of nodes.new ≡ shape_of nodes.old) }
    ensures absent { OnErr result
        ((shape_of nodes.old).asked slot.node.number slot.rest client.now ≡ None) }
{
    match nodes.get_mut(slot.node.number) {
        Some(node) => node.set(alloc, slot.rest, client, qos),
        None => Ok(()),
    }
}

/// Replaces all rows at a slot.
pub(crate) fn put_at(nodes: &mut Slab<Node>, slot: Slot, rows: Rows)
    requires { (shape_of nodes.old).used slot.node.number ≡ true }
    ensures { Fills (shape_of nodes.old) (shape_of nodes.new) slot.node.number slot.rest
        (qos_of_client rows) }
{
    if let Some(node) = nodes.get_mut(slot.node.number) {
        node.put(slot.rest, rows);
    }
}

/// Removes the client's row at a slot and returns whether there was one.
pub(crate) fn clear_at(nodes: &mut Slab<Node>, slot: Slot, client: &ClientId) -> bool
    requires { (shape_of nodes.old).used slot.node.number ≡ true }
    ensures found { result
        ≡ is_some ((shape_of nodes.old).asked slot.node.number slot.rest client.now) }
    ensures after { WritesRow (shape_of nodes.old)
        (shape_of nodes.new) slot.node.number slot.rest client.now None }
{
    match nodes.get_mut(slot.node.number) {
        Some(node) => node.clear(slot.rest, client),
        None => false,
    }
}
