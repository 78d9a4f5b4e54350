// Reading the table of nodes.

ghost use Rattle.std.specs.Prelude.{◌≡◌, IfOk, IsErrOf};
ghost use Rattle.std.specs.List.{list_all};
ghost use Rattle.command_line.specs.declared.node_table.NodeTable.{NodeTable};
ghost use Rattle.command_line.specs.Tables.{IsTableText, are_told_apart, has_node, is_lawful_table};

use crate::document::document_table;
use crate::fault::TableFault;
use crate::node_table::{ListeningNode, NodeTable};
use ballot_base::MAX_NODE;
use std::alloc::Global;

/// Reads the table of nodes from a TOML document. Fails with [`TableFault::Shape`] exactly if the
/// text is no document of a lawful table, or has an unknown key; the order of keys is free.
pub fn table(alloc: Global, text: &str) -> Result<NodeTable, TableFault>
    ensures value { IfOk result (IsTableText text.now) }
    ensures shape { IsErrOf result TableFault.Shape → (table : NodeTable)
        → IsTableText text.now table → ⊥ }
{
    let document = match toml::table_from_str(alloc, text) {
        Ok(document) => document,
        Err(error) if error.is_memory() => return Err(TableFault::Memory),
        Err(_) => return Err(TableFault::Shape),
    };
    let read = document_table(alloc, &document)?;
    if is_lawful(&read) {
        Ok(read)
    } else {
        Err(TableFault::Shape)
    }
}

// Returns true if the numbers of the nodes differ and are in range, and the members of ballot 1 are
// nodes.
fn is_lawful(read: &NodeTable) -> bool
    ensures { result ≡ is_lawful_table read.now }
{
    let nodes = read.nodes.as_slice();
    are_told_apart(nodes)
        && (are_nodes(nodes, read.config.members.as_slice()) && read.config.is_lawful())
}

// Returns true if each number is from 1 to the greatest, and none occurs twice.
fn are_told_apart(nodes: &[ListeningNode]) -> bool
    ensures { result ≡ are_told_apart nodes.now }
{
    let Some((node, others)) = nodes.split_first() else {
        return true;
    };
    (1 <= node.id && node.id <= MAX_NODE) && (!has_node(others, node.id) && are_told_apart(others))
}

fn are_nodes(nodes: &[ListeningNode], members: &[u8]) -> bool
    ensures { result ≡ list_all (has_node nodes.now) members.now }
{
    members.iter().all(|member| has_node(nodes, *member))
}

/// Returns true if one of the nodes has this number.
pub(crate) fn has_node(nodes: &[ListeningNode], id: u8) -> bool
    ensures { result ≡ has_node nodes.now id }
{
    nodes.iter().any(|node| node.id == id)
}
