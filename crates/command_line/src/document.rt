// Reading the values of a TOML document.

ghost use Rattle.std.specs.Prelude.{◌≡◌, ◌≤◌, ◌↔◌, ℕ, List, true, Some, None, IfOk, IfSome, IsNone, IsErrOf};
ghost use Rattle.std.specs.List.{list_all};
ghost use Rattle.toml.specs.Data.{Data, Members as Entries, member};
ghost use Rattle.toml.specs.View.{members_view, table_view, view};
ghost use Rattle.command_line.specs.declared.node_table.ListeningNode.{ListeningNode};
ghost use Rattle.command_line.specs.declared.node_table.NodeTable.{NodeTable};
ghost use Rattle.command_line.specs.Tables.{document_of, list_data, node_data, number_value};
ghost use Rattle.command_line.specs.Inside.Documents.{NumbersAreAtMostMaxNode, has_id_at_most_max_node, is_at_most_max_node};

use crate::fault::TableFault;
use crate::node_table::{ListeningNode, NodeTable};
use ballot_base::{Config, Members};
use std::alloc::Global;
use std::collections::btree_map::Iter;
use toml::{Table, Value};

/// The greatest number of a node, as a TOML integer.
const MAX_NODE: i64 = ballot_base::MAX_NODE as i64;

/// Returns the table of nodes in a document. Fails with `Shape` for any other document; no number
/// of the table is above the greatest of a node.
pub(crate) fn document_table(alloc: Global, document: &Table) -> Result<NodeTable, TableFault>
    ensures value { IfOk result (λ table. table_view document.now ≡ document_of table) }
    ensures shape { IsErrOf result TableFault.Shape → (table : NodeTable)
        → NumbersAreAtMostMaxNode table → table_view document.now ≡ document_of table → ⊥ }
{
    let mut entries = document.iter();
    let members = next_value(&mut entries, "members").ok_or(TableFault::Shape)?;
    let nodes = next_value(&mut entries, "node").ok_or(TableFault::Shape)?;
    let primary = next_value(&mut entries, "primary").ok_or(TableFault::Shape)?;
    if entries.next().is_some() {
        return Err(TableFault::Shape);
    }
    let primary = number_at_most_max_node(primary).ok_or(TableFault::Shape)?;
    let members = numbers_of(alloc, members)?;
    let nodes = nodes_of(alloc, nodes)?;
    Ok(NodeTable {
        config: Config { members, primary },
        nodes,
    })
}

// Returns the value of the next entry, if its key is `key`.
fn next_value<'a>(entries: &mut Iter<'a, String, Value>, key: &str) -> Option<&'a Value>
    ensures some { IfSome result (λ value. members_view entries.old
        ≡ member key.now (view value.now) (members_view entries.new)) }
    ensures none { IsNone result → (value : Data) (rest : Entries)
        → members_view entries.old ≡ member key.now value rest → ⊥ }
{
    let (name, value) = entries.next()?;
    if name.as_str() == key {
        Some(value)
    } else {
        None
    }
}

// Returns a number from 0 to the greatest of a node.
fn number_at_most_max_node(value: &Value) -> Option<u8>
    ensures some { IfSome result (λ number. view value.now ≡ number_value number) }
    ensures none { IsNone result → (number : ℕ) → is_at_most_max_node number ≡ true →
        view value.now ≡ number_value number → ⊥ }
{
    let number = value.as_integer()?;
    if 0 <= number && number <= MAX_NODE {
        Some(number as u8)
    } else {
        None
    }
}

// Returns a list of numbers from 0 to the greatest of a node.
fn numbers_of(alloc: Global, value: &Value) -> Result<Members, TableFault>
    ensures value { IfOk result (λ numbers. view value.now ≡ list_data number_value numbers) }
    ensures shape { IsErrOf result TableFault.Shape → (ns : List ℕ) →
        list_all is_at_most_max_node ns ≡ true →
        view value.now ≡ list_data number_value ns → ⊥ }
{
    let values = value.as_array().ok_or(TableFault::Shape)?;
    let mut numbers = Vec::new(alloc);
    for one in values {
        let number = number_at_most_max_node(one).ok_or(TableFault::Shape)?;
        numbers.push(number)?;
    }
    Members::from_slice(alloc, numbers.as_slice())
        .ok()
        .ok_or(TableFault::Memory)
}

// Returns the nodes of a TOML array.
fn nodes_of(alloc: Global, value: &Value) -> Result<Vec<ListeningNode>, TableFault>
    ensures value { IfOk result (λ nodes. view value.now ≡ list_data node_data nodes.items) }
    ensures shape { IsErrOf result TableFault.Shape → (nodes : List ListeningNode)
        → list_all has_id_at_most_max_node nodes ≡ true
        → view value.now ≡ list_data node_data nodes → ⊥ }
{
    let values = value.as_array().ok_or(TableFault::Shape)?;
    let mut nodes = Vec::new(alloc);
    for one in values {
        nodes.push(node_of(alloc, one)?)?;
    }
    Ok(nodes)
}

// Returns the node of a TOML table.
fn node_of(alloc: Global, value: &Value) -> Result<ListeningNode, TableFault>
    ensures value { IfOk result (λ node. view value.now ≡ node_data node) }
    ensures shape { IsErrOf result TableFault.Shape → (node : ListeningNode)
        → has_id_at_most_max_node node ≡ true → view value.now ≡ node_data node → ⊥ }
{
    let table = value.as_table().ok_or(TableFault::Shape)?;
    let mut entries = table.iter();
    let id = next_value(&mut entries, "id").ok_or(TableFault::Shape)?;
    let listen = next_value(&mut entries, "listen").ok_or(TableFault::Shape)?;
    if entries.next().is_some() {
        return Err(TableFault::Shape);
    }
    let id = number_at_most_max_node(id).ok_or(TableFault::Shape)?;
    let listen = listen.as_str().ok_or(TableFault::Shape)?;
    Ok(ListeningNode {
        id,
        listen: String::from_str(alloc, listen)?,
    })
}
