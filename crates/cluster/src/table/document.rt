// Reading the values of a TOML document, up to the first fault in the order of the keys.

ghost use Rattle.std.specs.Prelude.{◌≡◌, ◌+◌, ◌≤◌, length, string_bytes, IfOk, OnOk};
ghost use Rattle.std.specs.List.{list_any};
ghost use Rattle.std.specs.Str.{bytes_eq};
ghost use Rattle.toml.specs.View.{items_view, members_view, table_view, view};
ghost use Rattle.cluster.specs.table.Entries.{end_at, text_at, text_in, value_at};
ghost use Rattle.cluster.specs.table.Given.{Gives, Reads, row_data, rows_data, table_data};
ghost use Rattle.cluster.specs.table.Tables.{count_checked, row_in, row_of, rows_in, rows_of};
ghost use Rattle.cluster.specs.table.Tables.{table_in, told_apart};

use crate::table::cluster_table::{ClusterTable, NodeRow};
use crate::table::fault::TableFault;
use crate::table::table_text::MAX_ROWS;
use std::alloc::Global;
use std::cmp::Ordering;
use std::collections::btree_map::Iter;
use toml::{Table, Value};

/// Returns the table in a document.
#[tactic(auto, unfolding(crate::specs::table::Tables::table_in))]
pub(crate) fn document_table(alloc: Global, document: &Table) -> Result<ClusterTable, TableFault>
    ensures { Gives table_data result (table_in (table_view document.now)) }
{
    let mut entries = document.iter();
    let key = text_at(alloc, 0, "key", &mut entries)?;
    let master = text_at(alloc, 0, "master", &mut entries)?;
    let nodes = rows_of(alloc, value_at(alloc, 0, "node", &mut entries)?)?;
    let orders = text_at(alloc, 0, "orders", &mut entries)?;
    let state = text_at(alloc, 0, "state", &mut entries)?;
    end_at(alloc, 0, &mut entries)?;
    told_apart(1, nodes.as_slice())?;
    Ok(ClusterTable {
        key,
        master,
        state,
        orders,
        nodes,
    })
}

// Returns the value of the key that has to come next.
fn value_at<'a>(
    alloc: Global,
    row: usize,
    key: &'static str,
    entries: &mut Iter<'a, String, Value>,
) -> Result<&'a Value, TableFault>
    ensures { Reads (λ value. view value.now) result (members_view entries.new)
        (value_at row key.now (members_view entries.old)) }
{
    let Some((name, value)) = entries.next() else {
        return Err(TableFault::Missing(row, key));
    };
    match name.as_str().cmp(key) {
        Ordering::Less => {
            let name = String::from_str(alloc, name.as_str())?;
            Err(TableFault::Unknown(row, name))
        }
        Ordering::Equal => Ok(value),
        Ordering::Greater => Err(TableFault::Missing(row, key)),
    }
}

// Returns the text of the key that has to come next.
#[tactic(auto, unfolding(crate::specs::table::Entries::text_at))]
fn text_at(
    alloc: Global,
    row: usize,
    key: &'static str,
    entries: &mut Iter<'_, String, Value>,
) -> Result<String, TableFault>
    ensures { Reads string_bytes result (members_view entries.new)
        (text_at row key.now (members_view entries.old)) }
{
    let value = value_at(alloc, row, key, entries)?;
    let Some(text) = value.as_str() else {
        return Err(TableFault::Kind(row, key));
    };
    Ok(String::from_str(alloc, text)?)
}

// Fails if a key is left.
fn end_at(
    alloc: Global,
    row: usize,
    entries: &mut Iter<'_, String, Value>,
) -> Result<(), TableFault>
    ensures { Gives (λ done. done) result (end_at row (members_view entries.old)) }
{
    match entries.next() {
        Some((name, _)) => {
            let name = String::from_str(alloc, name.as_str())?;
            Err(TableFault::Unknown(row, name))
        }
        None => Ok(()),
    }
}

// Returns the rows in a value.
#[tactic(auto, using(crate::proofs::of_table::Counted::items_counted))]
fn rows_of(alloc: Global, value: &Value) -> Result<Vec<NodeRow>, TableFault>
    ensures said { Gives (λ rows. rows_data rows.items) result (rows_of (view value.now)) }
    ensures few { IfOk result (λ rows. length rows.items ≤ 15) }
{
    let Some(values) = value.as_array() else {
        return Err(TableFault::Kind(0, "node"));
    };
    let values = values.as_slice();
    if values.is_empty() || values.len() > MAX_ROWS {
        return Err(TableFault::Count);
    }
    let mut rows = Vec::new(alloc);
    append_rows(alloc, 1, values, &mut rows)?;
    Ok(rows)
}

// Appends the rows in these values, the first of which is of this number.
fn append_rows(
    alloc: Global,
    row: usize,
    values: &[Value],
    rows: &mut Vec<NodeRow>,
) -> Result<(), TableFault>
    requires { row + length values.now ≤ 16 }
    ensures said { Gives (λ _. rows_data rows.new.items) result
        (rows_in (rows_data rows.old.items) row (items_view values.now)) }
    ensures count { OnOk result
        (length rows.new.items ≡ length rows.old.items + length values.now) }
{
    let Some((value, others)) = values.split_first() else {
        return Ok(());
    };
    rows.push(row_of(alloc, row, value)?)?;
    append_rows(alloc, row + 1, others, rows)
}

// Returns the row in a value.
#[tactic(auto, unfolding(crate::specs::table::Tables::row_in))]
fn row_of(alloc: Global, row: usize, value: &Value) -> Result<NodeRow, TableFault>
    ensures { Gives row_data result (row_of row (view value.now)) }
{
    let Some(table) = value.as_table() else {
        return Err(TableFault::Kind(0, "node"));
    };
    let mut entries = table.iter();
    let link = text_at(alloc, row, "link", &mut entries)?;
    let listen = text_at(alloc, row, "listen", &mut entries)?;
    end_at(alloc, row, &mut entries)?;
    Ok(NodeRow { listen, link })
}

// Returns true if one of the rows has this address for other nodes.
fn has_link(rows: &[NodeRow], link: &str) -> bool
    ensures { result ≡ list_any (λ row. bytes_eq (string_bytes row.link) link.now) rows.now }
{
    rows.iter().any(|row| row.link.as_str() == link)
}

// Returns true if one of the rows has this address for clients.
fn has_listen(rows: &[NodeRow], listen: &str) -> bool
    ensures { result ≡ list_any (λ row. bytes_eq (string_bytes row.listen) listen.now) rows.now }
{
    rows.iter().any(|row| row.listen.as_str() == listen)
}

// Fails if a later row has an address of an earlier one; the first row is of this number.
fn told_apart(row: usize, rows: &[NodeRow]) -> Result<(), TableFault>
    requires { row + length rows.now ≤ 16 }
    ensures { Gives (λ done. done) result (told_apart row (rows_data rows.now)) }
{
    let Some((first, others)) = rows.split_first() else {
        return Ok(());
    };
    if has_link(others, first.link.as_str()) {
        return Err(TableFault::Twice(row, "link"));
    }
    if has_listen(others, first.listen.as_str()) {
        return Err(TableFault::Twice(row, "listen"));
    }
    told_apart(row + 1, others)
}
