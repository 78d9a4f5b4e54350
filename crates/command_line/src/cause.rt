// What is wrong with a text that is no table of nodes, for the user.
//
// `table` says only that a text is no table, since its answer is exact. What is wrong is looked for
// once it has refused the text.

ghost use Rattle.std.specs.Prelude.{◌≡◌, None};
ghost use Rattle.command_line.specs.declared.node_table.NodeTable.{NodeTable};
ghost use Rattle.command_line.specs.Tables.{IsTableText};

use crate::document::document_table;
use crate::fault::TableFault;
use crate::node_table::{ListeningNode, NodeTable};
use crate::table_text::{has_node, table};
use ballot_base::{MAX_MEMBERS, MAX_NODE};
use machine::MEMORY_TEXT;
use std::alloc::{AllocError, Global};
use std::fmt;
use toml::de::Error;
use toml::{Table, Value};

/// The keys of a document, and of one of its nodes.
const KEYS: &[&str] = &["members", "node", "primary"];

const NODE_KEYS: &[&str] = &["id", "listen"];

/// What is wrong with a text that is no table of nodes. Its text is a few words, without an end of
/// line.
#[derive(Debug, Drop)]
pub struct TableCause {
    // Counted from 1; 0 if it is wrong at no single line.
    line: usize,
    wrong: Wrong,
}

// What is wrong.
#[derive(Debug, Drop)]
enum Wrong {
    // The text is no TOML.
    Toml(Error),
    // A table has this key, which it may not have.
    Unknown(String),
    // This key is missing.
    Missing(&'static str),
    // The value of this key is no number of a node.
    Number(&'static str),
    // The members are no list of numbers of nodes.
    Numbers,
    // The value of this key is something else than this.
    Kind(&'static str, &'static str),
    // Two nodes have this number.
    Twice(u8),
    // A member with this number is no node.
    NoNode(u8),
    // The members are not 1 to 7 in rising order, or the primary is not one of them.
    Configuration,
    // Memory ran out.
    Memory,
}

impl From<AllocError> for Wrong {
    fn from(_error: AllocError) -> Wrong {
        Wrong::Memory
    }
}

impl TableCause {
    /// Returns the line that is wrong, counted from 1; `None` if it is no single one.
    pub fn line(&self) -> Option<usize> {
        match self.line {
            0 => None,
            line => Some(line),
        }
    }
}

impl fmt::Display for TableCause {
    fn fmt<W: fmt::Write>(&self, f: &mut fmt::Formatter<W>) -> fmt::Result {
        match &self.wrong {
            Wrong::Toml(error) => write!(f, "{}", error.message()),
            Wrong::Unknown(key) => write!(f, "unknown key {key:?}"),
            Wrong::Missing(key) => write!(f, "no key {key}"),
            Wrong::Number(key) => write!(f, "{key} has to be a number from 1 to {MAX_NODE}"),
            Wrong::Numbers => write!(f, "members have to be numbers from 1 to {MAX_NODE}"),
            Wrong::Kind(key, wanted) => write!(f, "{key} has to be {wanted}"),
            Wrong::Twice(id) => write!(f, "two nodes have the number {id}"),
            Wrong::NoNode(id) => write!(f, "member {id} is no node"),
            Wrong::Configuration => write!(
                f,
                "members have to be 1 to {MAX_MEMBERS} in rising order, with primary among them"
            ),
            Wrong::Memory => write!(f, "{MEMORY_TEXT}"),
        }
    }
}

/// Returns what is wrong with a text that is no table of nodes; `None` only for a table.
pub fn table_cause(alloc: Global, text: &str) -> Option<TableCause>
    ensures { result ≡ None → (read : NodeTable) × IsTableText text.now read }
{
    match table(alloc, text) {
        Ok(_) => None,
        Err(TableFault::Memory) => Some(TableCause {
            line: 0,
            wrong: Wrong::Memory,
        }),
        Err(TableFault::Shape) => Some(cause_of(alloc, text)),
    }
}

// Returns what is wrong with a text that is no table.
fn cause_of(alloc: Global, text: &str) -> TableCause {
    let document = match toml::table_from_str(alloc, text) {
        Ok(document) => document,
        Err(error) => return no_toml(text, error),
    };
    let wrong = match wrong_in(alloc, &document) {
        Ok(()) => Wrong::Configuration,
        Err(wrong) => wrong,
    };
    drop(document);
    let line = line_of(text, &wrong);
    TableCause { line, wrong }
}

// Returns why a text is no TOML, and where.
fn no_toml(text: &str, error: Error) -> TableCause {
    match error.span() {
        Some(span) => TableCause {
            line: 1
                + text
                    .bytes()
                    .take(span.start)
                    .filter(|byte| *byte == b'\n')
                    .count(),
            wrong: Wrong::Toml(error),
        },
        None => TableCause {
            line: 0,
            wrong: Wrong::Memory,
        },
    }
}

// Returns the line that sets the key of a fault; 0 if there is none.
fn line_of(text: &str, wrong: &Wrong) -> usize {
    match wrong {
        Wrong::Unknown(key) => line_that_sets(text, key.as_str()),
        Wrong::Number(key) | Wrong::Kind(key, _) => line_that_sets(text, key),
        Wrong::Numbers => line_that_sets(text, "members"),
        _ => 0,
    }
}

// Returns the first line that sets a key, counted from 1; 0 if there is none.
fn line_that_sets(text: &str, key: &str) -> usize {
    let mut number = 0usize;
    for line in text.lines() {
        number = number.saturating_add(1);
        if sets(line.trim_start(), key) {
            return number;
        }
    }
    0
}

// Returns true if a line begins with a key, or a table with it as its name.
fn sets(line: &str, key: &str) -> bool {
    match line.trim_start_matches('[').strip_prefix(key) {
        Some(rest) => rest.trim_start().starts_with(['=', ']', '.']),
        None => false,
    }
}

// Returns the first thing that is wrong in a document.
fn wrong_in(alloc: Global, document: &Table) -> Result<(), Wrong> {
    known_keys(alloc, document, KEYS)?;
    numbers(value_of(document, "members")?)?;
    number("primary", value_of(document, "primary")?)?;
    nodes(alloc, value_of(document, "node")?)?;
    match document_table(alloc, document) {
        Ok(read) => told_apart(&read),
        Err(TableFault::Shape) => Ok(()),
        Err(TableFault::Memory) => Err(Wrong::Memory),
    }
}

// Fails at the first key that is none of these.
fn known_keys(alloc: Global, table: &Table, keys: &[&str]) -> Result<(), Wrong> {
    for (key, _) in table {
        if !keys.contains(&key.as_str()) {
            return Err(Wrong::Unknown(String::from_str(alloc, key.as_str())?));
        }
    }
    Ok(())
}

fn value_of<'a>(table: &'a Table, key: &'static str) -> Result<&'a Value, Wrong> {
    table.get(key).ok_or(Wrong::Missing(key))
}

// Returns true if a value is a node's number.
fn is_number(value: &Value) -> bool {
    match value.as_integer() {
        Some(number) => 1 <= number && number <= i64::from(MAX_NODE),
        None => false,
    }
}

// Fails unless a value is a node's number.
fn number(key: &'static str, value: &Value) -> Result<(), Wrong> {
    if is_number(value) {
        Ok(())
    } else {
        Err(Wrong::Number(key))
    }
}

// Fails unless a value is a list of numbers of nodes.
fn numbers(value: &Value) -> Result<(), Wrong> {
    let values = value.as_array();
    for one in values.ok_or(Wrong::Numbers)? {
        if !is_number(one) {
            return Err(Wrong::Numbers);
        }
    }
    Ok(())
}

// Fails unless a value is a list of nodes.
fn nodes(alloc: Global, value: &Value) -> Result<(), Wrong> {
    let values = value.as_array();
    for one in values.ok_or(Wrong::Kind("node", "written as [[node]]"))? {
        node(alloc, one)?;
    }
    Ok(())
}

// Fails unless a value is a node.
fn node(alloc: Global, value: &Value) -> Result<(), Wrong> {
    let table = value.as_table();
    let table = table.ok_or(Wrong::Kind("node", "written as [[node]]"))?;
    known_keys(alloc, table, NODE_KEYS)?;
    number("id", value_of(table, "id")?)?;
    match value_of(table, "listen")?.as_str() {
        Some(_) => Ok(()),
        None => Err(Wrong::Kind("listen", "a text, as \"127.0.0.1:1883\"")),
    }
}

// Fails if two nodes have one number, or a member is no node.
fn told_apart(read: &NodeTable) -> Result<(), Wrong> {
    once(read.nodes.as_slice())?;
    for member in read.config.members.as_slice() {
        if !has_node(read.nodes.as_slice(), *member) {
            return Err(Wrong::NoNode(*member));
        }
    }
    Ok(())
}

// Fails at the first number that two nodes have.
fn once(nodes: &[ListeningNode]) -> Result<(), Wrong> {
    let Some((node, others)) = nodes.split_first() else {
        return Ok(());
    };
    if has_node(others, node.id) {
        return Err(Wrong::Twice(node.id));
    }
    once(others)
}
