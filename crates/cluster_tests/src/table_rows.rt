// Texts that are tables of clusters, and the first faults of others.

use cluster::table::{line_of, table};
use std::alloc::Global;

// A table with two rows. The key `node` is among the others in the order in which keys are read.
const TABLE: &str = "key = \"/k\"
master = \"h:1\"
state = \"/s\"
orders = \"/o\"
[[node]]
listen = \"a:1\"
link = \"a:2\"
[[node]]
link = \"b:2\"
listen = \"b:1\"
";

// What is taken out of it, what stands there instead, and the line and the text of its fault.
const ROWS: &[(&str, &str, Option<usize>, &str)] = &[
    ("key = \"/k\"\n", "", None, "no key key"),
    ("state = \"/s\"\n", "", None, "no key state"),
    (
        "orders = \"/o\"",
        "orders = 7",
        Some(4),
        "orders has to be a text in quotes",
    ),
    ("orders = \"/o\"", "orderz = \"/o\"", None, "no key orders"),
    (
        "key = \"/k\"",
        "key = \"/k\"\nlisten = 1",
        Some(2),
        "unknown key \"listen\"",
    ),
    (
        "key = \"/k\"",
        "key = \"/k\"\nport = 1",
        Some(2),
        "unknown key \"port\"",
    ),
    (
        "state = \"/s\"",
        "state = \"/s\"\nzone = 1",
        Some(4),
        "unknown key \"zone\"",
    ),
    (
        "link = \"b:2\"",
        "",
        None,
        "row 2 of [[node]] has no key link",
    ),
    (
        "link = \"b:2\"",
        "link = \"b:2\"\nport = 1",
        Some(10),
        "unknown key \"port\"",
    ),
    (
        "listen = \"b:1\"",
        "listen = 1",
        Some(10),
        "listen has to be a text in quotes",
    ),
    (
        "link = \"b:2\"",
        "link = \"a:2\"",
        Some(7),
        "two rows have the same link",
    ),
    (
        "listen = \"b:1\"",
        "listen = \"a:1\"",
        Some(6),
        "two rows have the same listen",
    ),
];

// Whole texts, with the line and the text of their fault.
const TEXTS: &[(&str, Option<usize>, &str)] = &[
    ("", None, "no key key"),
    (
        "key = \"/k\"\nmaster = \"h:1\"\nnode = 1\n",
        Some(3),
        "node has to be written as [[node]]",
    ),
    (
        "key = \"/k\"\nmaster = \"h:1\"\nnode = [\"a\"]\n",
        Some(3),
        "node has to be written as [[node]]",
    ),
    (
        "key = \"/k\"\nmaster = \"h:1\"\nnode = []\n",
        None,
        "there have to be 1 to 15 rows [[node]]",
    ),
];

// Returns the line of a text's first fault, and how it is told.
fn fault(alloc: Global, text: &str) -> Option<(Option<usize>, String)> {
    match table(alloc, text) {
        Ok(_) => None,
        Err(fault) => Some((line_of(text, &fault), format!(in alloc; "{fault}").ok()?)),
    }
}

#[test]
fn the_table_is_read(rt: HostRuntime) {
    let Ok(read) = table(rt.alloc(), TABLE) else {
        panic!(rt; "no table");
    };
    assert_eq!(rt; read.key.as_str(), "/k");
    assert_eq!(rt; read.master.as_str(), "h:1");
    assert_eq!(rt; read.state.as_str(), "/s");
    assert_eq!(rt; read.orders.as_str(), "/o");
    for (row, (listen, link)) in read.nodes.iter().zip(&[("a:1", "a:2"), ("b:1", "b:2")]) {
        assert_eq!(rt; row.listen.as_str(), *listen);
        assert_eq!(rt; row.link.as_str(), *link);
    }
    assert_eq!(rt; read.nodes.len(), 2);
}

// Returns the table with one text in place of another.
fn changed(alloc: Global, from: &str, to: &str) -> Option<String> {
    let (before, behind) = TABLE.split_once(from)?;
    format!(in alloc; "{before}{to}{behind}").ok()
}

// Returns the line and the text of a table's first fault, with one text in place of another.
fn fault_of(alloc: Global, from: &str, to: &str) -> Option<(Option<usize>, String)> {
    fault(alloc, changed(alloc, from, to)?.as_str())
}

// Returns true if this is the line and the text of a fault.
fn is_told(found: &Option<(Option<usize>, String)>, line: Option<usize>, text: &str) -> bool {
    match found {
        Some((at, told)) => *at == line && told.as_str() == text,
        None => false,
    }
}

#[test]
fn the_first_fault_is_told(rt: HostRuntime) {
    for (from, to, line, text) in ROWS {
        let found = fault_of(rt.alloc(), from, to);
        assert!(rt; is_told(&found, *line, text), "{text}: {found:?}");
    }
    for (whole, line, text) in TEXTS {
        let found = fault(rt.alloc(), whole);
        assert!(rt; is_told(&found, *line, text), "{text}: {found:?}");
    }
}

#[test]
fn a_text_that_is_no_toml_is_told_by_its_line(rt: HostRuntime) {
    let found = fault(rt.alloc(), "key = \"/k\"\nmaster = = 1\n");
    let line = match found {
        Some((line, _)) => line,
        None => None,
    };
    assert_eq!(rt; line, Some(2));
}

// Returns the text of a table with this many rows.
fn rows(alloc: Global, count: usize) -> Option<String> {
    let head = "key = \"/k\"\nmaster = \"h:1\"\nstate = \"/s\"\norders = \"/o\"\n";
    let mut text = String::from_str(alloc, head).ok()?;
    for row in 0..count {
        let one = format!(in alloc; "[[node]]\nlisten = \"{row}:1\"\nlink = \"{row}:2\"\n").ok()?;
        text.push_str(one.as_str()).ok()?;
    }
    Some(text)
}

#[test]
fn a_table_has_at_most_fifteen_rows(rt: HostRuntime) {
    for (count, wanted) in [(1, true), (15, true), (16, false)] {
        let is_read = match rows(rt.alloc(), count) {
            Some(text) => fault(rt.alloc(), text.as_str()).is_none(),
            None => false,
        };
        assert_eq!(rt; is_read, wanted, "{count} rows");
    }
}
