// Tables of nodes: what their texts are read as.

ghost use Rattle.std.specs.Prelude.{◌≡◌, ◌++◌, ◌∷◌, [], IfOk, OnOk, codes};
ghost use Rattle.std.specs.List.{flat_map};
ghost use Rattle.program_rows.specs.AnswerFields.{counted, numbers_fields};
ghost use Rattle.command_line.specs.Refusals.{table_number};
ghost use Rattle.program_rows.specs.TableSteps.{TableAnswer, node_fields, node_text, nodes_text};
ghost use Rattle.program_rows.specs.TableSteps.{table_fields};

use crate::answers::{counted, put_number};
use command_line::{ListeningNode, NodeTable, TableFault, table};
use rows::{Fields, StepFault};
use std::alloc::{AllocError, Global};
use std::str;

/// Returns what a text is read as.
pub(crate) fn table_answer(alloc: Global, text: &[u8]) -> Result<Fields, StepFault>
    ensures { IfOk result (TableAnswer text.now) }
{
    match str::from_utf8(text) {
        Ok(text) => answer_of(alloc, text),
        Err(_) => Err(StepFault::Form),
    }
}

fn answer_of(alloc: Global, text: &str) -> Result<Fields, StepFault>
    ensures { IfOk result (TableAnswer text.now) }
{
    match &table(alloc, text) {
        Ok(read) => Ok(table_fields(alloc, read)?),
        Err(fault) => Ok(refusal(alloc, *fault)?),
    }
}

// Returns the answer to a text that is no table.
fn refusal(alloc: Global, fault: TableFault) -> Result<Fields, StepFault>
    ensures only { OnOk result (fault ≡ TableFault.Shape) }
    ensures answer { IfOk result (λ answer. answer ≡ counted (codes "refused") (table_number fault)) }
{
    match fault {
        TableFault::Shape => Ok(counted(alloc, "refused", u64::from(fault.number()))?),
        TableFault::Memory => Err(StepFault::Memory),
    }
}

fn table_fields(alloc: Global, table: &NodeTable) -> Result<Fields, AllocError>
    ensures { IfOk result (λ fields. fields ≡ table_fields table.now) }
{
    let mut out = Fields::new(alloc);
    put_numbers("member", table.config.members.as_slice(), &mut out)?;
    put_number("primary", u64::from(table.config.primary), &mut out)?;
    put_nodes(table.nodes.as_slice(), &mut out)?;
    Ok(out)
}

/// Appends a word before each number.
pub(crate) fn put_numbers(word: &str, numbers: &[u8], out: &mut Fields) -> Result<(), AllocError>
    ensures { OnOk result (out.new ≡ out.old ++ numbers_fields word.now numbers.now) }
{
    if let [number, rest @ ..] = numbers {
        put_number(word, u64::from(*number), out)?;
        put_numbers(word, rest, out)?;
    }
    Ok(())
}

fn put_nodes(nodes: &[ListeningNode], out: &mut Fields) -> Result<(), AllocError>
    ensures { OnOk result (out.new ≡ out.old ++ flat_map node_fields nodes.now) }
{
    if let [node, rest @ ..] = nodes {
        put_node(node, out)?;
        put_nodes(rest, out)?;
    }
    Ok(())
}

fn put_node(node: &ListeningNode, out: &mut Fields) -> Result<(), AllocError>
    ensures { OnOk result (out.new ≡ out.old ++ node_fields node.now) }
{
    put_number("node", u64::from(node.id), out)?;
    out.text(node.listen.as_str())
}

/// Appends the text of so many nodes, numbered from 1.
pub(crate) fn append_nodes(alloc: Global, count: u64, text: &mut Vec<u8>) -> Result<(), AllocError>
    ensures { OnOk result (text.new.items ≡ text.old.items ++ nodes_text count) }
{
    if count > 0 {
        append_nodes(alloc, count - 1, text)?;
        append_node(alloc, count, text)?;
    }
    Ok(())
}

fn append_node(alloc: Global, id: u64, text: &mut Vec<u8>) -> Result<(), AllocError>
    ensures { OnOk result (text.new.items ≡ text.old.items ++ node_text id) }
{
    let node = format!(in alloc; "[[node]]\nid = {id}\nlisten = \"h:1\"\n")?;
    text.extend_from_slice(node.as_str().as_bytes())
}
