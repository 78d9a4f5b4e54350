// The page of metrics.

ghost use Rattle.std.specs.Prelude.{string_bytes};
ghost use Rattle.admin.specs.Metrics.{AddsText, committed_text, counters_text, counts_text, details_text, filled_text, held_text, metrics_text, nodes_text, orders_text, refused_text, refusals_text};
ghost use Rattle.std.specs.List.{flat_map};

use crate::samples::{put_count, put_head, put_labelled, put_level};
use crate::view::{AdminView, Counters, Details, NodeLine, OrderCounts, RefusalCount};
use std::alloc::AllocError;

// Appends all metrics, in the text format of Prometheus.
pub(crate) fn put_metrics(text: &mut String, view: &AdminView) -> Result<(), AllocError>
    ensures { AddsText result (string_bytes text.old) (string_bytes text.new)
        (metrics_text view.now) }
{
    put_details(text, &view.details)?;
    put_orders(text, &view.orders)?;
    put_nodes(text, &view.nodes)
}

// Appends what only a look into the nodes shows, if somebody looked.
fn put_details(text: &mut String, details: &Option<Details>) -> Result<(), AllocError>
    ensures { AddsText result (string_bytes text.old) (string_bytes text.new)
        (details_text details.now) }
{
    match details {
        Some(details) => put_counters(text, &details.counters),
        None => Ok(()),
    }
}

// Appends levels and counts.
fn put_counters(text: &mut String, counters: &Counters) -> Result<(), AllocError>
    ensures { AddsText result (string_bytes text.old) (string_bytes text.new)
        (counters_text counters.now) }
{
    put_filled(text, counters)?;
    put_counts(text, counters)
}

// Appends what orders did.
fn put_orders(text: &mut String, orders: &OrderCounts) -> Result<(), AllocError>
    ensures { AddsText result (string_bytes text.old) (string_bytes text.new)
        (orders_text orders.now) }
{
    put_count(text, "takeovers_total", "Takeovers.", orders.takeovers)?;
    put_refusals(text, &orders.refusals)
}

// Appends what fills up, each with its limit.
fn put_filled(text: &mut String, counters: &Counters) -> Result<(), AllocError>
    ensures { AddsText result (string_bytes text.old) (string_bytes text.new)
        (filled_text counters.now) }
{
    put_level(text, "connections", "Connections.", &counters.connections)?;
    put_level(text, "sessions", "Sessions.", &counters.sessions)?;
    put_level(text, "retained", "Retained messages.", &counters.retained)?;
    put_level(text, "longest_queue", "Messages in it.", &counters.queue)
}

// Appends what was counted since the start.
fn put_counts(text: &mut String, counters: &Counters) -> Result<(), AllocError>
    ensures { AddsText result (string_bytes text.old) (string_bytes text.new)
        (counts_text counters.now) }
{
    let received = counters.received_bytes;
    let sent = counters.sent_bytes;
    put_count(text, "publications_total", "Taken.", counters.publications)?;
    put_count(
        text,
        "losses_total",
        "Steps without memory.",
        counters.losses,
    )?;
    put_count(text, "received_bytes_total", "Of clients.", received)?;
    put_count(text, "sent_bytes_total", "For clients.", sent)
}

// Appends how often something was refused, by number.
fn put_refusals(text: &mut String, refusals: &[RefusalCount]) -> Result<(), AllocError>
    ensures { AddsText result (string_bytes text.old) (string_bytes text.new)
        (refusals_text refusals.now) }
{
    put_head(text, "refusals_total", "counter", "Of orders.")?;
    put_refused(text, refusals)
}

// Appends a sample for each kind of refusal.
fn put_refused(text: &mut String, refusals: &[RefusalCount]) -> Result<(), AllocError>
    ensures { AddsText result (string_bytes text.old) (string_bytes text.new)
        (flat_map refused_text refusals.now) }
{
    for refusal in refusals {
        let count = refusal.count;
        put_labelled(text, "refusals_total", "number", refusal.number, count)?;
    }
    Ok(())
}

// Appends how many commands each node holds, and of how many it knows that all members hold them.
fn put_nodes(text: &mut String, nodes: &[NodeLine]) -> Result<(), AllocError>
    ensures { AddsText result (string_bytes text.old) (string_bytes text.new)
        (nodes_text nodes.now) }
{
    put_head(text, "commands_held", "gauge", "Held by a node.")?;
    put_held(text, nodes)?;
    put_head(text, "commands_committed", "gauge", "As a node knows.")?;
    put_committed(text, nodes)
}

// Appends how many commands each node holds.
fn put_held(text: &mut String, nodes: &[NodeLine]) -> Result<(), AllocError>
    ensures { AddsText result (string_bytes text.old) (string_bytes text.new)
        (flat_map held_text nodes.now) }
{
    for node in nodes {
        put_labelled(text, "commands_held", "node", node.number, node.held)?;
    }
    Ok(())
}

// Appends of how many commands each node knows that all members hold them.
fn put_committed(text: &mut String, nodes: &[NodeLine]) -> Result<(), AllocError>
    ensures { AddsText result (string_bytes text.old) (string_bytes text.new)
        (flat_map committed_text nodes.now) }
{
    for node in nodes {
        put_labelled(
            text,
            "commands_committed",
            "node",
            node.number,
            node.committed,
        )?;
    }
    Ok(())
}
