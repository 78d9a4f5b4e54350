// The page of the status.

ghost use Rattle.std.specs.Prelude.{◌≡◌, ◌∷◌, [], decimal, Some};
ghost use Rattle.std.specs.List.{flat_map};
ghost use Rattle.admin.specs.Json.{active_member, Adds, ballot_tokens, lag_of, node_tokens, nodes_member, numbers_member, status_tokens};
ghost use Rattle.json.specs.Token.{number};

use crate::json_members::{put_flag, put_number, put_option, put_small, put_text};
use crate::view::{ActiveBallot, AdminView, NodeLine};
use json::Writer;
use std::alloc::AllocError;

// Writes the active ballot, and the status of each node.
pub(crate) fn put_status(writer: &mut Writer, view: &AdminView) -> Result<(), AllocError>
    ensures { Adds result writer.old writer.new (status_tokens view.now) }
{
    writer.begin_object()?;
    put_active(writer, &view.active)?;
    put_nodes(writer, view.primary_held(), &view.nodes)?;
    writer.end_object()
}

// Writes the member with the active ballot, or with `null`.
fn put_active(writer: &mut Writer, active: &Option<ActiveBallot>) -> Result<(), AllocError>
    ensures { Adds result writer.old writer.new (active_member active.now) }
{
    writer.key("active")?;
    match active {
        Some(ballot) => put_ballot(writer, ballot),
        None => writer.null(),
    }
}

// Writes a ballot.
fn put_ballot(writer: &mut Writer, ballot: &ActiveBallot) -> Result<(), AllocError>
    ensures { Adds result writer.old writer.new (ballot_tokens (Some ballot.now)) }
{
    writer.begin_object()?;
    put_number(writer, "ballot", ballot.number)?;
    put_numbers(writer, "members", &ballot.members)?;
    put_small(writer, "primary", ballot.primary)?;
    writer.end_object()
}

// Writes a member with a list of numbers.
fn put_numbers(writer: &mut Writer, name: &str, numbers: &[u8]) -> Result<(), AllocError>
    ensures { Adds result writer.old writer.new (numbers_member name.now numbers.now) }
{
    writer.key(name)?;
    writer.begin_array()?;
    put_each(writer, numbers)?;
    writer.end_array()
}

// Writes numbers.
fn put_each(writer: &mut Writer, numbers: &[u8]) -> Result<(), AllocError>
    ensures { Adds result writer.old writer.new
        (flat_map (λ n. number (decimal n) ∷ []) numbers.now) }
{
    for number in numbers {
        writer.u64(u64::from(*number))?;
    }
    Ok(())
}

// Writes the member with all nodes, beside a primary that holds so many commands.
fn put_nodes(
    writer: &mut Writer,
    primary: Option<u64>,
    nodes: &[NodeLine],
) -> Result<(), AllocError>
    ensures { Adds result writer.old writer.new (nodes_member primary nodes.now) }
{
    writer.key("nodes")?;
    writer.begin_array()?;
    put_all(writer, primary, nodes)?;
    writer.end_array()
}

// Writes nodes, beside a primary that holds so many commands.
fn put_all(writer: &mut Writer, primary: Option<u64>, nodes: &[NodeLine]) -> Result<(), AllocError>
    ensures { Adds result writer.old writer.new (flat_map (node_tokens primary) nodes.now) }
{
    for node in nodes {
        put_node(writer, primary, node)?;
    }
    Ok(())
}

// Writes a node, beside a primary that holds so many commands.
fn put_node(writer: &mut Writer, primary: Option<u64>, node: &NodeLine) -> Result<(), AllocError>
    ensures { Adds result writer.old writer.new (node_tokens primary node.now) }
{
    writer.begin_object()?;
    put_small(writer, "node", node.number)?;
    put_number(writer, "ballot", node.ballot)?;
    put_text(writer, "role", node.role.text())?;
    put_flag(writer, "member", node.is_member)?;
    put_number(writer, "held", node.held)?;
    put_number(writer, "committed", node.committed)?;
    put_option(writer, "lag", lag_of(primary, node.held))?;
    writer.end_object()
}

// Returns by how many commands a node is behind the primary, if there is one.
fn lag_of(primary: Option<u64>, held: u64) -> Option<u64>
    ensures { result ≡ lag_of primary held }
{
    match primary {
        Some(primary) => Some(primary.saturating_sub(held)),
        None => None,
    }
}
