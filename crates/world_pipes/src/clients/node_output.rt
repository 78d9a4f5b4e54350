// A node's pending output goes into the pipe of its connection.

ghost use Rattle.std.specs.Prelude.{◌≡◌, ◌<◌, length};
ghost use Rattle.world_pipes.specs.clients.NodesGoOn.{NodesGoOn};
ghost use Rattle.world_pipes.specs.clients.SlotsAreValid.{connection_targets};
ghost use Rattle.world_pipes.specs.clients.NodeOutput.{BytesDownOrLost, MayHandDown, MayPutDown, PipeBytesDownOrLost, StaysQuiet, tells_open};

use crate::PipedClient;
use master::Idle;
use std::alloc::Global;
use world_base::node_connections::{Handed, Port};
use world_nodes::Nodes;

/// Moves the pending output of a node's port into the pipe of its connection. Returns true if the
/// node's end is open.
pub fn hand_down(
    alloc: Global,
    nodes: &mut Nodes,
    piped: &mut PipedClient,
    at: usize,
    node: u8,
    port: Port,
) -> bool
    requires { at < length piped.old.pairs }
    ensures nodes { NodesGoOn nodes.old nodes.new }
    ensures quiet { StaysQuiet node nodes.old nodes.new }
    ensures may { MayPutDown at node port nodes.old piped.old nodes.new piped.new }
    ensures puts { PipeBytesDownOrLost at node port nodes.old piped.old nodes.new piped.new result }
    ensures leads { connection_targets piped.new.pairs
        ≡ connection_targets piped.old.pairs }
{
    let mut bytes = Vec::new(alloc);
    piped.swap_down(at, &mut bytes);
    let is_open = hand_over(nodes, node, port, &mut bytes);
    piped.swap_down(at, &mut bytes);
    is_open
}

// Moves the pending output of a node's port to `bytes`. Returns true if the node's end is open.
fn hand_over(nodes: &mut Nodes, node: u8, port: Port, bytes: &mut Vec<u8>) -> bool
    ensures nodes { NodesGoOn nodes.old nodes.new }
    ensures quiet { StaysQuiet node nodes.old nodes.new }
    ensures may { MayHandDown node port nodes.old bytes.old.items nodes.new bytes.new.items }
    ensures hands { BytesDownOrLost node port nodes.old bytes.old.items
        nodes.new bytes.new.items result }
{
    tells_open(nodes.hand_over(node, port, bytes))
}

// Returns true if the answer of a node means that its end is open.
fn tells_open(answer: Result<Handed, Idle>) -> bool
    ensures { result ≡ tells_open answer }
{
    match answer {
        Ok(Handed::Open) => true,
        Ok(Handed::Closed) | Err(Idle) => false,
    }
}
