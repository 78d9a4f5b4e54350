// Opening a connection of a client to a node.

ghost use Rattle.std.specs.Prelude.{◌≡◌, ◌<◌, if◌then◌else◌, false};
ghost use Rattle.world_pipes.specs.Piped.{is_holding, taken_back};
ghost use Rattle.world_pipes.specs.clients.NodesGoOn.{NodesGoOn};
ghost use Rattle.world_pipes.specs.clients.SlotsAreValid.{connection_targets};
ghost use Rattle.world_pipes.specs.clients.Opening.{HearsOfOne, Reaches};

use crate::PipedClient;
use world_base::node_connections::Port;
use world_nodes::Nodes;

/// Opens a connection to a node, for a client that holds none, and reports it to the node. Returns
/// true if the client then has one.
pub fn open_pipe(nodes: &mut Nodes, piped: &mut PipedClient, node: u8, port: Port) -> bool
    requires node { 0 < node }
    requires free { is_holding piped.old ≡ false }
    ensures nodes { NodesGoOn nodes.old nodes.new }
    ensures reaches { Reaches result node port nodes.old piped.old nodes.new piped.new }
    ensures leads { result ≡ false → connection_targets piped.new.pairs
        ≡ connection_targets piped.old.pairs }
{
    match piped.open(node as usize - 1, port) {
        Ok(()) => keep_if_taken(nodes, piped, node, port),
        Err(_) => false,
    }
}

// Reports a client's new connection to a node, and removes it again if the node does not accept it.
// Returns true if it does.
fn keep_if_taken(nodes: &mut Nodes, piped: &mut PipedClient, node: u8, port: Port) -> bool
    ensures nodes { NodesGoOn nodes.old nodes.new }
    ensures takes { HearsOfOne result node port nodes.old nodes.new }
    ensures piped { piped.new ≡ (if result then piped.old else taken_back piped.old) }
{
    let taken = report_opened(nodes, node, port);
    if !taken {
        piped.take_back();
    }
    taken
}

// Reports a new connection to a node. Returns true if the node accepts it.
fn report_opened(nodes: &mut Nodes, node: u8, port: Port) -> bool
    ensures nodes { NodesGoOn nodes.old nodes.new }
    ensures takes { HearsOfOne result node port nodes.old nodes.new }
{
    if nodes.open_stream(node, port, 0).is_err() {
        return false;
    }
    match nodes.node(node) {
        Some(core) => core.has_port(port),
        None => false,
    }
}
