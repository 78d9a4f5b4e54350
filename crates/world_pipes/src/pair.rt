// Both pipes of one connection.

ghost use Rattle.std.specs.Prelude.{◌≡◌};
ghost use Rattle.world_pipes.specs.Piped.{new_pair};

use crate::bytes_in_transit::BytesInTransit;
use std::alloc::Global;
use world_base::node_connections::Port;

/// Both pipes of one connection, and where it leads.
#[derive(Drop)]
pub struct PipePair {
    /// The index of its node, from 0.
    pub node: usize,
    /// The port by which the node knows it.
    pub port: Port,
    /// Bytes from the client that have not reached the node.
    pub up: BytesInTransit,
    /// Bytes from the node that have not reached the client.
    pub down: BytesInTransit,
}

impl PipePair {
    /// Returns the pipes of a new connection, with nothing in transit.
    pub fn new(alloc: Global, node: usize, port: Port) -> PipePair
        ensures { result ≡ new_pair node port }
    {
        PipePair {
            node,
            port,
            up: BytesInTransit::new(alloc),
            down: BytesInTransit::new(alloc),
        }
    }
}
