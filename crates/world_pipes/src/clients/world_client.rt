// A client of a world.

ghost use Rattle.std.specs.Prelude.{◌≡◌, map, IfOk};
ghost use Rattle.headline.specs.byte_world.World.{new_client};
ghost use Rattle.world_pipes.specs.StandsFor.{ClientStandsFor};
ghost use Rattle.world_pipes.specs.clients.Clients.{ClientsStand, identifiers, is_named, new_world_client};

use crate::PipedClient;
use machine::Memory;
use packet_base::ClientId;
use std::alloc::Global;

/// A client of a world, with its identifier.
#[derive(Drop)]
pub struct WorldClient {
    /// The identifier.
    pub name: ClientId,
    /// The client, with all its connections.
    pub piped: PipedClient,
}

impl WorldClient {
    /// Returns true if it has this identifier.
    pub fn is_named(&self, name: &ClientId) -> bool
        ensures { result ≡ is_named name.now self.now }
    {
        self.name == *name
    }
}

/// Returns clients that were never connected.
pub fn new_clients(alloc: Global, clients: &[ClientId]) -> Result<Vec<WorldClient>, Memory>
    ensures stand { IfOk result (λ made. ClientsStand made.items (map new_client clients.now)) }
    ensures named { IfOk result (λ made. identifiers made.items ≡ clients.now) }
    ensures new { IfOk result (λ made. made.items ≡ map new_world_client clients.now) }
{
    let mut made = Vec::new(alloc);
    for client in clients {
        made.push(new_one(alloc, client)?)?;
    }
    Ok(made)
}

fn new_one(alloc: Global, client: &ClientId) -> Result<WorldClient, Memory>
    ensures stands { IfOk result (λ made. ClientStandsFor made.piped (new_client client.now)) }
    ensures named { IfOk result (λ made. made.name ≡ client.now) }
    ensures new { IfOk result (λ made. made ≡ new_world_client client.now) }
{
    let piped = PipedClient::new(alloc, client.clone()?);
    Ok(WorldClient {
        name: client.clone()?,
        piped,
    })
}
