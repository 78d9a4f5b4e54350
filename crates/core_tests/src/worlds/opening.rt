// Worlds that open, and names in them.

use ballot_base::{Config, Members};
use machine::Memory;
use packet_base::ClientId;
use std::alloc::Global;
use world::World;

/// Returns a world of `nodes` nodes and clients `a` and `b`. These are the members of ballot 1, and
/// node 1 is its primary.
pub fn opened(alloc: Global, nodes: u8, members: &[u8]) -> Option<World> {
    opened_for(alloc, nodes, members, &["a", "b"])
}

/// Returns the same with clients of these names.
pub fn opened_for(alloc: Global, nodes: u8, members: &[u8], names: &[&str]) -> Option<World> {
    let mut clients = Vec::new(alloc);
    put_clients(alloc, names, &mut clients)?;
    let Config { members, primary } = config_of(alloc, members, 1)?;
    World::opening(alloc, nodes, members, primary, clients.as_slice()).ok()
}

// Adds clients of these names. The list is lent, so that no exit from the loop has to drop it.
fn put_clients(alloc: Global, names: &[&str], clients: &mut Vec<ClientId>) -> Option<()> {
    for name in names {
        clients.push(named(alloc, name)?).ok()?;
    }
    Some(())
}

/// Returns a configuration.
pub fn config_of(alloc: Global, members: &[u8], primary: u8) -> Option<Config> {
    let members: Result<Members, Memory> = Members::from_slice(alloc, members);
    Some(Config {
        members: members.ok()?,
        primary,
    })
}

/// Returns a client's name.
pub fn named(alloc: Global, client: &str) -> Option<ClientId> {
    ClientId::new(alloc, client).ok()
}
