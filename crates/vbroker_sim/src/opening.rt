// The worlds in which runs begin.

use ballot_base::Members;
use packet_base::ClientId;
use std::alloc::{AllocError, Global};
use world::World;

/// The identifiers of the clients of a run.
const NAMES: [&str; 8] = ["a", "b", "c", "d", "e", "f", "g", "h"];

/// A world in which a run begins: how many nodes it has, how many of them are members of ballot 1
/// (node 1 is its primary), and its clients.
#[derive(Drop)]
pub struct Opening {
    /// How many nodes it has.
    pub nodes: u8,
    /// How many of them are members of ballot 1.
    pub members: u8,
    /// Its clients.
    pub clients: Vec<ClientId>,
}

impl Opening {
    /// Returns the world of a seed: one to seven nodes, how many of them are members, and at most
    /// eight clients. None if it ran out of memory.
    pub fn new(alloc: Global, seed: u64, nodes: u8, count: u8) -> Option<Opening> {
        let mut clients = Vec::new(alloc);
        put_all(alloc, count, &mut clients)?;
        let nodes = nodes.clamp(1, 7);
        let members = (seed % u64::from(nodes)) as u8 + 1;
        Some(Opening {
            nodes,
            members,
            clients,
        })
    }

    /// Opens the world. None if it ran out of memory.
    pub fn open(&self, alloc: Global) -> Option<World> {
        let mut members = Vec::new(alloc);
        for node in 1..=self.members {
            members.push(node).ok()?;
        }
        let members = Members::from_slice(alloc, members.as_slice()).ok()?;
        World::opening(alloc, self.nodes, members, 1, self.clients.as_slice()).ok()
    }

    /// Returns the first line of a script of this world. Errors: out of memory.
    pub fn line(&self, alloc: Global) -> Result<String, AllocError> {
        let nodes = self.nodes;
        let mut line = format!(in alloc; "world {nodes} 1")?;
        for node in 2..=self.members {
            line.push_str(format!(in alloc; ",{node}")?.as_str())?;
        }
        let mut mark = " 1 ";
        for client in self.clients.as_slice() {
            line.push_str(mark)?;
            line.push_str(client.as_str())?;
            mark = ",";
        }
        Ok(line)
    }
}

// Adds this many clients. The list is lent, so that no exit from the loop has to drop it.
fn put_all(alloc: Global, count: u8, clients: &mut Vec<ClientId>) -> Option<()> {
    for name in NAMES.iter().take(count as usize) {
        clients.push(ClientId::new(alloc, name).ok()?).ok()?;
    }
    Some(())
}
