// The table of nodes.

use ballot_base::Config;

/// The nodes of a program, and the members of ballot 1 among them.
#[derive(Drop)]
pub struct NodeTable {
    /// The configuration of ballot 1. It is lawful, and its members are among the nodes.
    pub config: Config,
    /// The nodes, in the order of the table. Their numbers are from 1 to `MAX_NODE`, and differ.
    pub nodes: Vec<ListeningNode>,
}

/// A node, and where it listens.
#[derive(Drop)]
pub struct ListeningNode {
    /// Its number, 1 to `MAX_NODE`.
    pub id: u8,
    /// The address and the port, as `127.0.0.1:1883`; they are not checked here.
    pub listen: String,
}
