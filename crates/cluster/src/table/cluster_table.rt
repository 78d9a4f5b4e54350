// The table of a cluster.

/// The table of a cluster, the same on each of its machines. Addresses and paths are the user's
/// texts and are not checked here.
#[derive(Drop)]
pub struct ClusterTable {
    /// The file with the key that all nodes and the master have.
    pub key: String,
    /// The address of the master, as `10.0.0.9:1880`.
    pub master: String,
    /// The file in which the master keeps its state.
    pub state: String,
    /// The socket on which the master takes orders from its own host, as a path.
    pub orders: String,
    /// The machines, 1 to 15 of them, in the order of the table.
    pub nodes: Vec<NodeRow>,
}

/// A row for each machine.
#[derive(Drop)]
pub struct NodeRow {
    /// Where clients connect, as `10.0.0.1:1883`; another row has another one.
    pub listen: String,
    /// Where other nodes connect, as `10.0.0.1:1881`; another row has another one.
    pub link: String,
}
