// A connection of a world, by its client and its node.

/// Where a connection of a world is found, and whether its node still has it open.
#[derive(Clone, Copy, Debug, PartialEq, Eq)]
pub struct ConnectionSlot {
    /// The index of its client.
    pub client: usize,
    /// Its index among the connections of the client, oldest first.
    pub at: usize,
    /// The number of its node.
    pub node: u8,
    /// True while its end at the node is open.
    pub is_open: bool,
}
