// What a command line asks for.

/// The job that a command line asks for: a subcommand with its values. The texts are the user's
/// words.
#[derive(Debug, Drop)]
pub enum Job<'a> {
    /// Runs a node of a cluster.
    Node(RunNode<'a>),
    /// Runs the master of a cluster.
    Master(RunMaster<'a>),
    /// Makes a key.
    Key(MakeKey<'a>),
}

/// The words of `node`.
#[derive(Debug, Drop)]
pub struct RunNode<'a> {
    /// The file with the table of the cluster.
    pub config: &'a str,
    /// The row of the table, counted from 1.
    pub row: u32,
}

/// The words of `master`.
#[derive(Debug, Drop)]
pub struct RunMaster<'a> {
    /// The file with the table of the cluster.
    pub config: &'a str,
}

/// The words of `key`.
#[derive(Debug, Drop)]
pub struct MakeKey<'a> {
    /// The file that gets the key.
    pub file: &'a str,
}
