// Why a node's program ends.

ghost use Rattle.std.specs.Prelude.{◌≡◌};
ghost use Rattle.cluster.specs.master.Errors.{exit_status};
ghost use Rattle.cluster_node.specs.Errors.{node_status};

use cluster::master::MasterError;
use machine::Memory;
use server::ServeError;
use std::alloc::{AllocError, AllocFailed};
use thiserror::Error;

/// Why a node's program ends. Its text is for the user.
#[derive(Debug, Drop, Error)]
pub enum NodeError {
    /// It cannot begin, for a reason that a master may have, too.
    #[error("{0}")]
    Opening(MasterError),
    /// The table has no such row.
    #[error("the table has no row {0}")]
    Row(u32),
    /// The node cannot be served.
    #[error("{0}")]
    Serving(ServeError),
    /// In a minute's looks neither another node nor the master could be reached.
    #[error("for a minute neither another node nor the master could be reached")]
    Lonely,
}

impl NodeError {
    /// Returns the exit status: 3 for a row that is not there, and 1 for the rest, but what a
    /// master may have, too, has the status that it has there.
    pub fn status(&self) -> u8
        ensures { result ≡ node_status self.now }
    {
        match self {
            NodeError::Opening(error) => error.status(),
            NodeError::Row(_) => 3,
            NodeError::Serving(_) | NodeError::Lonely => 1,
        }
    }
}

impl From<MasterError> for NodeError {
    fn from(error: MasterError) -> NodeError {
        NodeError::Opening(error)
    }
}

impl From<Memory> for NodeError {
    fn from(_error: Memory) -> NodeError {
        NodeError::Opening(MasterError::Memory)
    }
}

impl From<AllocError> for NodeError {
    fn from(_error: AllocError) -> NodeError {
        NodeError::Opening(MasterError::Memory)
    }
}

impl<T: Drop> From<AllocFailed<T>> for NodeError {
    fn from(_error: AllocFailed<T>) -> NodeError {
        NodeError::Opening(MasterError::Memory)
    }
}

impl From<ServeError> for NodeError {
    fn from(error: ServeError) -> NodeError {
        NodeError::Serving(error)
    }
}
