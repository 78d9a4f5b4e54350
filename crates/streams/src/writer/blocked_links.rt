// The connections of a node whose sockets were full.

use crate::{BlockedLink, MAX_CONNECTIONS};
use run_history::RunNaming;
use std::alloc::{AllocError, Global};
use std::sync::Mutex;
use std::thread::Parker;

/// The connections of a node whose sockets were full, each with its token. They are under a lock:
/// no clause of a call says which there are.
#[derive(Drop)]
pub struct BlockedLinks<H: RunNaming> {
    /// Has capacity for all connections that a node serves.
    pub(crate) links: Mutex<Vec<BlockedLink<H>>>,
    /// The blocked writer sleeps on this.
    pub(crate) waker: Parker,
}

impl<H: RunNaming> BlockedLinks<H> {
    /// Returns an empty list, with capacity for all connections that a node serves. The only error
    /// is that memory ran out.
    pub fn new(alloc: Global) -> Result<BlockedLinks<H>, AllocError> {
        Ok(BlockedLinks {
            links: Mutex::new(empty_list(alloc)?),
            waker: Parker::new(),
        })
    }
}

/// Returns an empty list with capacity for all connections that a node serves. The only error is
/// that memory ran out.
pub(crate) fn empty_list<H: RunNaming>(alloc: Global) -> Result<Vec<BlockedLink<H>>, AllocError> {
    Vec::with_capacity(alloc, usize::from(MAX_CONNECTIONS))
}
