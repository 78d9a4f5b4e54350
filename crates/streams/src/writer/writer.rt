// Writing to the connections of a node.
//
// A thread first asks the node which lanes are idle, then the table for the other connections, and
// then writes to each: one lock after another, and none while it writes or sleeps. The node is
// locked only to ask for idle lanes, and to hand over the bytes of one port, which swaps two lists.
// So a slow client delays neither the node nor other writers; it delays the thread that writes to
// it by a millisecond, and then its bytes are left to the blocked writer. The connection whose
// bytes were just taken is written first: a write to another one would wake the reader of that one
// first.

ghost use Rattle.std.specs.Prelude.{◌≡◌, []};

use crate::writer::blocked_links::BlockedLinks;
use crate::{Connections, IdleLanes, Link, Listener, MAX_CONNECTIONS};
use node::{HasState, Node, NodeNaming};
use node_base::devices::Gate;
use run_history::RunNaming;
use std::alloc::Global;
use std::sync::{Arc, Wait};

/// Before a lock is taken, a list of this many connections is allocated. If there are more to write
/// to, it grows under the lock of the connections.
const BUSY_CAPACITY: usize = 8;

/// The lowest index of a connection: where [`Writer::write_busy`] begins if none is to come first.
pub const FIRST_INDEX: usize = 0;

/// Writes to the connections of a node. It holds no lock while it writes or sleeps. No clause says
/// so, or which connections a call writes to.
#[derive(Drop)]
pub struct Writer<'e, 'a, H: RunNaming, J: NodeNaming, S: HasState<H, J>, G: Gate> {
    /// Where lists are allocated.
    pub alloc: Global,
    /// The node, which queues bytes for its connections.
    pub node: &'e Node<'a, H, J, S, G>,
    /// The listener of the node.
    pub listener: &'e Listener,
    /// The connections of the node.
    pub connections: &'e Connections<H>,
    /// The connections whose sockets were full.
    pub blocked: &'e BlockedLinks<H>,
}

impl<'e, 'a, H: RunNaming, J: NodeNaming, S: HasState<H, J>, G: Gate> Writer<'e, 'a, H, J, S, G> {
    /// Writes what the node queued for its connections, to the one at index `first` before the
    /// others. `waits` is true if it may wait for a full socket, for a millisecond each.
    pub fn write_busy<R: Wait>(&self, rt: &R, first: usize, waits: bool) {
        let busy = self.busy_links(rt, first);
        for link in &busy {
            self.flush(rt, link, waits);
        }
    }

    // Returns the connections for which something may have been queued, the one at index `first`
    // before the others. If memory runs out, idle ones may be among them, or some may be missing.
    fn busy_links<R: Wait>(&self, rt: &R, first: usize) -> Vec<Arc<Link<H>, Global>> {
        let mut idle = list_with_capacity(self.alloc, usize::from(MAX_CONNECTIONS));
        let mut busy = list_with_capacity(self.alloc, BUSY_CAPACITY);
        let _ = self.node.lock(rt).state().idle_ports(&mut idle);
        self.connections
            .add_busy(rt, IdleLanes::of(&idle), first, &mut busy);
        busy
    }
}

// Returns a list with capacity for `count`, or without capacity if memory runs out.
fn list_with_capacity<T: Drop>(alloc: Global, count: usize) -> Vec<T>
    ensures { result.items ≡ [] }
{
    match Vec::with_capacity(alloc, count) {
        Ok(list) => list,
        Err(_) => Vec::new(alloc),
    }
}
