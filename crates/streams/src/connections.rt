// The connections that a node serves.
//
// Whether the listener is closed is under a lock of its own. `Listener::close` says there that it
// is, before it ends the connections that are listed here, and a lane looks whether it is after it
// has listed a connection. So a connection that is listed while the listener closes is ended by one
// of the two. The lock of the table is held for one call each.

ghost use Rattle.std.specs.Prelude.{◌≡◌, ◌<◌, ◌≤◌, IfSome, map};
ghost use Rattle.std.specs.Arc.{arc_value};
ghost use Rattle.streams.specs.ListedConnections.{AddsBusy};

use crate::idle_lanes::IdleLanes;
use crate::limits::MAX_CONNECTIONS;
use crate::link::Link;
use crate::links::{Links, TakenIndex};
use run_history::RunNaming;
use std::alloc::{AllocError, Global};
use std::sync::{Arc, Mutex, Wait};

/// The connections that a node serves, each at an index of its own. They are under a lock, so no
/// clause of a call says what is listed, taken or freed (those of `Links` do), or that a connection
/// ends.
#[derive(Drop)]
pub struct Connections<H: RunNaming> {
    links: Mutex<Links<H>>,
}

impl<H: RunNaming> Connections<H> {
    /// Returns a table without connections. The only error is that memory ran out.
    pub fn new(alloc: Global) -> Result<Connections<H>, AllocError> {
        Ok(Connections {
            links: Mutex::new(Links::new(alloc)?),
        })
    }

    /// Ends all listed connections. They stay listed.
    pub(crate) fn shut_all<R: Wait>(&self, rt: &R) {
        self.links.lock(rt).shut_all();
    }

    /// Takes an index for a connection. Returns none if [`MAX_CONNECTIONS`] are taken.
    pub fn take_index<R: Wait>(&self, rt: &R) -> Option<TakenIndex>
        ensures { IfSome result (λ index. index < MAX_CONNECTIONS) }
    {
        self.links.lock(rt).take()
    }

    /// Lists a connection at the index that was taken for it. It ends when the listener is closed.
    pub fn list<R: Wait>(&self, rt: &R, link: Arc<Link<H>, Global>) {
        self.links.lock(rt).list(link);
    }

    /// Frees an index, and no longer lists the connection there.
    pub fn free<R: Wait>(&self, rt: &R, index: TakenIndex) {
        self.links.lock(rt).free(index);
    }

    /// Appends the listed connections, from index `first` on and then those before it, except those
    /// of idle lanes. Leaves out a connection for which memory runs out; no clause says which ones.
    pub fn add_busy<R: Wait>(
        &self,
        rt: &R,
        idle: IdleLanes,
        first: usize,
        busy: &mut Vec<Arc<Link<H>, Global>>,
    )
        ensures { AddsBusy idle MAX_CONNECTIONS
            (map arc_value busy.old.items) (map arc_value busy.new.items) }
    {
        let first = first.min(usize::from(MAX_CONNECTIONS));
        let _ = self.links.lock(rt).add_busy(idle, first, busy);
    }

    /// Returns the first connection that is listed at this index or after it, and the index after
    /// that. Returns none also if `Arc::try_clone` fails for that connection.
    pub fn link_from<R: Wait>(&self, rt: &R, first: usize) -> Option<(usize, Arc<Link<H>, Global>)>
        ensures from { IfSome result (λ found. first < found.0) }
        ensures within { IfSome result (λ found. found.0 ≤ MAX_CONNECTIONS) }
    {
        let links = self.links.lock(rt);
        let (index, link) = links.first_from(first)?;
        Some((index + 1, Arc::try_clone(link).ok()?))
    }
}
