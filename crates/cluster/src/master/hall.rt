// What the threads of a master share.
//
// Each lock is held for one call, and none while a thread reads or writes a socket or takes another
// lock; the desk's is held while its state is written to the disk. `closing` is set once. A thread
// looks at it at least each fifth of a second, unless a handshake, which ends within three seconds,
// or a write, which ends within five, holds it up.

use crate::desk::{Desk, Keeper};
use crate::master::roster::Roster;
use link_threads::{Guests, LinkClock, Strangers};
use links::seal::CLUSTER_BYTES;
use std::alloc::Global;
use std::sync::Mutex;
use std::sync::atomic::{AtomicBool, Ordering};
use std::time::{Clock, Instant};

/// What the threads of a master share.
pub struct Hall<'a, K: Keeper> {
    /// The key that all nodes have.
    pub(crate) key: &'a [u8],
    /// The name of the cluster.
    pub(crate) cluster: [u8; CLUSTER_BYTES],
    /// The desk.
    pub(crate) desk: Mutex<Desk<K>>,
    /// The nodes.
    pub(crate) roster: Mutex<Roster>,
    /// Connections that wait for a thread.
    pub(crate) guests: Guests,
    /// Connections that are no links.
    pub(crate) strangers: Strangers,
    // The time since the master began.
    clock: LinkClock,
    // True once the master ends.
    closing: AtomicBool,
}

impl<'a, K: Keeper> Drop for Hall<'a, K> {
    fn drop(self) {
        let Hall {
            key: _,
            cluster: _,
            desk: _desk,
            roster: _roster,
            guests: _guests,
            strangers: _strangers,
            clock: _clock,
            closing: _closing,
        } = self;
    }
}

impl<'a, K: Keeper> Hall<'a, K> {
    /// Returns what is shared by the threads of a master with this key and this desk, which begins
    /// now.
    pub fn new(alloc: Global, key: &'a [u8], desk: Desk<K>, now: Instant) -> Hall<'a, K> {
        Hall {
            key,
            cluster: desk.state().cluster,
            desk: Mutex::new(desk),
            roster: Mutex::new(Roster::new(alloc)),
            guests: Guests::new(alloc),
            strangers: Strangers::new(),
            clock: LinkClock::new(now),
            closing: AtomicBool::new(false),
        }
    }

    /// Returns the time in milliseconds since the master began.
    pub(crate) fn now<R: Clock>(&self, rt: &R) -> u64 {
        self.clock.now(rt)
    }

    /// Ends the master's threads.
    pub(crate) fn close(&self) {
        self.closing.store(true, Ordering::SeqCst);
    }

    /// Returns true once the master ends.
    pub(crate) fn is_closing(&self) -> bool {
        self.closing.load(Ordering::SeqCst)
    }
}
