// What the threads of a node's links share.
//
// Each lock is held for one call. Whether links end is kept by the desk. A thread looks at it at
// least each fifth of a second, unless a connection that is opened, which ends within a second, a
// handshake, which ends within three, or a write, which ends within five, holds it up.

use crate::cause::Cause;
use crate::far_end::FarEnd;
use crate::guests::Guests;
use crate::link_clock::LinkClock;
use crate::link_desk::LinkDesk;
use crate::seats::Seats;
use crate::strangers::{Stranger, Strangers};
use links::seal::CLUSTER_BYTES;
use machine::Memory;
use std::alloc::Global;
use std::net::SocketAddr;
use std::sync::atomic::{AtomicBool, Ordering};
use std::sync::{Mutex, Wait};
use std::time::{Clock, Instant};

/// What a node is to its cluster: the life that the master welcomed, and the row of its table.
#[derive(Clone, Copy)]
pub struct Life<'a> {
    /// The key that all nodes have.
    pub key: &'a [u8],
    /// The name of the cluster.
    pub cluster: [u8; CLUSTER_BYTES],
    /// The number that the master gave.
    pub number: u8,
    /// Its row, counted from 0.
    pub row: usize,
}

/// What the threads of a node's links share.
#[derive(Drop)]
pub struct LinkHall<'a> {
    pub(crate) life: Life<'a>,
    pub(crate) desk: &'a LinkDesk,
    /// Connections of other nodes that wait for a thread.
    pub(crate) guests: Guests,
    // Connections that are no links, and links that were given up.
    strangers: Strangers,
    ends: Strangers,
    /// The rows that dial this node.
    pub(crate) seats: Mutex<Seats>,
    // The time since the links began.
    clock: LinkClock,
    // True if something came over a link since the last look.
    heard: AtomicBool,
}

impl<'a> LinkHall<'a> {
    /// Returns what is shared by the links of a node in a table of this many rows, which begin now.
    pub fn new(
        alloc: Global,
        life: Life<'a>,
        rows: usize,
        desk: &'a LinkDesk,
        now: Instant,
    ) -> Result<LinkHall<'a>, Memory> {
        Ok(LinkHall {
            life,
            desk,
            guests: Guests::new(alloc),
            strangers: Strangers::new(),
            ends: Strangers::new(),
            seats: Mutex::new(Seats::new(alloc, life.row.saturating_add(1), rows)?),
            clock: LinkClock::new(now),
            heard: AtomicBool::new(false),
        })
    }

    /// Returns the time in milliseconds since the links began.
    pub(crate) fn now<R: Clock>(&self, rt: &R) -> u64 {
        self.clock.now(rt)
    }

    /// Notes that something came over a link.
    pub(crate) fn hears(&self) {
        self.heard.store(true, Ordering::SeqCst);
    }

    /// Returns true if something came over a link since the last look, which this is.
    pub(crate) fn take_heard(&self) -> bool {
        self.heard.swap(false, Ordering::SeqCst)
    }

    /// Names a stranger on standard error, if none was named for a minute.
    pub(crate) fn name<R: Wait + Clock + Eprint>(
        &self,
        rt: &R,
        address: SocketAddr,
        stranger: Stranger,
    ) {
        self.strangers.name(rt, self.now(rt), address, stranger);
    }

    /// Names on standard error why a link ends, if the connection is not the reason, and none was
    /// named for a minute.
    pub(crate) fn name_end<R: Wait + Clock + Eprint>(
        &self,
        rt: &R,
        far: FarEnd,
        number: u8,
        cause: Cause,
    ) {
        if cause != Cause::Over {
            self.ends.name_end(rt, self.now(rt), far, number, cause);
        }
    }

    /// Returns true if the other end of a link dialled again, so that this link has to end.
    pub(crate) fn is_left<R: Wait>(&self, rt: &R, far: FarEnd) -> bool {
        match far {
            FarEnd::Master => false,
            FarEnd::Row(row) => self.seats.lock(rt).is_left(row),
        }
    }

    /// Ends all links.
    pub fn close(&self) {
        self.desk.close();
    }

    /// Returns true once the links end.
    pub fn is_closing(&self) -> bool {
        self.desk.is_closing()
    }
}
