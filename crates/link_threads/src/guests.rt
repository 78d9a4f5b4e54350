// Connections that were accepted and wait for a thread.

use std::alloc::Global;
use std::collections::VecDeque;
use std::net::{SocketAddr, TcpStream};
use std::sync::{Condvar, Mutex, Wait};
use std::time::{Clock, Duration};

/// The most connections that wait for a thread.
const MAX_GUESTS: usize = 32;

/// A connection that was accepted.
#[derive(Drop)]
pub struct Guest {
    /// The connection.
    pub stream: TcpStream,
    /// The address from which it came.
    pub address: SocketAddr,
}

/// Connections that wait for a thread, the oldest first.
#[derive(Drop)]
pub struct Guests {
    waiting: Mutex<VecDeque<Guest>>,
    // Wakes a thread that waits for one.
    came: Condvar,
}

impl Guests {
    /// Returns none.
    pub fn new(alloc: Global) -> Guests {
        Guests {
            waiting: Mutex::new(VecDeque::new(alloc)),
            came: Condvar::new(),
        }
    }

    /// Lets a connection wait for a thread; ends it if too many wait, or memory runs out.
    pub fn admit<R: Wait>(&self, rt: &R, guest: Guest) {
        let mut waiting = self.waiting.lock(rt);
        if waiting.len() < MAX_GUESTS {
            let _ = waiting.push_back(guest);
        }
        drop(waiting);
        self.came.notify_one();
    }

    /// Returns the connection that waits longest. Returns none if none comes for this time, or for
    /// no reason.
    pub fn next<R: Wait + Clock>(&self, rt: &R, time: Duration) -> Option<Guest> {
        let mut waiting = self.waiting.lock(rt);
        if waiting.is_empty() {
            waiting = self.came.wait_timeout(rt, waiting, time).0;
        }
        waiting.pop_front()
    }
}
