// The sleep of a node's own thread.

use std::sync::{Mutex, Wait};
use std::thread::Parker;
use std::time::Duration;

/// Lets one thread sleep, and wakes it, which costs a wake-up only if it sleeps. No wake-up is
/// lost: the thread calls `doze`, looks for work once more, and then sleeps; a giver queues first
/// and wakes then. Whether the thread sleeps is under a lock, so no call has a clause.
#[derive(Drop)]
pub struct Waker {
    // True while the thread sleeps or is about to.
    asleep: Mutex<bool>,
    parker: Parker,
}

impl Waker {
    /// Returns a waker whose thread is awake.
    pub fn new() -> Waker {
        Waker {
            asleep: Mutex::new(false),
            parker: Parker::new(),
        }
    }

    /// Wakes the thread, if it sleeps or is about to.
    pub fn wake<R: Wait>(&self, rt: &R) {
        let mut asleep = self.asleep.lock(rt);
        if *asleep {
            *asleep = false;
            self.parker.unpark();
        }
    }

    /// Returns true if the thread sleeps or is about to; it may have found work instead.
    pub fn is_asleep<R: Wait>(&self, rt: &R) -> bool {
        *self.asleep.lock(rt)
    }

    /// Notes that the thread is about to sleep. It has to look for work once more after this call.
    pub fn doze<R: Wait>(&self, rt: &R) {
        *self.asleep.lock(rt) = true;
    }

    /// Sleeps until the thread is woken, or until `time` has passed.
    pub fn sleep<R: Wait>(&self, rt: &R, time: Duration) {
        self.parker.park_timeout(rt, time);
        *self.asleep.lock(rt) = false;
    }
}
