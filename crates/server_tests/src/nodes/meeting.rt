// A gate at which two nodes wait for each other.

use node_base::devices::Gate;
use std::sync::{Mutex, Wait};
use std::thread;

// What was reported to a gate about a node: how many takings are done, how many times it was asked
// for the second one, and whether each call named the next taking.
#[derive(Clone, Copy)]
struct Heard {
    done: u64,
    asks: u64,
    is_there: bool,
    is_right: bool,
}

/// At this gate nodes 1 and 2 wait for each other before their first taking. Later it is open, or
/// stays shut.
#[derive(Drop)]
pub(super) struct Meeting {
    heard: Mutex<[Heard; 2]>,
    shut_after: u64,
}

impl Meeting {
    /// Returns a gate that shuts after this many takings of a node.
    pub(super) fn new(shut_after: u64) -> Meeting {
        let heard = Heard {
            done: 0,
            asks: 0,
            is_there: false,
            is_right: true,
        };
        Meeting {
            heard: Mutex::new([heard, heard]),
            shut_after,
        }
    }

    /// Returns true if each node took this many times, asked for its second taking as many times as
    /// it has to, and each taking was asked for and reported by its number.
    pub(super) fn heard_all<R: Wait>(&self, rt: &R, done: u64) -> bool {
        let asks = self.asks();
        self.heard.lock(rt).iter().all(|heard| heard.is_right
            && heard.done == done
            && heard.asks == asks)
    }

    // Holds a node inside until both are there, ten thousand turns at most, and returns true if they
    // are. A lock that the other node needs on its way would keep them apart.
    fn holds_until_both<R: Wait>(&self, rt: &R) -> bool {
        for _ in 0..10_000 {
            if self.heard.lock(rt).iter().all(|heard| heard.is_there) {
                return true;
            }
            thread::yield_now();
        }
        false
    }

    // Notes that a node that gave up is not there any more.
    fn leave<R: Wait>(&self, rt: &R, node: u8) {
        let mut heard = self.heard.lock(rt);
        if let Some(one) = heard.get_mut(usize::from(node).wrapping_sub(1)) {
            one.is_there = false;
        }
    }

    // Returns how many times a node asks for its second taking: once if the gate is open, since
    // both nodes are there by then, and else ten thousand times.
    fn asks(&self) -> u64 {
        if self.shut_after < 2 { 10_000 } else { 1 }
    }
}

// Notes that a node asks for a taking, or has done it.
fn note(all: &mut [Heard], node: u8, taking: u64, is_done: bool) {
    if let Some(heard) = all.get_mut(usize::from(node).wrapping_sub(1)) {
        heard.is_there = true;
        heard.is_right = heard.is_right && taking == heard.done.saturating_add(1);
        if is_done {
            heard.done = taking;
        } else if taking == 2 {
            heard.asks = heard.asks.saturating_add(1);
        }
    }
}

impl Gate for Meeting {
    // No clause is about what is under a lock.
    ghost answers = { λ _ _ _ _. Unit {0} };

    ghost hears = { λ _ _ _. Unit {0} };

    fn open<R: Wait>(&self, rt: &R, node: u8, taking: u64) -> bool {
        note(self.heard.lock(rt).as_mut_slice(), node, taking, false);
        if taking > self.shut_after {
            return false;
        }
        let are_both = self.holds_until_both(rt);
        if !are_both {
            self.leave(rt, node);
        }
        are_both
    }

    fn answered<R: Wait>(&self, rt: &R, node: u8, taking: u64) {
        note(self.heard.lock(rt).as_mut_slice(), node, taking, true);
    }
}
