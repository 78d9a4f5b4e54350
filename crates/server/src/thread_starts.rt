// Whether a program can start as many threads as its nodes need.

use crate::node_threads::THREADS;
use crate::serve_error::ServeError;
use std::sync::{Mutex, Wait};
use std::thread;
use std::thread::Threads;
use std::time::{Clock, Duration, Instant};

/// How long a thread sleeps before it looks again whether all have started, in milliseconds.
const START_LOOK_MILLIS: u64 = 1;

/// Returns the zero of the nodes' clocks, if the threads of so many nodes can be started. Fails with
/// `Threads` if they cannot, or else with `Clock` if the clock cannot be read.
pub(crate) fn begin<R: Threads + Wait + Clock + Sync>(
    rt: &R,
    nodes: usize,
) -> Result<Instant, ServeError> {
    if !can_start(rt, nodes.saturating_mul(THREADS)) {
        return Err(ServeError::Threads);
    }
    Instant::now(rt).map_err(|_| ServeError::Clock)
}

// Returns true if `count` threads can run at the same time: starts them, lets them wait for each
// other, and ends them.
fn can_start<R: Threads + Wait + Clock + Sync>(rt: &R, count: usize) -> bool {
    let are_started = Mutex::new(false);
    start_waiting(rt, count, &are_started)
}

// Starts `count` threads, none of which ends before all have started. Returns true if all started.
fn start_waiting<R: Threads + Wait + Clock + Sync>(
    rt: &R,
    count: usize,
    are_started: &Mutex<bool>,
) -> bool {
    thread::scope(thread::scope_env(), rt, |scope| {
        let mut all = true;
        for _ in 0..count {
            if scope.spawn(move || await_all(rt, are_started)).is_err() {
                all = false;
            }
        }
        let_end(rt, are_started);
        all
    })
}

// Waits until all threads have started.
fn await_all<R: Wait + Clock>(rt: &R, are_started: &Mutex<bool>) {
    for _ in rt.forever() {
        if *are_started.lock(rt) {
            return;
        }
        thread::sleep(rt, Duration::from_millis(START_LOOK_MILLIS));
    }
}

fn let_end<R: Wait>(rt: &R, are_started: &Mutex<bool>) {
    *are_started.lock(rt) = true;
}
