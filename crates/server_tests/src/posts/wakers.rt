// Whether a thread counts as asleep, after each call of its waker. No clause of `outbox` says it.

use post::outbox::Waker;
use std::time::Duration;

#[test]
fn a_thread_counts_as_awake_at_first(rt: HostRuntime) {
    let waker = Waker::new();
    assert_eq!(rt; waker.is_asleep(&rt), false);
}

#[test]
fn a_thread_about_to_sleep_counts_as_asleep(rt: HostRuntime) {
    let waker = Waker::new();
    waker.doze(&rt);
    assert_eq!(rt; waker.is_asleep(&rt), true);
}

#[test]
fn a_thread_that_was_woken_counts_as_awake(rt: HostRuntime) {
    let waker = Waker::new();
    waker.doze(&rt);
    waker.wake(&rt);
    assert_eq!(rt; waker.is_asleep(&rt), false);
}

// The sleep takes no time, and nobody wakes the thread.
#[test]
fn a_thread_that_slept_counts_as_awake(rt: HostRuntime) {
    let waker = Waker::new();
    waker.doze(&rt);
    waker.sleep(&rt, Duration::from_millis(0));
    assert_eq!(rt; waker.is_asleep(&rt), false);
}
