// A queue by rows: what becomes of each message, and what waits and was dropped behind it.

use ballot_base::{Body, Log, Message};
use links::link_queue::{Fate, LinkQueue, LogName, MAX_BYTES, MAX_WAITING};
use std::alloc::Global;

// The kinds of the messages below.
#[derive(Clone, Copy, Debug, PartialEq, Eq)]
enum Kind {
    Append,
    Held,
    Commit,
    State,
    Install,
}

// A message of a ballot with a number, its fate, how many wait then, and how many were dropped.
const QUEUED: &[(Kind, u64, u64, Fate, usize, u64)] = &[
    (Kind::Held, 2, 5, Fate::Queued, 1, 0),
    (Kind::Held, 2, 6, Fate::Queued, 1, 0),
    (Kind::Held, 2, 4, Fate::Queued, 2, 0),
    (Kind::Held, 3, 9, Fate::Queued, 3, 0),
    (Kind::Commit, 3, 9, Fate::Queued, 4, 0),
    (Kind::Commit, 3, 9, Fate::Queued, 4, 0),
    (Kind::Append, 3, 1, Fate::Queued, 5, 0),
    (Kind::Commit, 3, 10, Fate::Queued, 6, 0),
    (Kind::State, 3, 0, Fate::Queued, 7, 0),
    (Kind::State, 3, 0, Fate::Repeated, 7, 1),
    (Kind::State, 4, 0, Fate::Queued, 8, 1),
    (Kind::Install, 3, 0, Fate::Queued, 9, 1),
];

// What waits in the end: kinds and ballots.
const IN_ORDER: &[(Kind, u64)] = &[
    (Kind::Held, 2),
    (Kind::Held, 2),
    (Kind::Held, 3),
    (Kind::Commit, 3),
    (Kind::Append, 3),
    (Kind::Commit, 3),
    (Kind::State, 3),
    (Kind::State, 4),
    (Kind::Install, 3),
];

fn message(alloc: Global, kind: Kind, ballot: u64, number: u64) -> Message<u8> {
    let body = match kind {
        Kind::Append => Body::Append(ballot, number, 7),
        Kind::Held => Body::Held(ballot, number),
        Kind::Commit => Body::Commit(ballot, number),
        Kind::State => Body::State(ballot, Log::new(alloc)),
        Kind::Install => Body::Install(ballot, Log::new(alloc)),
    };
    Message { from: 3, body }
}

fn is_of(message: &Message<u8>, kind: Kind, ballot: u64) -> bool {
    match &message.body {
        Body::Append(own, _, _) => kind == Kind::Append && *own == ballot,
        Body::Held(own, _) => kind == Kind::Held && *own == ballot,
        Body::Commit(own, _) => kind == Kind::Commit && *own == ballot,
        Body::State(own, _) => kind == Kind::State && *own == ballot,
        Body::Install(own, _) => kind == Kind::Install && *own == ballot,
        _ => false,
    }
}

#[test]
fn messages_are_queued_replaced_and_dropped(rt: HostRuntime) {
    let mut queue = LinkQueue::new(rt.alloc());
    for (kind, ballot, number, fate, waiting, dropped) in QUEUED {
        let added = message(rt.alloc(), *kind, *ballot, *number);
        assert!(rt; queue.queue(added, 1) == *fate);
        assert!(rt; (queue.len(), queue.bytes()) == (*waiting, *waiting));
        assert!(rt; queue.dropped() == *dropped);
    }
    let waiting = queue.take(rt.alloc());
    assert!(rt; waiting.len() == IN_ORDER.len());
    for (each, (kind, ballot)) in waiting.iter().zip(IN_ORDER) {
        assert!(rt; is_of(&each.message, *kind, *ballot));
    }
}

// What happens to a log that was taken, and its fate when it is queued then.
#[test]
fn a_log_in_transit_is_dropped(rt: HostRuntime) {
    let mut queue = LinkQueue::new(rt.alloc());
    let state = || message(rt.alloc(), Kind::State, 3, 0);
    assert!(rt; queue.queue(state(), 1) == Fate::Queued);
    queue.sent(LogName::State(3));
    assert!(rt; queue.queue(state(), 1) == Fate::Repeated);
    drop(queue.take(rt.alloc()));
    assert!(rt; queue.queue(state(), 1) == Fate::Repeated);
    queue.sent(LogName::Install(3));
    assert!(rt; queue.queue(state(), 1) == Fate::Repeated);
    queue.sent(LogName::State(3));
    assert!(rt; queue.queue(state(), 1) == Fate::Queued);
    drop(queue.take(rt.alloc()));
    queue.forget();
    assert!(rt; queue.queue(state(), 1) == Fate::Queued);
    queue.clear();
    assert!(rt; queue.queue(state(), 1) == Fate::Queued);
}

#[test]
fn bounds_are_kept(rt: HostRuntime) {
    let mut queue = LinkQueue::new(rt.alloc());
    let append = || message(rt.alloc(), Kind::Append, 3, 1);
    assert!(rt; queue.queue(append(), MAX_BYTES + 1) == Fate::Full);
    assert!(rt; queue.queue(append(), MAX_BYTES) == Fate::Queued);
    assert!(rt; queue.queue(append(), 1) == Fate::Full);
    for _ in 1..MAX_WAITING {
        assert!(rt; queue.queue(append(), 0) == Fate::Queued);
    }
    assert!(rt; queue.queue(append(), 0) == Fate::Full);
    assert!(rt; (queue.len(), queue.bytes()) == (524_288, 134_217_728));
    assert!(rt; queue.dropped() == 3);
}
