// Two nodes of a cluster, which have no threads: what a node shows and takes in, what an order
// answers and queues, and which node is woken, and by what. No clause of `post` says it.

use super::acts::{Act, Came, Row, fault_of};
use ballot_base::{Role, Status};

// An active primary of five places, of which three are applied.
const PRIMARY: Status = Status {
    ballot: 1,
    role: Role::Active,
    held: 5,
    committed: 3,
    stopped: false,
};

// The active primary of ballot 1.
const FIRST: Status = Status {
    ballot: 1,
    role: Role::Active,
    held: 0,
    committed: 0,
    stopped: false,
};

// That of ballot 2.
const SECOND: Status = Status {
    ballot: 2,
    role: Role::Active,
    held: 0,
    committed: 0,
    stopped: false,
};

// A backup of ballot 1.
const BACKUP: Status = Status {
    ballot: 1,
    role: Role::Backup,
    held: 0,
    committed: 0,
    stopped: false,
};

// The primary of ballot 1 after its crash.
const STOPPED: Status = Status {
    ballot: 1,
    role: Role::Active,
    held: 0,
    committed: 0,
    stopped: true,
};

// What the rows show, which are played with a cluster of their own.
type Table = (&'static str, &'static [Row]);

const SHOWN: &[Table] = &[
    (
        "a node that is not served yet shows how it opens",
        &[
            (Act::Status(1), Came::Has(Some(FIRST))),
            (Act::Status(2), Came::Has(Some(BACKUP))),
            (Act::Status(3), Came::Has(None)),
        ],
    ),
    (
        "a node shows how much it applied",
        &[
            (Act::Show(1, PRIMARY), Came::Done),
            (Act::Status(1), Came::Has(Some(PRIMARY))),
        ],
    ),
    (
        "bytes that were taken are no longer in transit",
        &[(Act::Admit(1), Came::LetIn(10))],
    ),
];

#[test]
fn a_node_shows_what_it_applied_and_takes_in(rt: HostRuntime) {
    for (words, rows) in SHOWN {
        assert_eq!(rt; fault_of(&rt, rt.alloc(), rows), None, "{words}");
    }
}

// An order to crash waits for the node, which has no thread here: so the call gives the node its 40
// ms. An order to end a session waits for the primary alone.
const ORDERS: &[Table] = &[
    (
        "a node that runs is crashed once",
        &[
            (Act::Show(1, FIRST), Came::Done),
            (Act::Crash(1), Came::Says(true)),
            (Act::Crash(1), Came::Says(false)),
            (Act::Take(1), Came::Waited(1, 0, 0)),
        ],
    ),
    (
        "a node that stopped is not crashed",
        &[
            (Act::Show(1, STOPPED), Came::Done),
            (Act::Crash(1), Came::Says(false)),
            (Act::Crash(1), Came::Says(false)),
            (Act::Take(1), Came::Waited(0, 0, 0)),
        ],
    ),
    (
        "node 1 serves",
        &[
            (Act::Show(1, FIRST), Came::Done),
            (Act::Show(2, BACKUP), Came::Done),
            (Act::Expel, Came::Says(true)),
            (Act::Take(1), Came::Waited(0, 1, 0)),
            (Act::Take(2), Came::Waited(0, 0, 0)),
        ],
    ),
    (
        "node 2 serves, later",
        &[
            (Act::Show(1, FIRST), Came::Done),
            (Act::Show(2, SECOND), Came::Done),
            (Act::Expel, Came::Says(true)),
            (Act::Take(1), Came::Waited(0, 0, 0)),
            (Act::Take(2), Came::Waited(0, 1, 0)),
        ],
    ),
    (
        "node 1 stopped",
        &[
            (Act::Show(1, STOPPED), Came::Done),
            (Act::Show(2, SECOND), Came::Done),
            (Act::Expel, Came::Says(true)),
            (Act::Take(1), Came::Waited(0, 0, 0)),
            (Act::Take(2), Came::Waited(0, 1, 0)),
        ],
    ),
    (
        "no node serves",
        &[
            (Act::Show(1, STOPPED), Came::Done),
            (Act::Show(2, BACKUP), Came::Done),
            (Act::Expel, Came::Says(false)),
            (Act::Take(1), Came::Waited(0, 0, 0)),
            (Act::Take(2), Came::Waited(0, 0, 0)),
        ],
    ),
];

#[test]
fn orders_wait_for_the_nodes_that_they_are_for(rt: HostRuntime) {
    for (words, rows) in ORDERS {
        assert_eq!(rt; fault_of(&rt, rt.alloc(), rows), None, "{words}");
    }
}

// An order to give a ballot queues a message for its primary, and wakes it.
const WAKING: &[Row] = &[
    (Act::Look(1), Came::Shown(false, false)),
    (Act::Look(2), Came::Shown(false, false)),
    // Node 1 finds nothing.
    (Act::Doze(1), Came::Says(false)),
    (Act::Look(1), Came::Shown(false, false)),
    // A message wakes it, and it finds it.
    (Act::Assign(1, 1), Came::Done),
    (Act::Look(1), Came::Shown(true, false)),
    (Act::Look(2), Came::Shown(false, false)),
    (Act::Doze(1), Came::Says(true)),
    (Act::Look(1), Came::Shown(true, true)),
    (Act::Look(2), Came::Shown(false, false)),
    // Node 2 has one, and finds it.
    (Act::Assign(2, 1), Came::Done),
    (Act::Look(1), Came::Shown(true, true)),
    (Act::Look(2), Came::Shown(true, false)),
    (Act::Doze(2), Came::Says(true)),
    (Act::Look(1), Came::Shown(true, true)),
    (Act::Look(2), Came::Shown(true, true)),
    // Node 2 alone is woken, and dozes again.
    (Act::Wake(2), Came::Done),
    (Act::Look(1), Came::Shown(true, true)),
    (Act::Look(2), Came::Shown(true, false)),
    (Act::Doze(2), Came::Says(true)),
    (Act::Look(1), Came::Shown(true, true)),
    (Act::Look(2), Came::Shown(true, true)),
    // Both are woken.
    (Act::WakeUrgent, Came::Done),
    (Act::Look(1), Came::Shown(true, false)),
    (Act::Look(2), Came::Shown(true, false)),
    // Node 1 dozes again, and its messages are taken.
    (Act::Doze(1), Came::Says(true)),
    (Act::Look(1), Came::Shown(true, true)),
    (Act::Look(2), Came::Shown(true, false)),
    (Act::Take(1), Came::Waited(0, 0, 1)),
    (Act::Look(1), Came::Shown(false, false)),
    (Act::Look(2), Came::Shown(true, false)),
];

// Seventeen items are more than another thread takes. A wake between the last look and the sleep is
// not lost. A sleep takes no longer than it was given.
const SLEEPS: &[Table] = &[
    ("a node that sleeps is woken", WAKING),
    (
        "a node with much to do is woken",
        &[
            (Act::Assign(1, 17), Came::Done),
            (Act::Doze(1), Came::Says(true)),
            (Act::Look(1), Came::Shown(true, false)),
            (Act::Sleep(1), Came::Says(true)),
        ],
    ),
    (
        "a wake before the sleep ends it",
        &[
            (Act::Doze(1), Came::Says(false)),
            (Act::Wake(1), Came::Done),
            (Act::Sleep(1), Came::Says(true)),
        ],
    ),
    (
        "a sleep of no time ends",
        &[(Act::SleepBriefly(1), Came::Says(true))],
    ),
];

#[test]
fn a_node_that_sleeps_is_woken(rt: HostRuntime) {
    for (words, rows) in SLEEPS {
        assert_eq!(rt; fault_of(&rt, rt.alloc(), rows), None, "{words}");
    }
}
