// Rows of nodes: items are taken while there is memory, what a step sends is given out, what is left
// over is reported, and the numbers of inboxes say whose lane it is.

use super::came::{Came, SILENT, Sent};
use super::meeting::Meeting;
use super::performing::Act::{One, OneMeetsTwo, TakeBoth, Two, TwoMeetsOne};
use super::performing::NodeAct::{Bytes, HandOver, Held, Meet, Open, Take, Tick};
use super::playing::{Row, Run, Told, fault_of};
use world_base::node_connections::Handed;

/// Client `a`, keep alive 60, CleanSession 0 (MQTT 3.1).
pub(super) const CONNECT: &[u8] = &[
    0x10, 0x0D, 0x00, 0x04, 0x4D, 0x51, 0x54, 0x54, 0x04, 0x00, 0x00, 0x3C, 0x00, 0x01, 0x61,
];

// CONNACK 0 without a session present, on a connection that is open.
const ACCEPTED: Came = Came::HandedOver(Some(Handed::Open), 4, [0x20, 0x02, 0x00, 0x00]);

// Nothing, on a connection that is open.
const UNANSWERED: Came = Came::HandedOver(Some(Handed::Open), 0, [0; 4]);

// Node 2 is to append the CONNECT at place 0 of ballot 1, says node 1.
const APPEND: Sent = Sent::Connect(2, 1, (1, 0), (1, 1));

/// A node of one lane that was sent nothing.
pub(super) const UNUSED: Told = Told {
    taken: &[0],
    left: &[],
    missed: 0,
};

// What a lane sends is taken, one item at a time, and the answer is sent.
const IN_ORDER: &[Row] = &[
    (One(Open(0)), Came::Sent),
    (One(Bytes(0, CONNECT)), Came::Sent),
    (One(Take), SILENT),
    (One(Take), SILENT),
    (One(Take), Came::NoItem(0)),
    (One(HandOver), ACCEPTED),
    (One(Held), Came::Held(1)),
];

// The primary of two members sends the other one what it appends, and the answer waits until that
// one holds it.
const APPENDS: &[Row] = &[
    (One(Open(0)), Came::Sent),
    (One(Bytes(0, CONNECT)), Came::Sent),
    (One(Take), SILENT),
    (One(Take), Came::Took(1, Some(APPEND))),
    (One(HandOver), UNANSWERED),
    (One(Held), Came::Held(1)),
];

// A lane sends three items while another thread has the node. Two of them are taken then, and the
// third is left over.
const BESIDE: &[Row] = &[
    (One(Tick(0, 1)), Came::Sent),
    (One(Tick(0, 2)), Came::Sent),
    (One(Tick(0, 3)), Came::Sent),
    (One(Meet(0)), Came::Met(Some(0))),
    (One(Take), SILENT),
    (One(Take), SILENT),
    (One(Meet(0)), Came::Met(Some(2))),
];

// Of two lanes' items two are taken, and the others left over.
const LEFT: &[Row] = &[
    (One(Tick(0, 1)), Came::Sent),
    (One(Tick(0, 2)), Came::Sent),
    (One(Tick(1, 5)), Came::Sent),
    (One(Tick(0, 3)), Came::Sent),
    (One(Meet(0)), Came::Met(Some(0))),
    (One(Take), SILENT),
    (One(Take), SILENT),
    (One(Meet(0)), Came::Met(Some(2))),
];

// One lane of each of two nodes sends items, of which some are taken.
const MET: &[Row] = &[
    (One(Tick(0, 1)), Came::Sent),
    (One(Tick(0, 2)), Came::Sent),
    (One(Tick(0, 3)), Came::Sent),
    (Two(Tick(0, 5)), Came::Sent),
    (Two(Tick(0, 6)), Came::Sent),
    (One(Meet(0)), Came::Met(Some(0))),
    (Two(Meet(0)), Came::Met(Some(0))),
    (One(Take), SILENT),
    (One(Take), SILENT),
    (Two(Take), SILENT),
    (One(Meet(0)), Came::Met(Some(2))),
    (Two(Meet(0)), Came::Met(Some(1))),
    (OneMeetsTwo, Came::Met(None)),
    (TwoMeetsOne, Came::Met(None)),
    (One(Take), SILENT),
    (One(Take), Came::NoItem(0)),
    (One(Meet(0)), Came::Met(Some(3))),
    (Two(Take), SILENT),
    (Two(Meet(0)), Came::Met(Some(2))),
];

// What the rows of a run show; the members; the rows; and what both nodes report.
const RUNS: &[(&str, Run)] = &[
    (
        "items are taken in their order",
        Run {
            members: &[1],
            rows: IN_ORDER,
            one: Told {
                taken: &[2, 0],
                left: &[],
                missed: 0,
            },
            two: UNUSED,
        },
    ),
    (
        "what a step sends is given out",
        Run {
            members: &[1, 2],
            rows: APPENDS,
            one: Told {
                taken: &[2, 0],
                left: &[],
                missed: 0,
            },
            two: UNUSED,
        },
    ),
    (
        "send waits for no lock",
        Run {
            members: &[1],
            rows: BESIDE,
            one: Told {
                taken: &[2, 0],
                left: &[(0, 3)],
                missed: 0,
            },
            two: UNUSED,
        },
    ),
    (
        "what is not taken is left over",
        Run {
            members: &[1],
            rows: LEFT,
            one: Told {
                taken: &[2, 0],
                left: &[(1, 5), (0, 3)],
                missed: 0,
            },
            two: UNUSED,
        },
    ),
    (
        "two nodes meet their lanes",
        Run {
            members: &[1],
            rows: MET,
            one: Told {
                taken: &[3, 0],
                left: &[],
                missed: 0,
            },
            two: Told {
                taken: &[2],
                left: &[],
                missed: 0,
            },
        },
    ),
];

#[test]
fn nodes_do_as_their_rows_say(rt: HostRuntime) {
    for (words, run) in RUNS {
        assert_eq!(rt; fault_of(&rt, rt.alloc(), run, None), None, "{words}");
    }
}

// Each node is sent three ticks, and takes two, both at once.
const TWO_OF_THREE: &[Row] = &[
    (One(Tick(0, 1)), Came::Sent),
    (One(Tick(0, 2)), Came::Sent),
    (One(Tick(0, 3)), Came::Sent),
    (Two(Tick(0, 1)), Came::Sent),
    (Two(Tick(0, 2)), Came::Sent),
    (Two(Tick(0, 3)), Came::Sent),
    (TakeBoth(2), Came::Both(true)),
];

// The gate opens for both.
const PASSED: Run = Run {
    members: &[1],
    rows: TWO_OF_THREE,
    one: Told {
        taken: &[2, 0],
        left: &[(0, 3)],
        missed: 0,
    },
    two: Told {
        taken: &[2],
        left: &[(0, 3)],
        missed: 0,
    },
};

// The gate stays shut for the second.
const MISSED: Run = Run {
    members: &[1],
    rows: TWO_OF_THREE,
    one: Told {
        taken: &[2, 0],
        left: &[(0, 3)],
        missed: 1,
    },
    two: Told {
        taken: &[2],
        left: &[(0, 3)],
        missed: 1,
    },
};

// Were one thread to run both nodes, or a lock round them held while the gate is asked, they would
// not meet.
#[test]
fn nodes_meet_at_their_gate(rt: HostRuntime) {
    let gate = Meeting::new(u64::MAX);
    let fault = fault_of(&rt, rt.alloc(), &PASSED, Some(&gate));
    assert_eq!(rt; fault, None);
    assert!(rt; gate.heard_all(&rt, 2));
}

// The gate shuts after the first taking: before the second it is asked ten thousand times, and then
// the nodes continue.
#[test]
fn a_gate_that_stays_shut_is_passed(rt: HostRuntime) {
    let gate = Meeting::new(1);
    let fault = fault_of(&rt, rt.alloc(), &MISSED, Some(&gate));
    assert_eq!(rt; fault, None);
    assert!(rt; gate.heard_all(&rt, 2));
}
