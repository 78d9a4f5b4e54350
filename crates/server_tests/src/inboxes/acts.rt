// An inbox: each call with its answer, and two inboxes in one run.

ghost use Rattle.std.specs.Prelude.{◌≡◌};

use mailbox::{Inbox, Lane, MAX_ITEMS, Naming, Receiver};
use std::alloc::Global;
use std::marker::Brand;
use std::sync::{Mutex, Wait};

// What is done with the receiver of an inbox and the lanes of it, or of the other one. A lane is
// meant by its index.
#[derive(Clone, Copy, Debug, PartialEq, Eq)]
pub(super) enum Act {
    // A lane sends this item.
    Send(usize, u64),
    // A lane sends the numbers from 0 on, this many.
    SendMany(usize, u64),
    // How many items a lane has sent.
    Count(usize),
    // An item is taken.
    Take,
    // How many lanes there are, and whether they are all of the inbox.
    Lanes,
    // What the receiver and the first lane meet at.
    Meet,
    // What is not taken is taken out.
    Settle,
}

// What came of an act.
#[derive(Clone, Copy, Debug, PartialEq, Eq)]
pub(super) enum Came {
    // Nothing: not all was sent, or there is no such lane or inbox, or memory ran out.
    Nothing,
    // It was sent.
    Sent,
    // This item came back.
    Back(u64),
    // The lane has sent this many items.
    Count(u64),
    // This was taken.
    Took(Option<(u8, u64)>),
    // How many lanes the receiver says there are, and how many there are. Then whether these are
    // all of the inbox, and whether they are not without the first.
    Lanes(usize, usize, bool, bool),
    // This many items were taken of the lane; none if the inbox is not its own.
    Met(Option<u64>),
    // How many items of the first three lanes were taken before. Then of the first three that are
    // left over their lanes and the items (zeros after the last), and how many are left over.
    Settled([u64; 3], [u8; 3], [u64; 3], usize),
}

// Whose receiver and whose lanes are meant, by the indexes of two inboxes, the act, and what is to
// come of it.
pub(super) type Row = ((usize, usize), Act, Came);

/// The row at this index, and what came; no row if there was no memory for the inboxes.
pub(super) type Fault = (usize, Option<Row>, Came);

const UNMADE: Fault = (0, None, Came::Nothing);

// Sends an item, with a receipt of what the lane itself knows.
fn send<J: Naming, R: Wait>(rt: &R, lanes: &mut [Lane<u64, J>], index: usize, item: u64) -> Came {
    let Some(lane) = lanes.get_mut(index) else {
        return Came::Nothing;
    };
    let receipt = lane.receipt();
    match lane.send(rt, item, receipt) {
        Ok(()) => Came::Sent,
        Err(back) => Came::Back(back),
    }
}

/// Takes an item, with a receipt of what the receiver itself knows.
pub(super) fn take<J: Naming, R: Wait>(
    rt: &R,
    receiver: &mut Receiver<u64, J>,
) -> Option<(u8, u64)> {
    let receipt = receiver.receipt();
    receiver.take(rt, receipt)
}

// Returns true if all lanes but the first are not all of the inbox.
fn lacks_one<J: Naming>(receiver: &Receiver<u64, J>, lanes: &[Lane<u64, J>]) -> bool {
    match lanes {
        [_, rest @ ..] => !receiver.has_all(rest),
        [] => false,
    }
}

// Returns the inbox of a receiver and the first lane, if their numbers say that it is the same one.
fn meet<J: Naming>(receiver: &mut Receiver<u64, J>, lanes: &mut [Lane<u64, J>]) -> Option<u64> {
    let lane = lanes.first_mut()?;
    if receiver.number() == lane.number() {
        Some(receiver.meet(lane))
    } else {
        None
    }
}

// Takes out what is not taken.
fn settle<J: Naming, R: Wait>(
    rt: &R,
    alloc: Global,
    receiver: &mut Receiver<u64, J>,
    lanes: &mut [Lane<u64, J>],
) -> Came {
    let Ok(mut counted) = Vec::from_elem(alloc, 0u64, receiver.lanes()) else {
        return Came::Nothing;
    };
    let Ok(mut over) = Vec::with_capacity(alloc, MAX_ITEMS) else {
        return Came::Nothing;
    };
    if !receiver.has_all(lanes) {
        return Came::Nothing;
    }
    receiver.take_rest(rt, lanes, counted.as_mut_slice(), &mut over);
    let (mut counts, mut of, mut left) = ([0u64; 3], [0u8; 3], [0u64; 3]);
    for (to, count) in counts.iter_mut().zip(counted.as_slice()) {
        *to = *count;
    }
    for (to, item) in of.iter_mut().zip(over.as_slice()) {
        *to = item.0;
    }
    for (to, item) in left.iter_mut().zip(over.as_slice()) {
        *to = item.1;
    }
    Came::Settled(counts, of, left, over.len())
}

// Does an act, and returns what came of it.
fn perform<J: Naming, R: Wait>(
    rt: &R,
    alloc: Global,
    receiver: &mut Receiver<u64, J>,
    lanes: &mut [Lane<u64, J>],
    act: Act,
) -> Came {
    match act {
        Act::Send(index, item) => send(rt, lanes, index, item),
        Act::SendMany(index, count) => {
            if (0..count).all(|item| send(rt, lanes, index, item) == Came::Sent) {
                Came::Sent
            } else {
                Came::Nothing
            }
        }
        Act::Count(index) => match lanes.get(index) {
            Some(lane) => Came::Count(lane.count()),
            None => Came::Nothing,
        },
        Act::Take => Came::Took(take(rt, receiver)),
        Act::Lanes => {
            let (all, lacking) = (receiver.has_all(lanes), lacks_one(receiver, lanes));
            Came::Lanes(receiver.lanes(), lanes.len(), all, lacking)
        }
        Act::Meet => Came::Met(meet(receiver, lanes)),
        Act::Settle => match settle(rt, alloc, receiver, lanes) {
            // Memory was refused for the question.
            Came::Nothing => settle(rt, alloc, receiver, lanes),
            came => came,
        },
    }
}

// The receivers and the lanes of two inboxes, each with a lock of its own.
#[derive(Drop)]
struct Two<J: Naming> {
    receivers: [Mutex<Receiver<u64, J>>; 2],
    lanes: [Mutex<Vec<Lane<u64, J>>>; 2],
}

impl<J: Naming> Two<J> {
    // Does the act of a row, and returns what came of it.
    fn perform<R: Wait>(&self, rt: &R, alloc: Global, row: Row) -> Came {
        let ((at, lanes_at), act, _) = row;
        match (self.receivers.get(at), self.lanes.get(lanes_at)) {
            (Some(receiver), Some(lanes)) => perform(
                rt,
                alloc,
                &mut receiver.lock(rt),
                lanes.lock(rt).as_mut_slice(),
                act,
            ),
            _ => Came::Nothing,
        }
    }

    // Returns the first row of whose act comes something else.
    fn first_fault<R: Wait>(&self, rt: &R, alloc: Global, rows: &[Row]) -> Option<Fault> {
        for (at, row) in rows.iter().enumerate() {
            let came = self.perform(rt, alloc, *row);
            if came != row.2 {
                return Some((at, Some(*row), came));
            }
        }
        None
    }
}

// Returns the first row, with two inboxes, of whose act comes something else. The first inbox has
// 64 lanes, the most that one may have, and the second has one.
fn fault_of_two<J: Naming, R: Wait>(
    rt: &R,
    alloc: Global,
    first: Inbox<u64>,
    second: Inbox<u64>,
    rows: &[Row],
) -> Option<Fault>
    requires first { first ≡ J.inbox_of 1 }
    requires second { second ≡ J.inbox_of 2 }
{
    let Ok((first, first_lanes)) = first.named::<J>(1, 64) else {
        drop(second);
        return Some(UNMADE);
    };
    let Ok((second, second_lanes)) = second.named::<J>(2, 1) else {
        drop(first);
        drop(first_lanes);
        return Some(UNMADE);
    };
    let two = Two {
        receivers: [Mutex::new(first), Mutex::new(second)],
        lanes: [Mutex::new(first_lanes), Mutex::new(second_lanes)],
    };
    let fault = two.first_fault(rt, alloc, rows);
    drop(two);
    fault
}

// Returns the first row, with two fresh inboxes, of whose act comes something else.
fn fault_of<R: Wait>(rt: &R, alloc: Global, rows: &[Row]) -> Option<Fault> {
    let Ok(first) = Inbox::new(alloc) else {
        return Some(UNMADE);
    };
    let Ok(second) = Inbox::new(alloc) else {
        drop(first);
        return Some(UNMADE);
    };
    fault_of_two::<Brand, R>(rt, alloc, first, second, rows)
}

// What the rows show.
const TABLES: &[(&str, &[Row])] = &[
    (
        "a full inbox hands back",
        &[
            ((0, 0), Act::SendMany(0, 1_024), Came::Sent),
            ((0, 0), Act::Send(0, 5), Came::Back(5)),
            ((0, 0), Act::Take, Came::Took(Some((0, 0)))),
            ((0, 0), Act::Send(0, 5), Came::Sent),
            ((0, 0), Act::Count(0), Came::Count(1_025)),
        ],
    ),
    (
        "each of 64 lanes sends, and the 1,025th item that waits is handed back",
        &[
            ((0, 0), Act::Send(63, 7), Came::Sent),
            ((0, 0), Act::Send(0, 5), Came::Sent),
            ((0, 0), Act::Send(64, 1), Came::Nothing),
            ((0, 0), Act::Take, Came::Took(Some((63, 7)))),
            ((0, 0), Act::Take, Came::Took(Some((0, 5)))),
            ((0, 0), Act::Take, Came::Took(None)),
            ((0, 0), Act::SendMany(62, 1_023), Came::Sent),
            ((0, 0), Act::Send(63, 8), Came::Sent),
            ((0, 0), Act::Send(63, 9), Came::Back(9)),
            ((0, 0), Act::Send(1, 2), Came::Back(2)),
        ],
    ),
    (
        "what is left over is listed",
        &[
            ((0, 0), Act::Send(0, 10), Came::Sent),
            ((0, 0), Act::Send(2, 20), Came::Sent),
            ((0, 0), Act::Send(0, 11), Came::Sent),
            ((0, 0), Act::Send(2, 21), Came::Sent),
            ((0, 0), Act::Send(2, 22), Came::Sent),
            ((0, 0), Act::Take, Came::Took(Some((0, 10)))),
            ((0, 0), Act::Take, Came::Took(Some((2, 20)))),
            ((0, 0), Act::Lanes, Came::Lanes(64, 64, true, true)),
            (
                (0, 0),
                Act::Settle,
                Came::Settled([1, 0, 1], [0, 2, 2], [11, 21, 22], 3),
            ),
        ],
    ),
    (
        "a lane meets its items",
        &[
            ((0, 0), Act::Send(0, 7), Came::Sent),
            ((0, 0), Act::Send(0, 8), Came::Sent),
            ((0, 0), Act::Send(0, 9), Came::Sent),
            ((1, 1), Act::Send(0, 70), Came::Sent),
            ((0, 0), Act::Take, Came::Took(Some((0, 7)))),
            ((0, 0), Act::Take, Came::Took(Some((0, 8)))),
            ((0, 0), Act::Meet, Came::Met(Some(2))),
            ((1, 1), Act::Meet, Came::Met(Some(0))),
            ((0, 1), Act::Meet, Came::Met(None)),
            ((1, 0), Act::Meet, Came::Met(None)),
            ((0, 0), Act::Take, Came::Took(Some((0, 9)))),
            ((0, 0), Act::Take, Came::Took(None)),
            ((1, 1), Act::Take, Came::Took(Some((0, 70)))),
        ],
    ),
];

#[test]
fn inboxes_do_as_their_rows_say(rt: HostRuntime) {
    for (words, rows) in TABLES {
        assert_eq!(rt; fault_of(&rt, rt.alloc(), rows), None, "{words}");
    }
}

// The items of two lanes arrive in the order in which they were sent.
const IN_MEMORY: &[Row] = &[
    ((0, 0), Act::Send(1, 20), Came::Sent),
    ((0, 0), Act::Send(0, 10), Came::Sent),
    ((0, 0), Act::Take, Came::Took(Some((1, 20)))),
    ((0, 0), Act::Take, Came::Took(Some((0, 10)))),
    ((0, 0), Act::Take, Came::Took(None)),
    ((0, 0), Act::Send(1, 21), Came::Sent),
    (
        (0, 0),
        Act::Settle,
        Came::Settled([1, 1, 0], [1, 0, 0], [21, 0, 0], 1),
    ),
];

/// Returns what differs of an inbox: it is made, or memory was refused. What its lanes send and its
/// receiver takes needs none.
pub(super) fn fault_without_memory<R: Wait>(rt: &R, alloc: Global) -> Option<Fault> {
    let fault = fault_of(rt, alloc, IN_MEMORY);
    if fault == Some(UNMADE) { None } else { fault }
}
