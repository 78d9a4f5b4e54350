// What comes after a write that failed: the end of its connection, which the node handles once.

ghost use Rattle.std.specs.Prelude.{◌≡◌};

use super::connections::{
    BadCall, IsOpen, PORT, Reported, Row, Spring, WRITE_ROWS, WriteRow, came_instead, end_of, sole,
    take_one,
};
use mailbox::{Inbox, Lane, Naming, Receiver};
use node_base::connection::{Ending, Flow};
use std::alloc::Global;
use std::marker::Brand;
use std::sync::Wait;
use std::test::Fail;
use std::time::Clock;
use world_base::node_connections::Handed;
use world_base::node_core::{Item, NodeCore};

// A stream that was shut: its first read fails.
const SHUT: Row = (IsOpen(true), BadCall(1), Ending::Fault, Reported(0));

// What comes after a failed write, whose stream is shut then: how many ends are reported, whether
// the node closes the connection, and how many commands it holds.
type Followed = (u64, Option<Handed>, u64);

// Hands a node the next item that is reported. Returns whether it is the end; none if there is none.
fn hand_next<J: Naming, R: Wait>(
    rt: &R,
    alloc: Global,
    receiver: &mut Receiver<Item, J>,
    node: &mut NodeCore,
) -> Option<bool> {
    let (_, item) = take_one(rt, receiver)?;
    let is_end = matches!(item, Item::Ended(PORT));
    let mut effects = Vec::new(alloc);
    node.step(item, &mut effects);
    Some(is_end)
}

// Hands it all that is reported, at most ten items. Returns how many ends these are.
fn hand_all<J: Naming, R: Wait>(
    rt: &R,
    alloc: Global,
    receiver: &mut Receiver<Item, J>,
    node: &mut NodeCore,
) -> u64 {
    let mut ends = 0u64;
    for _ in 0..10 {
        match hand_next(rt, alloc, receiver, node) {
            Some(is_end) => ends = ends.saturating_add(u64::from(is_end)),
            None => return ends,
        }
    }
    ends
}

// Has the end of a shut stream reported to this lane, and handed to the node.
fn follow<J: Naming, R: Wait + Clock>(
    rt: &R,
    alloc: Global,
    receiver: &mut Receiver<Item, J>,
    lane: Option<Lane<Item, J>>,
    spring: &mut Spring,
) -> Followed {
    let _ended = end_of(rt, alloc, lane, &SHUT);
    let ends = hand_all(rt, alloc, receiver, &mut spring.node);
    let mut out = Vec::new(alloc);
    let handed = spring.node.outgoing(PORT, &mut out).ok();
    (ends, handed, spring.node.status().held)
}

// Does the writes of a row with a fresh node, and follows what comes after them; none if they are
// not what the row says.
fn followed<J: Naming, R: Wait + Clock>(
    rt: &R,
    alloc: Global,
    inbox: Inbox<Item>,
    row: &WriteRow,
) -> Option<Followed>
    requires { inbox ≡ J.inbox_of 1 }
{
    let (mut receiver, mut lanes) = inbox.named::<J>(1, 1).ok()?;
    let mut spring = sole(alloc)?;
    let followed = match came_instead(rt, alloc, &mut spring, row) {
        Some(_) => None,
        None => Some(follow(rt, alloc, &mut receiver, lanes.pop(), &mut spring)),
    };
    drop(spring);
    followed
}

// The node holds the CONNECT, and its loss once.
#[test]
fn a_failed_write_ends_its_connection_once(rt: HostRuntime) -> Result<(), Fail> {
    for row in WRITE_ROWS {
        let (_, _, _, flow, _) = *row;
        if flow == Flow::Fault {
            let inbox = Inbox::new(rt.alloc())?;
            let followed = followed::<Brand, HostRuntime>(&rt, rt.alloc(), inbox, row);
            assert_eq!(rt; followed, Some((1, Some(Handed::Closed), 2)), "{row:?}");
        }
    }
    Ok(())
}
