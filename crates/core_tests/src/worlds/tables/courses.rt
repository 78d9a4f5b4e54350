// The known courses of events, and what is known of a world after some of their rows.

use crate::worlds::tables::crashes::CRASHED;
use crate::worlds::tables::expelled::EXPELLED;
use crate::worlds::tables::stale::STALE;
use crate::worlds::tables::superseded::SUPERSEDED;
use crate::worlds::tables::travelling::TRAVELLED;
use crate::worlds::world_rows::{Action, Agreed, Row, Sent, is_right, opened};
use std::alloc::Global;
use world::World;

/// The primary answers a CONNECT once its backup holds it.
pub const WAITS: &[Row] = &[
    Row::Does(Action::Open("a", 1), Sent(0), Agreed(0)),
    Row::Does(Action::Up(1), Sent(1), Agreed(0)),
    Row::Does(Action::Deliver(0), Sent(2), Agreed(1)),
    Row::Does(Action::Deliver(1), Sent(3), Agreed(1)),
    Row::Does(Action::Down(1), Sent(3), Agreed(1)),
];

// A sole member is joined by another one, which becomes the primary. No client comes.
const CHANGED: &[Row] = &[
    Row::Does(Action::Assign(&[1, 2], 2), Sent(1), Agreed(0)),
    Row::Does(Action::Deliver(0), Sent(2), Agreed(0)),
    Row::Does(Action::Deliver(1), Sent(3), Agreed(0)),
    Row::Does(Action::Deliver(2), Sent(4), Agreed(0)),
    Row::Does(Action::Deliver(3), Sent(5), Agreed(0)),
    Row::Does(Action::Deliver(4), Sent(6), Agreed(0)),
    Row::Does(Action::Deliver(5), Sent(7), Agreed(0)),
    Row::Does(Action::Deliver(6), Sent(8), Agreed(0)),
    Row::Does(Action::Deliver(7), Sent(9), Agreed(1)),
    Row::Does(Action::Deliver(8), Sent(10), Agreed(1)),
];

/// A client that has a session in the log that is fetched, from one number of rows to another.
pub type Kept = (&'static str, usize, usize);

/// A course of events in a world of this many nodes, with these members of ballot 1. One of the
/// active configuration always lives.
pub struct Course {
    /// What it shows.
    pub name: &'static str,
    nodes: u8,
    members: &'static [u8],
    /// The events, in order.
    pub rows: &'static [Row],
    kept: &'static [Kept],
}

// A session that stays.
const NEVER: usize = usize::MAX;

/// The known courses.
pub const COURSES: &[Course] = &[
    Course {
        name: "waits",
        nodes: 2,
        members: &[1, 2],
        rows: WAITS,
        kept: &[("a", 2, NEVER)],
    },
    Course {
        name: "changed",
        nodes: 2,
        members: &[1],
        rows: CHANGED,
        kept: &[],
    },
    Course {
        name: "crashed",
        nodes: 2,
        members: &[1, 2],
        rows: CRASHED,
        kept: &[("b", 2, NEVER), ("a", 11, NEVER)],
    },
    Course {
        name: "stale",
        nodes: 2,
        members: &[1, 2],
        rows: STALE,
        kept: &[("b", 2, NEVER), ("a", 11, NEVER)],
    },
    Course {
        name: "travelled",
        nodes: 2,
        members: &[1],
        rows: TRAVELLED,
        kept: &[("a", 2, NEVER)],
    },
    Course {
        name: "expelled",
        nodes: 1,
        members: &[1],
        rows: EXPELLED,
        kept: &[("b", 2, 12), ("b", 22, NEVER), ("a", 7, NEVER)],
    },
    Course {
        name: "superseded",
        nodes: 3,
        members: &[1],
        rows: SUPERSEDED,
        kept: &[("a", 24, NEVER)],
    },
];

/// Returns the world in which a course begins.
pub fn begun(alloc: Global, course: &Course) -> Option<World> {
    opened(alloc, course.nodes, course.members)
}

/// Returns true if these rows hold for a world, one after another.
pub fn all_hold(alloc: Global, world: &mut World, rows: &[Row]) -> bool {
    for row in rows {
        if !is_right(alloc, world, row) {
            return false;
        }
    }
    true
}

// Returns true if a node has crashed in these rows.
fn has_crashed(rows: &[Row], node: u8) -> bool {
    rows.iter().any(
        |row| matches!(row, Row::Does(Action::Crash(crashed), _, _) if *crashed == node),
    )
}

/// Returns the ballot that is given last in these rows.
pub fn last_ballot(rows: &[Row]) -> u64 {
    let mut ballot: u64 = 1;
    for row in rows {
        if matches!(row, Row::Does(Action::Assign(_, _), _, _)) {
            ballot = ballot.saturating_add(1);
        }
    }
    ballot
}

/// Returns true if members may form the next ballot after these rows: they rise, and they live.
pub fn may_lead(course: &Course, rows: &[Row], members: &[u8]) -> bool {
    let mut last = 0;
    for member in members {
        if *member <= last || *member > course.nodes || has_crashed(rows, *member) {
            return false;
        }
        last = *member;
    }
    !members.is_empty()
}

/// Returns true if a client has a session after this many rows.
pub fn is_kept(course: &Course, count: usize, client: &str) -> bool {
    course.kept.iter().any(|(name, from, until)| *name == client
        && *from <= count
        && count < *until)
}
