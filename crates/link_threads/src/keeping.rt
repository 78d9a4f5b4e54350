// The threads of a node's links.
//
// A row dials those before it, and all dial the master, so that two rows have one link. A thread
// dials each of them; one accepts the connections of the rows behind, and one for each of these and
// two for strangers serve them. The caller's thread watches. None waits in a call of the system for
// longer than a fifth of a second without looking whether the links end, but as the hall says.

use crate::accepting::{accept, serve_guests};
use crate::dialling::dial;
use crate::dials::Dials;
use crate::far_end::FarEnd;
use crate::hall::LinkHall;
use crate::looks::Looks;
use crate::meeting::BEAT_MILLIS;
use std::net::TcpListener;
use std::random::RandomSource;
use std::sync::Wait;
use std::thread;
use std::thread::Threads;
use std::time::{Clock, Duration};

/// How many connections of strangers are served at once, beside those of the rows behind.
const STRANGERS: usize = 2;

/// How the links of a node ended.
#[derive(Clone, Copy, Debug, PartialEq, Eq)]
pub enum LinksEnd {
    /// They were closed.
    Closed,
    /// In a minute's looks nothing came over any of them, and the node is no active primary that
    /// all members follow.
    Lonely,
    /// A thread could not be started.
    Threads,
}

/// Where the links of a node come from.
#[derive(Drop)]
pub struct Doors<'a, D: Dials> {
    /// Opens the connections to the master and to the rows before the own one.
    pub dials: &'a D,
    /// The address of the master.
    pub master: &'a str,
    /// The addresses of all rows.
    pub rows: &'a [String],
    /// Where the rows behind the own one connect. It has to be non-blocking.
    pub listener: &'a TcpListener,
}

/// Keeps the links of a node to the master and to the other rows, until they are closed, or it is
/// lonely.
pub fn keep_links<R, D>(rt: &R, hall: &LinkHall<'_>, doors: &Doors<'_, D>) -> LinksEnd
where
    R: AllocGlobal + Threads + Wait + Clock + RandomSource + Eprint + Sync,
    D: Dials + Sync,
{
    let guests = hall.seats.lock(rt).len().saturating_add(STRANGERS);
    thread::scope(thread::scope_env(), rt, move |scope| {
        let mut all = scope
            .spawn(move || dial(rt, hall, doors.dials, FarEnd::Master, doors.master))
            .is_ok();
        for (row, address) in doors.rows.iter().enumerate().take(hall.life.row) {
            let far = FarEnd::Row(row);
            let text = address.as_str();
            all &= scope
                .spawn(move || dial(rt, hall, doors.dials, far, text))
                .is_ok();
        }
        all &= scope
            .spawn(move || accept(rt, hall, doors.listener))
            .is_ok();
        for _ in 0..guests {
            all &= scope.spawn(move || serve_guests(rt, hall)).is_ok();
        }
        let end = watch(rt, hall, all);
        hall.close();
        end
    })
}

// Waits until the links are closed, or the node is lonely, if all threads have started.
fn watch<R>(rt: &R, hall: &LinkHall<'_>, all_started: bool) -> LinksEnd
where
    R: Wait + Clock,
{
    if !all_started {
        return LinksEnd::Threads;
    }
    let mut looks = Looks::new();
    for _ in rt.forever() {
        if hall.is_closing() {
            return LinksEnd::Closed;
        }
        looks.look(hall.take_heard());
        if looks.is_alone() && !serves_alone(rt, hall) {
            return LinksEnd::Lonely;
        }
        thread::sleep(rt, Duration::from_millis(BEAT_MILLIS));
    }
    LinksEnd::Closed
}

// Returns true if the node is an active primary and nothing waits for a member.
fn serves_alone<R: Wait>(rt: &R, hall: &LinkHall<'_>) -> bool {
    match hall.desk.status(rt) {
        Some(status) => status.serves() && status.committed == status.held,
        None => false,
    }
}
