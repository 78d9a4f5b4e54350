// The threads that dial: one for the master, one for each row before the own one.

ghost use Rattle.std.specs.Prelude.{◌≡◌, false, IfOk};

use crate::dials::Dials;
use crate::far_end::FarEnd;
use crate::hall::LinkHall;
use crate::linking::serve_met;
use crate::meeting::{BEAT_MILLIS, Introduction, meet};
use crate::strangers::Stranger;
use links::Met;
use links::seal::Side;
use std::net::TcpStream;
use std::random::RandomSource;
use std::sync::Wait;
use std::thread;
use std::thread::Threads;
use std::time::{Clock, Duration};

/// How long a thread waits before it dials again: first, and at most, in milliseconds.
const PAUSES_MILLIS: (u64, u64) = (50, 1000);

/// Keeps the link to another end at this address, until the links end.
pub(crate) fn dial<R, D>(rt: &R, hall: &LinkHall<'_>, dials: &D, far: FarEnd, text: &str)
where
    R: AllocGlobal + Threads + Wait + Clock + RandomSource + Eprint + Sync,
    D: Dials,
{
    let (first, most) = PAUSES_MILLIS;
    let mut pause = first;
    for _ in rt.forever() {
        if hall.is_closing() {
            return;
        }
        pause = if dial_once(rt, hall, dials, far, text) {
            first
        } else {
            pause.saturating_mul(2).min(most)
        };
        rest(rt, hall, pause);
    }
}

// Dials once, and serves the link to its end. Returns true if there was one.
fn dial_once<R, D>(rt: &R, hall: &LinkHall<'_>, dials: &D, far: FarEnd, text: &str) -> bool
where
    R: AllocGlobal + Threads + Wait + Clock + RandomSource + Eprint + Sync,
    D: Dials,
{
    let Some((stream, address)) = dials.open(text) else {
        return false;
    };
    match greet(rt, hall, far, &stream) {
        Ok(met) => {
            serve_met(rt, hall, far, &stream, met);
            true
        }
        Err(stranger) => {
            hall.name(rt, address, stranger);
            false
        }
    }
}

// Meets the other end, which has to be the master, or another node.
fn greet<R>(rt: &R, hall: &LinkHall<'_>, far: FarEnd, stream: &TcpStream) -> Result<Met, Stranger>
where
    R: Clock + RandomSource,
    ensures { IfOk result (λ met. met.opener.failed ≡ false) }
{
    let life = hall.life;
    let own = Introduction::of_node(Side::Dialler, life.key, life.cluster, life.number);
    let met = meet(rt, &own, stream, Duration::from_millis(BEAT_MILLIS))?;
    if may_be(far, met.other.number, life.number) {
        Ok(met)
    } else {
        Err(Stranger::Number(met.other.number))
    }
}

/// Returns true if the other end of a link may have this number: the master has 0, and no other
/// node has that or the own one.
pub(crate) fn may_be(far: FarEnd, number: u8, own: u8) -> bool {
    match far {
        FarEnd::Master => number == 0,
        FarEnd::Row(_) => number != 0 && number != own,
    }
}

// Waits before dialling again.
fn rest<R>(rt: &R, hall: &LinkHall<'_>, pause: u64)
where
    R: Wait + Clock,
{
    let part = Duration::from_millis(pause.min(BEAT_MILLIS));
    for _ in 0..pause.div_ceil(BEAT_MILLIS) {
        if hall.is_closing() {
            return;
        }
        thread::sleep(rt, part);
    }
}
