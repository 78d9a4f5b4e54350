// The threads that take the links of the rows behind the own one.

use crate::dialling::may_be;
use crate::far_end::FarEnd;
use crate::guests::Guest;
use crate::hall::LinkHall;
use crate::linking::serve_met;
use crate::meeting::{BEAT_MILLIS, Introduction, meet};
use crate::strangers::Stranger;
use links::seal::Side;
use std::net::{TcpListener, TcpStream};
use std::random::RandomSource;
use std::sync::Wait;
use std::thread;
use std::thread::Threads;
use std::time::{Clock, Duration};

/// How long a thread sleeps before it looks again for a connection, in milliseconds.
const PAUSE_MILLIS: u64 = 10;

/// Accepts connections until the links end. The listener has to be non-blocking.
pub(crate) fn accept<R>(rt: &R, hall: &LinkHall<'_>, listener: &TcpListener)
where
    R: Wait + Clock,
{
    for _ in rt.forever() {
        if hall.is_closing() {
            return;
        }
        match listener.accept() {
            Ok((stream, address)) => hall.guests.admit(rt, Guest { stream, address }),
            Err(_) => thread::sleep(rt, Duration::from_millis(PAUSE_MILLIS)),
        }
    }
}

/// Serves one connection after the other until the links end.
pub(crate) fn serve_guests<R>(rt: &R, hall: &LinkHall<'_>)
where
    R: AllocGlobal + Threads + Wait + Clock + RandomSource + Eprint + Sync,
{
    for _ in rt.forever() {
        if hall.is_closing() {
            return;
        }
        if let Some(guest) = hall.guests.next(rt, Duration::from_millis(BEAT_MILLIS)) {
            if let Err(stranger) = serve_guest(rt, hall, &guest.stream) {
                hall.name(rt, guest.address, stranger);
            }
        }
    }
}

// Serves a connection to its end.
fn serve_guest<R>(rt: &R, hall: &LinkHall<'_>, stream: &TcpStream) -> Result<(), Stranger>
where
    R: AllocGlobal + Threads + Wait + Clock + RandomSource + Eprint + Sync,
{
    let life = hall.life;
    let own = Introduction::of_node(Side::Listener, life.key, life.cluster, life.number);
    let met = meet(rt, &own, stream, Duration::from_millis(BEAT_MILLIS))?;
    let number = met.other.number;
    if !may_be(FarEnd::Row(life.row), number, life.number) {
        return Err(Stranger::Number(number));
    }
    let row = hall.seats.lock(rt).enter(number)?;
    serve_met(rt, hall, FarEnd::Row(row), stream, met);
    hall.seats.lock(rt).leave(row);
    Ok(())
}
