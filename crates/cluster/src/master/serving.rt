// The threads of a master.
//
// One accepts nodes, one takes orders on a socket, `LINKS` serve one connection each, and the
// caller's takes orders from the input. None waits in a call of the system for longer than a fifth
// of a second without looking whether the master ends, so all return soon after the input has
// ended. A thread that cannot be started ends the master.

use crate::desk::Keeper;
use crate::master::hall::Hall;
use crate::master::node_link::serve_link;
use crate::master::obeying::obey;
use crate::master::order_socket::take_orders;
use link_threads::{BEAT_MILLIS, Guest};
use std::io::{BufRead, Write};
use std::net::{SocketAddr, TcpListener, TcpStream};
use std::os::unix::net::UnixListener;
use std::random::RandomSource;
use std::sync::Wait;
use std::thread::Threads;
use std::time::{Clock, Duration};
use std::{io, thread};

/// How many connections are served at once: those of fifteen nodes, those that they replace, and
/// two strangers.
const LINKS: usize = 32;

/// How long a thread sleeps before it looks again for a connection, in milliseconds.
pub(crate) const PAUSE_MILLIS: u64 = 10;

/// Why a master did not serve.
#[derive(Clone, Copy, Debug, PartialEq, Eq)]
pub enum ServeFault {
    /// A thread could not be started.
    Threads,
    /// The input could not be read.
    Input,
}

/// Serves nodes at the listener, and orders at the socket, if there is one, and of the input, until
/// the input ends or brings `quit`. The listeners have to be non-blocking. No clause says what is
/// served.
pub fn serve<K, R, I, O>(
    rt: &R,
    hall: &Hall<'_, K>,
    nodes: &TcpListener,
    orders: Option<&UnixListener>,
    input: &mut I,
    output: &mut O,
) -> Result<(), ServeFault>
where
    K: Keeper + Send,
    R: AllocGlobal + Threads + Wait + Clock + RandomSource + Eprint + Sync,
    I: BufRead,
    O: Write,
{
    thread::scope(thread::scope_env(), rt, move |scope| {
        let mut all = scope.spawn(move || accept(rt, hall, nodes)).is_ok();
        if let Some(orders) = orders {
            all &= scope.spawn(move || take_orders(rt, hall, orders)).is_ok();
        }
        for _ in 0..LINKS {
            all &= scope.spawn(move || serve_guests(rt, hall)).is_ok();
        }
        let obeyed = if all {
            obey(rt, hall, input, output)
        } else {
            Ok(())
        };
        hall.close();
        ended(all, obeyed)
    })
}

// Returns how a master ended.
fn ended(are_started: bool, obeyed: io::Result<()>) -> Result<(), ServeFault> {
    match obeyed {
        Ok(()) if are_started => Ok(()),
        Ok(()) => Err(ServeFault::Threads),
        Err(_) => Err(ServeFault::Input),
    }
}

// Accepts connections until the master ends.
fn accept<K, R>(rt: &R, hall: &Hall<'_, K>, listener: &TcpListener)
where
    K: Keeper,
    R: Wait + Clock,
{
    for _ in rt.forever() {
        if hall.is_closing() {
            return;
        }
        match listener.accept() {
            Ok((stream, address)) => hall.guests.admit(rt, Guest { stream, address }),
            Err(_) => thread::sleep(rt, Duration::from_millis(PAUSE_MILLIS)),
        }
    }
}

// Serves one connection after the other until the master ends.
fn serve_guests<K, R>(rt: &R, hall: &Hall<'_, K>)
where
    K: Keeper,
    R: AllocGlobal + Wait + Clock + RandomSource + Eprint,
{
    for _ in rt.forever() {
        if hall.is_closing() {
            return;
        }
        if let Some(guest) = hall.guests.next(rt, Duration::from_millis(BEAT_MILLIS)) {
            serve_link(rt, hall, &guest.stream, guest.address);
        }
    }
}
