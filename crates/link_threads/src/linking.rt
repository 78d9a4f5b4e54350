// A link from its handshake to its end.

ghost use Rattle.std.specs.Prelude.{◌≡◌, false};

use crate::cause::Cause;
use crate::far_end::FarEnd;
use crate::hall::LinkHall;
use crate::hearing::{hear, way};
use crate::line::Line;
use crate::speaking::speak;
use links::{LinkReader, LinkWriter, Met};
use std::net::TcpStream;
use std::sync::Wait;
use std::thread;
use std::thread::Threads;
use std::time::Clock;

/// Serves a link whose ends have met, to its end: one thread reads, another writes. Names why it
/// ended, if the connection was not the reason.
pub(crate) fn serve_met<R>(rt: &R, hall: &LinkHall<'_>, far: FarEnd, stream: &TcpStream, met: Met)
where
    R: AllocGlobal + Threads + Wait + Clock + Eprint + Sync,
    requires { met.opener.failed ≡ false }
{
    let Met {
        other,
        sealer,
        opener,
    } = met;
    let line = Line::new(stream, far, other.number);
    let reader = LinkReader::new(rt.alloc(), opener, way(far, other.number));
    let writer = LinkWriter::new(rt.alloc(), sealer);
    let Some(link) = hall.desk.meet(rt, far, other.number) else {
        hall.name_end(rt, far, other.number, Cause::Spent);
        return;
    };
    hall.hears();
    run(rt, hall, &line, reader, writer);
    hall.desk.part(rt, far, link);
}

// Reads and writes a link to its end. Where no thread can be started nothing is written, so the
// other end cuts it.
fn run<R>(rt: &R, hall: &LinkHall<'_>, line: &Line<'_>, reader: LinkReader, writer: LinkWriter)
where
    R: AllocGlobal + Threads + Wait + Clock + Eprint + Sync,
{
    thread::join(
        rt,
        move || speak(rt, hall, line, writer),
        move || hear(rt, hall, line, reader),
    );
}
