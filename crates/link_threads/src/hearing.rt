// The thread that reads a link.
//
// A read takes what has come, and what it spells is put on the desk in its order, each message with
// the number that the other end told in its hello as its sender (`read_link`). A link is cut once
// fifteen reads in a row, each of which waits for a fifth of a second, brought nothing: reads are
// counted and no time, so what came while the program was stopped is read.

use crate::cause::Cause;
use crate::far_end::FarEnd;
use crate::hall::LinkHall;
use crate::line::Line;
use crate::meeting::{BEAT_MILLIS, SILENT_MILLIS};
use crate::parcels::Parcels;
use crate::timed_stream::BeatReader;
use links::{LinkReadError, LinkReader, Way, read_link};
use std::sync::Wait;
use std::thread;
use std::time::{Clock, Duration};

/// The most bytes of a read.
const CHUNK: usize = 16_384;

/// How many reads in a row may bring nothing.
const MAX_IDLE: u64 = SILENT_MILLIS / BEAT_MILLIS;

/// How long a link is not read while too much lies on the desk, in milliseconds.
const CROWDED_MILLIS: u64 = 1;

/// Reads a link until it ends, and ends it then for its other thread, too.
pub(crate) fn hear<R>(rt: &R, hall: &LinkHall<'_>, line: &Line<'_>, reader: LinkReader)
where
    R: AllocGlobal + Wait + Clock + Eprint,
{
    let mut hearer = Hearer {
        rt,
        hall,
        line,
        input: BeatReader::new(line.stream),
        reader,
        parcels: Parcels::new(rt, rt.alloc()),
        idle: 0,
    };
    for _ in rt.forever() {
        if let Err(cause) = hearer.beat() {
            hall.name_end(rt, line.far, line.number, cause);
            break;
        }
    }
    line.end();
    hall.desk.wake(line.far);
}

/// Returns which way the parcels of a link come.
pub(crate) fn way(far: FarEnd, number: u8) -> Way {
    match far {
        FarEnd::Master => Way::MasterToNode,
        FarEnd::Row(_) => Way::NodeToNode(number),
    }
}

// What reads a link.
#[derive(Drop)]
struct Hearer<'a, 'b, 'c, R: Wait> {
    rt: &'a R,
    hall: &'a LinkHall<'b>,
    line: &'a Line<'c>,
    input: BeatReader<'a>,
    reader: LinkReader,
    // What came and is not yet on the desk.
    parcels: Parcels<'a, R>,
    // How many reads in a row brought nothing.
    idle: u64,
}

impl<'a, 'b, 'c, R> Hearer<'a, 'b, 'c, R>
where
    R: AllocGlobal + Wait + Clock,
{
    // Reads once, and puts what came on the desk. Fails once the link is to end.
    fn beat(&mut self) -> Result<(), Cause> {
        if self.is_over() {
            return Err(Cause::Over);
        }
        if self.hall.desk.is_crowded(self.rt) {
            thread::sleep(self.rt, Duration::from_millis(CROWDED_MILLIS));
            return Ok(());
        }
        let read = self.read();
        self.bring()?;
        match read {
            Ok(()) => {
                self.idle = 0;
                self.hall.hears();
                Ok(())
            }
            Err(LinkReadError::Device(_)) => self.idle(),
            Err(LinkReadError::Link(fault)) => Err(Cause::Fault(fault)),
        }
    }

    // Notes that a read brought nothing. Fails if the connection has ended, or is silent.
    fn idle(&mut self) -> Result<(), Cause> {
        self.idle = self.idle.saturating_add(1);
        if self.input.is_idle() && self.idle < MAX_IDLE {
            Ok(())
        } else {
            Err(Cause::Over)
        }
    }

    // Reads once.
    fn read(&mut self) -> Result<(), LinkReadError> {
        let mut buffer = [0; CHUNK];
        read_link(
            &mut self.reader,
            &mut self.input,
            &mut buffer,
            &mut self.parcels,
        )
    }

    // Puts what came on the desk.
    fn bring(&mut self) -> Result<(), Cause> {
        let came = self.parcels.take_all();
        if !came.is_empty() {
            self.hall.desk.bring(self.rt, came)?;
        }
        Ok(())
    }

    // Returns true if the link has ended, or is to end.
    fn is_over(&self) -> bool {
        self.hall.is_closing() || self.line.has_ended() || self.hall.is_left(self.rt, self.line.far)
    }
}
