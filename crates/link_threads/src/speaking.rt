// The thread that writes a link.
//
// It sleeps until something waits, takes all of it, and writes it in one go. Each fifth of a second
// it writes at least an empty frame, and to the master what the node reports.

use crate::cause::Cause;
use crate::far_end::FarEnd;
use crate::hall::LinkHall;
use crate::incoming::LeftLog;
use crate::line::Line;
use crate::meeting::BEAT_MILLIS;
use crate::saying::add_all;
use crate::timed_stream::StreamWriter;
use crate::transits::Transits;
use links::message_form::WriteFault;
use links::{LinkWriteError, LinkWriter, Parcel};
use std::sync::Wait;
use std::time::{Clock, Duration};

/// Writes a link until it ends, and ends it then.
pub(crate) fn speak<R>(rt: &R, hall: &LinkHall<'_>, line: &Line<'_>, writer: LinkWriter)
where
    R: AllocGlobal + Wait + Clock + Eprint,
{
    let mut speaker = Speaker {
        rt,
        hall,
        line,
        output: StreamWriter::new(line.stream),
        writer,
        transits: Transits::new(rt.alloc()),
        written: hall.now(rt),
    };
    for _ in rt.forever() {
        if let Err(cause) = speaker.beat() {
            hall.name_end(rt, line.far, line.number, cause);
            break;
        }
    }
    line.end();
}

// What writes a link.
#[derive(Drop)]
struct Speaker<'a, 'b, 'c, R: Wait> {
    rt: &'a R,
    hall: &'a LinkHall<'b>,
    line: &'a Line<'c>,
    output: StreamWriter<'a>,
    writer: LinkWriter,
    transits: Transits,
    // When something was written last, in milliseconds since the links began.
    written: u64,
}

impl<'a, 'b, 'c, R> Speaker<'a, 'b, 'c, R>
where
    R: AllocGlobal + Wait + Clock,
{
    // Waits for a beat at most, and writes what waits then. Fails once the link is to end.
    fn beat(&mut self) -> Result<(), Cause> {
        let Line { far, number, .. } = *self.line;
        let desk = self.hall.desk;
        desk.wait(self.rt, far, number, Duration::from_millis(BEAT_MILLIS));
        if self.hall.is_closing() || self.line.has_ended() {
            return Err(Cause::Over);
        }
        let taken = desk.take(self.rt, far, number)?;
        let now = self.hall.now(self.rt);
        self.release(now)?;
        let is_due = now.saturating_sub(self.written) >= BEAT_MILLIS;
        if taken.is_empty() && !is_due {
            return Ok(());
        }
        self.transits.note(&taken, now)?;
        or_cause(add_all(&mut self.writer, &taken))?;
        if is_due {
            self.report()?;
        }
        self.write()
    }

    // Lets logs be given again that left long ago.
    fn release(&mut self, now: u64) -> Result<(), Cause> {
        for _ in 0..u64::MAX {
            let Some(name) = self.transits.take_due(now) else {
                return Ok(());
            };
            let Line { far, number, .. } = *self.line;
            self.hall.desk.sent(self.rt, LeftLog { far, number, name })?;
        }
        Ok(())
    }

    // Adds what the node reports to the master, once it has shown something.
    fn report(&mut self) -> Result<(), Cause> {
        if self.line.far != FarEnd::Master {
            return Ok(());
        }
        match self.hall.desk.status(self.rt) {
            Some(status) => or_cause(self.writer.add(&Parcel::Report(status))),
            None => Ok(()),
        }
    }

    // Writes what was added, or an empty frame.
    fn write(&mut self) -> Result<(), Cause> {
        match self.writer.write(&mut self.output) {
            Ok(()) => {}
            Err(LinkWriteError::Memory) => return Err(Cause::Memory),
            Err(LinkWriteError::Spent) => return Err(Cause::Spent),
            Err(_) => return Err(Cause::Over),
        }
        self.written = self.hall.now(self.rt);
        Ok(())
    }
}

// Returns why a link ends of which a parcel could not be added.
fn or_cause(added: Result<(), WriteFault>) -> Result<(), Cause> {
    match added {
        Ok(()) => Ok(()),
        Err(WriteFault::TooLarge) => Err(Cause::TooLarge),
        Err(WriteFault::Memory) => Err(Cause::Memory),
    }
}
