// The desk between a node and its links, which names no run.
//
// The threads of the links work over the desk alone, and so does the thread that carries between it
// and the node. Each lock is held for one call, and none while another is taken. A thread puts
// first and wakes then; a wake-up that comes before the sleep ends that at once, so none is lost.
// What is under a lock is known by its type alone: `Outgoing`, `Incoming` and `Standing` say what
// their calls do, and no clause of the desk says what lies there.

use crate::far_end::FarEnd;
use crate::incoming::{Incoming, LeftLog};
use crate::outgoing::Outgoing;
use crate::standing::{News, Standing};
use ballot_base::Status;
use broker_spec::Command;
use links::Parcel;
use links::link_queue::Waiting;
use machine::Memory;
use std::alloc::Global;
use std::sync::atomic::{AtomicBool, Ordering};
use std::sync::{Arc, Mutex, Wait};
use std::thread::Parker;
use std::time::Duration;

/// How many parcels may lie here before links are read no further.
const MAX_CAME: usize = 65_536;

/// What lies here for one other end.
#[derive(Drop)]
struct Tray {
    outgoing: Mutex<Outgoing>,
    standing: Mutex<Standing>,
    // True if memory ran out for what was to go out, so that the link has to end.
    is_short: AtomicBool,
    // Wakes the thread that writes the link.
    writer: Parker,
}

impl Tray {
    fn new(alloc: Global) -> Tray {
        Tray {
            outgoing: Mutex::new(Outgoing::new(alloc)),
            standing: Mutex::new(Standing::new()),
            is_short: AtomicBool::new(false),
            writer: Parker::new(),
        }
    }
}

/// What lies between a node and its links: what is to go out by each, and what came in by them.
#[derive(Drop)]
pub struct LinkDesk {
    alloc: Global,
    // In the order of the table.
    rows: Vec<Tray>,
    master: Tray,
    incoming: Mutex<Incoming>,
    // The status that the node showed last; none before the first.
    status: Mutex<Option<Status>>,
    // Wakes the thread that carries for the node. The node wakes it, too.
    carrier: Arc<Parker, Global>,
    // True once the links end.
    closing: AtomicBool,
}

impl LinkDesk {
    /// Returns the desk of a node in a table of this many rows. No link has come up.
    pub fn new(alloc: Global, rows: usize) -> Result<LinkDesk, Memory> {
        Ok(LinkDesk {
            alloc,
            rows: trays_of(alloc, rows)?,
            master: Tray::new(alloc),
            incoming: Mutex::new(Incoming::new(alloc)),
            status: Mutex::new(None),
            carrier: Arc::new(alloc, Parker::new())?,
            closing: AtomicBool::new(false),
        })
    }

    fn tray(&self, far: FarEnd) -> Option<&Tray> {
        match far {
            FarEnd::Master => Some(&self.master),
            FarEnd::Row(row) => self.rows.get(row),
        }
    }

    /// Ends all links, and wakes who waits for them.
    pub fn close(&self) {
        self.closing.store(true, Ordering::SeqCst);
        self.carrier.unpark();
        self.master.writer.unpark();
        for tray in &self.rows {
            tray.writer.unpark();
        }
    }

    /// Returns true once the links end.
    pub fn is_closing(&self) -> bool {
        self.closing.load(Ordering::SeqCst)
    }

    /// Returns the status that the node showed last; none before the first.
    pub fn status<R: Wait>(&self, rt: &R) -> Option<Status> {
        *self.status.lock(rt)
    }

    // ---- for the threads of links

    /// Notes that a link came up to the node of this number, or to the master, whose number is 0.
    /// Returns its count; none if no count is left.
    pub(crate) fn meet<R: Wait>(&self, rt: &R, far: FarEnd, number: u8) -> Option<u64> {
        let tray = self.tray(far)?;
        tray.is_short.store(false, Ordering::SeqCst);
        let link = tray.standing.lock(rt).meet(number);
        self.carrier.unpark();
        link
    }

    /// Notes that the link of this count broke.
    pub(crate) fn part<R: Wait>(&self, rt: &R, far: FarEnd, link: u64) {
        if let Some(tray) = self.tray(far) {
            tray.standing.lock(rt).part(link);
            self.carrier.unpark();
        }
    }

    /// Takes all that lies here for the node of this number, oldest first. Nothing does if what is
    /// here is for another number. Fails if memory ran out for some of it.
    pub(crate) fn take<R: Wait>(
        &self,
        rt: &R,
        far: FarEnd,
        number: u8,
    ) -> Result<Vec<Waiting<Command>>, Memory> {
        let Some(tray) = self.tray(far) else {
            return Err(Memory);
        };
        if tray.is_short.load(Ordering::SeqCst) {
            return Err(Memory);
        }
        let taken = tray.outgoing.lock(rt).take(self.alloc, number);
        match taken {
            Some(taken) => {
                if !taken.is_empty() {
                    self.carrier.unpark();
                }
                Ok(taken)
            }
            None => Ok(Vec::new(self.alloc)),
        }
    }

    /// Sleeps until something urgent lies here for the node of this number, until
    /// [`LinkDesk::wake`] is called, or until `time` has passed. One thread at a time sleeps for
    /// each other end. What is for another number wakes it at most once.
    pub(crate) fn wait<R: Wait>(&self, rt: &R, far: FarEnd, number: u8, time: Duration) {
        if let Some(tray) = self.tray(far) {
            let is_urgent = tray.outgoing.lock(rt).is_urgent(number);
            if !is_urgent {
                tray.writer.park_timeout(rt, time);
            }
        }
    }

    /// Wakes the thread that sleeps for this other end.
    pub(crate) fn wake(&self, far: FarEnd) {
        if let Some(tray) = self.tray(far) {
            tray.writer.unpark();
        }
    }

    /// Puts what a link read here, in its order. Fails if memory runs out: then none of it is here.
    pub(crate) fn bring<R: Wait>(&self, rt: &R, parcels: Vec<Parcel>) -> Result<(), Memory> {
        let brought = self.incoming.lock(rt).add(parcels);
        self.carrier.unpark();
        brought
    }

    /// Notes that a log which was taken may be given again. Fails if memory runs out.
    pub(crate) fn sent<R: Wait>(&self, rt: &R, log: LeftLog) -> Result<(), Memory> {
        self.incoming.lock(rt).note(log)
    }

    /// Returns true if so much lies here that links are read no further for now.
    pub(crate) fn is_crowded<R: Wait>(&self, rt: &R) -> bool {
        self.incoming.lock(rt).len() > MAX_CAME
    }

    // ---- for the thread that carries for the node

    /// Returns what ends [`LinkDesk::rest`] at once, or the next one if none lasts.
    pub fn carrier(&self) -> &Arc<Parker, Global> {
        &self.carrier
    }

    /// Returns what the node is to be told of a link, if there is anything. It is told once.
    pub fn news<R: Wait>(&self, rt: &R, far: FarEnd) -> Option<News> {
        self.tray(far)?.standing.lock(rt).news()
    }

    /// Returns the number of the node for which more may be put here: that of the link that is up,
    /// if nothing urgent lies here for it.
    pub fn wants<R: Wait>(&self, rt: &R, far: FarEnd) -> Option<u8> {
        let tray = self.tray(far)?;
        let number = tray.standing.lock(rt).number()?;
        let is_full = tray.outgoing.lock(rt).is_urgent(number);
        if is_full { None } else { Some(number) }
    }

    /// Puts messages here for the node of this number, and wakes the thread that writes them. If
    /// memory runs out the link ends, and says so.
    pub fn put<R: Wait>(&self, rt: &R, far: FarEnd, number: u8, added: Vec<Waiting<Command>>) {
        let Some(tray) = self.tray(far) else {
            return;
        };
        let put = tray.outgoing.lock(rt).put(number, added);
        if put.is_err() {
            tray.is_short.store(true, Ordering::SeqCst);
        }
        let is_urgent = tray.outgoing.lock(rt).is_urgent(number);
        if is_urgent || put.is_err() {
            tray.writer.unpark();
        }
    }

    /// Takes what links brought, and the logs that left by them, oldest first.
    pub fn take_all<R: Wait>(&self, rt: &R) -> (Vec<Parcel>, Vec<LeftLog>) {
        self.incoming.lock(rt).take(self.alloc)
    }

    /// Shows the status of the node to its links.
    pub fn show<R: Wait>(&self, rt: &R, status: Status) {
        *self.status.lock(rt) = Some(status);
    }

    /// Sleeps until a link brought something, came up, broke or took what was here, until the links
    /// end or [`LinkDesk::carrier`] is unparked, or until `time` has passed.
    pub fn rest<R: Wait>(&self, rt: &R, time: Duration) {
        self.carrier.park_timeout(rt, time);
    }
}

fn trays_of(alloc: Global, rows: usize) -> Result<Vec<Tray>, Memory> {
    let mut trays = Vec::new(alloc);
    for _ in 0..rows {
        trays.push(Tray::new(alloc))?;
    }
    Ok(trays)
}
