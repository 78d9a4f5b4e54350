// One node's link to the master.
//
// A connection is a stranger's until it has proved that it has the key: up to then the desk and the
// roster are not looked at. A node without a number tells 0 and gets the next one; one that has a
// number tells that, and has to be of this cluster. One thread reads and writes: a read ends after
// a beat, then what is due is written. Each fifth of a second something is written, if only an
// empty frame, and the ballot that waits is told to its primary until it has answered.

ghost use Rattle.std.specs.Prelude.{◌≡◌, false, IfOk};

use crate::desk::{DeskError, Keeper};
use crate::master::hall::Hall;
use crate::master::told;
use crate::master::told::Told;
use ballot_base::{Body, Message};
use broker_spec::Command;
use link_threads::{
    BEAT_MILLIS, BeatReader, Introduction, Parcels, SILENT_MILLIS, StreamWriter, meet,
};
use links::seal::{Hello, Membership, Side};
use links::{LinkReadError, LinkReader, LinkWriter, Met, Parcel, Way, read_link};
use std::fmt;
use std::net::{SocketAddr, TcpStream};
use std::random::RandomSource;
use std::sync::Wait;
use std::time::{Clock, Duration};

// The number of the master, which a node without a number tells.
const MASTER: u8 = 0;

/// How long a read waits for bytes, in milliseconds. So a link sees within this time that something
/// is to be written.
const READ_MILLIS: u64 = 20;

/// The most bytes of a read.
const CHUNK: usize = 4096;

/// Why a connection is no link.
#[derive(Drop)]
pub(crate) enum Stranger {
    /// The two ends do not meet.
    Unmet(link_threads::Stranger),
    /// It tells this number, which was given to no node of this cluster.
    Number(u8),
    /// It gets no number.
    Desk(DeskError),
    /// The connection, the random bytes or memory failed.
    Fault,
}

impl fmt::Display for Stranger {
    fn fmt<W: fmt::Write>(&self, f: &mut fmt::Formatter<W>) -> fmt::Result {
        match self {
            Stranger::Unmet(stranger) => write!(f, "{stranger}"),
            Stranger::Number(number) => write!(f, "no node has number {number}"),
            Stranger::Desk(error) => write!(f, "{error}"),
            Stranger::Fault => write!(f, "the connection failed"),
        }
    }
}

/// Serves a connection to its end. Names one that is no link on standard error, at most one each
/// minute.
pub(crate) fn serve_link<K, R>(rt: &R, hall: &Hall<'_, K>, stream: &TcpStream, address: SocketAddr)
where
    K: Keeper,
    R: AllocGlobal + Wait + Clock + RandomSource + Eprint,
{
    if let Err(stranger) = serve_node(rt, hall, stream, address) {
        if hall.strangers.may_name(rt, hall.now(rt)) {
            let _ = eprintln!(rt; "vcluster: no link to {address}: {stranger}");
        }
    }
}

// Serves a node to the end of its connection.
fn serve_node<K, R>(
    rt: &R,
    hall: &Hall<'_, K>,
    stream: &TcpStream,
    address: SocketAddr,
) -> Result<(), Stranger>
where
    K: Keeper,
    R: AllocGlobal + Wait + Clock + RandomSource,
{
    let met = greet(rt, hall, stream)?;
    let (number, welcome) = seat(rt, hall, &met.other)?;
    let Ok(link) = hall.roster.lock(rt).enter(number, address) else {
        return Err(Stranger::Fault);
    };
    let mut node = NodeLink::new(rt, hall, stream, met, number, link);
    node.run(welcome);
    drop(node);
    hall.roster.lock(rt).leave(number, link);
    Ok(())
}

// Meets the other end, which has to prove that it has the key.
fn greet<K, R>(rt: &R, hall: &Hall<'_, K>, stream: &TcpStream) -> Result<Met, Stranger>
where
    K: Keeper,
    R: Clock + RandomSource,
    ensures { IfOk result (λ met. met.opener.failed ≡ false) }
{
    let own = Introduction {
        side: Side::Listener,
        key: hall.key,
        membership: Membership::Master(hall.cluster),
        number: MASTER,
    };
    match meet(rt, &own, stream, Duration::from_millis(READ_MILLIS)) {
        Ok(met) => Ok(met),
        Err(stranger) => Err(Stranger::Unmet(stranger)),
    }
}

// Returns the number of a node with this hello, and what is to be told to it: a node that told 0
// gets the next number. One that has a number has to know its cluster.
fn seat<K, R>(rt: &R, hall: &Hall<'_, K>, hello: &Hello) -> Result<(u8, Option<Told>), Stranger>
where
    K: Keeper,
    R: Wait,
{
    let number = hello.number;
    let mut desk = hall.desk.lock(rt);
    if number == MASTER {
        return match told::start(&mut desk) {
            Ok((number, welcome)) => Ok((number, Some(welcome))),
            Err(error) => Err(Stranger::Desk(error)),
        };
    }
    if hello.cluster == hall.cluster && told::was_given(&desk, number) {
        Ok((number, None))
    } else {
        Err(Stranger::Number(number))
    }
}

// A node that is linked.
#[derive(Drop)]
struct NodeLink<'a, 'b, K: Keeper, R: Wait> {
    rt: &'a R,
    hall: &'a Hall<'b, K>,
    number: u8,
    // The number of this link.
    link: u64,
    input: BeatReader<'a>,
    output: StreamWriter<'a>,
    reader: LinkReader,
    writer: LinkWriter,
    // What came and was not looked at.
    parcels: Parcels<'a, R>,
    // When bytes came last, and were written last, in milliseconds since the master began.
    heard: u64,
    written: u64,
}

impl<'a, 'b, K, R> NodeLink<'a, 'b, K, R>
where
    K: Keeper,
    R: AllocGlobal + Wait + Clock,
{
    // Returns the link to a node that was met.
    fn new(
        rt: &'a R,
        hall: &'a Hall<'b, K>,
        stream: &'a TcpStream,
        met: Met,
        number: u8,
        link: u64,
    ) -> NodeLink<'a, 'b, K, R>
        requires { met.opener.failed ≡ false }
    {
        let Met {
            other: _,
            sealer,
            opener,
        } = met;
        let now = hall.now(rt);
        NodeLink {
            rt,
            hall,
            number,
            link,
            input: BeatReader::new(stream),
            output: StreamWriter::new(stream),
            reader: LinkReader::new(rt.alloc(), opener, Way::NodeToMaster(number)),
            writer: LinkWriter::new(rt.alloc(), sealer),
            parcels: Parcels::new(rt, rt.alloc()),
            heard: now,
            written: now,
        }
    }

    // Serves the link to its end.
    fn run(&mut self, welcome: Option<Told>) {
        if let Some(told) = welcome {
            if self.tell(&told).is_none() || self.write().is_none() {
                return;
            }
        }
        for _ in self.rt.forever() {
            if self.beat().is_none() {
                return;
            }
        }
    }

    // Reads for a beat, answers what came, and writes what is due. Returns none at the end of the
    // link.
    fn beat(&mut self) -> Option<()> {
        self.listen()?;
        let is_answered = self.answer_all()?;
        let is_ordered = self.pass_orders()?;
        if self.hall.now(self.rt).saturating_sub(self.written) >= BEAT_MILLIS {
            self.tell_ballot()?;
            return self.write();
        }
        if is_answered || is_ordered {
            return self.write();
        }
        Some(())
    }

    // Reads once. Returns none if the link has ended, or is to end.
    fn listen(&mut self) -> Option<()> {
        let mut buffer = [0; CHUNK];
        let read = read_link(
            &mut self.reader,
            &mut self.input,
            &mut buffer,
            &mut self.parcels,
        );
        let now = self.hall.now(self.rt);
        match read {
            Ok(()) => self.heard = now,
            Err(LinkReadError::Device(_)) if self.input.is_idle() => {}
            Err(_) => return None,
        }
        if self.hall.is_closing() || now.saturating_sub(self.heard) > SILENT_MILLIS {
            return None;
        }
        let is_current = self
            .hall
            .roster
            .lock(self.rt)
            .is_current(self.number, self.link);
        if is_current { Some(()) } else { None }
    }

    // Answers what came. Returns true if something is to be written.
    fn answer_all(&mut self) -> Option<bool> {
        let mut is_answered = false;
        for parcel in self.parcels.take_all() {
            is_answered |= self.answer(parcel)?;
        }
        Some(is_answered)
    }

    // Answers a parcel. Returns true if something is to be written.
    fn answer(&mut self, parcel: Parcel) -> Option<bool> {
        match parcel {
            Parcel::Report(status) => {
                let now = self.hall.now(self.rt);
                let mut roster = self.hall.roster.lock(self.rt);
                roster.report(self.number, self.link, status, now);
                Some(false)
            }
            Parcel::Message(message) => match asked_ballot(&message) {
                Some(ballot) => self.activate(ballot),
                None => Some(false),
            },
            _ => Some(false),
        }
    }

    // Answers an Activate. Where the disk fails it is not answered: the node asks again.
    fn activate(&mut self, ballot: u64) -> Option<bool> {
        let answer = told::activate(&mut *self.hall.desk.lock(self.rt), ballot);
        match answer {
            Ok(told) => {
                self.tell(&told)?;
                Some(true)
            }
            Err(_) => Some(false),
        }
    }

    // Passes on the orders that wait for the node. Returns true if there were any.
    fn pass_orders(&mut self) -> Option<bool> {
        let mut is_ordered = false;
        for _ in 0..u64::MAX {
            let order = self.hall.roster.lock(self.rt).take(self.number, self.link);
            match order {
                Some(parcel) => {
                    self.writer.add(&parcel).ok()?;
                    is_ordered = true;
                }
                None => break,
            }
        }
        Some(is_ordered)
    }

    // Tells the ballot that waits, if the node is its primary. While the desk is busy, it is told a
    // fifth of a second later.
    fn tell_ballot(&mut self) -> Option<()> {
        let told = match self.hall.desk.try_lock() {
            Some(desk) => told::new_ballot(self.rt.alloc(), &desk, self.number).ok()?,
            None => None,
        };
        match told {
            Some(told) => self.tell(&told),
            None => Some(()),
        }
    }

    // Adds what is told to what is to be written.
    fn tell(&mut self, told: &Told) -> Option<()> {
        self.writer.add(told.parcel()).ok()
    }

    // Writes what was added, or an empty frame.
    fn write(&mut self) -> Option<()> {
        self.writer.write(&mut self.output).ok()?;
        self.written = self.hall.now(self.rt);
        Some(())
    }
}

// Returns the ballot of an Activate.
fn asked_ballot(message: &Message<Command>) -> Option<u64> {
    match message.body {
        Body::Activate(ballot) => Some(ballot),
        _ => None,
    }
}
