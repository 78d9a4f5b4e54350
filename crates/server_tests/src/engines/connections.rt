// What no clause says: a connection runs over devices whose calls fail, or that are full for a
// while.

ghost use Rattle.std.specs.Prelude.{◌≡◌};

use super::fakes::{Sink, Source};
use ballot_base::{Config, Members};
use machine::Memory;
use mailbox::{Inbox, Lane, Naming, Receiver};
use node_base::connection::{
    Ending, Flow, Outflow, Outlet, ReportSink, Tap, Unwritten, report_connection, write_out,
};
use node_base::devices::Counted;
use std::alloc::Global;
use std::io::ErrorKind::{self, BrokenPipe, Interrupted, TimedOut, WouldBlock};
use std::marker::Brand;
use std::sync::Wait;
use std::test::Fail;
use std::time::Clock;
use world_base::node_connections::{Handed, Piece, Port};
use world_base::node_core::{Item, NodeCore};

// Client `a`, keep alive 60, CleanSession 0.
const CONNECT: &[u8] = &[
    0x10, 0x0D, 0x00, 0x04, 0x4D, 0x51, 0x54, 0x54, 0x04, 0x00, 0x00, 0x3C, 0x00, 0x01, 0x61,
];

pub(super) const PORT: Port = Port(7);

// A lane to which a connection is reported, which accepts it or not.
#[derive(Drop)]
struct OneLane<J: Naming> {
    lane: Lane<Item, J>,
    is_open: bool,
}

impl<J: Naming> ReportSink for OneLane<J> {
    ghost heard = { λ sink. sink.lane.sent };

    ghost lets = { λ sink answer. answer ≡ sink.is_open };

    fn now<R: Clock>(&self, _rt: &R) -> u64 {
        5
    }

    fn report<R: Wait + Clock>(&mut self, rt: &R, item: Item) {
        let mut unsent = item;
        for _ in rt.forever() {
            let receipt = self.lane.receipt();
            match self.lane.send(rt, unsent, receipt) {
                Ok(()) => return,
                Err(back) => unsent = back,
            }
        }
        unreachable!()
    }

    fn let_in<R: Wait>(&self, _rt: &R) -> bool {
        self.is_open
    }
}

// The tap of the port.
#[derive(Drop)]
struct OneTap;

impl Tap for OneTap {
    ghost opens = { λ _. Unit {0} };

    ghost hands = { λ _ _ _ _. Unit {0} };
}

// A node, and what it sends on the port.
#[derive(Drop)]
pub(super) struct Spring {
    pub(super) node: NodeCore,
}

impl Outlet<OneTap> for Spring {
    fn hand_over<R: Wait>(
        &mut self,
        _rt: &R,
        _tap: &mut OneTap,
        out: &mut Vec<u8>,
    ) -> Result<Handed, Memory> {
        self.node.outgoing(PORT, out)
    }
}

// Whether the connection is accepted.
#[derive(Clone, Copy, Debug)]
pub(super) struct IsOpen(pub(super) bool);

// Which call of a device fails, from 1 on; none if it is 0.
#[derive(Clone, Copy, Debug)]
pub(super) struct BadCall(pub(super) u64);

// How many bytes are reported.
#[derive(Clone, Copy, Debug)]
pub(super) struct Reported(pub(super) usize);

// A connection, which read of it fails, how it ends, and what is reported.
pub(super) type Row = (IsOpen, BadCall, Ending, Reported);

// Four reads bring the CONNECT, and the fifth finds the end.
const ROWS: &[Row] = &[
    (IsOpen(true), BadCall(0), Ending::End, Reported(15)),
    (IsOpen(true), BadCall(1), Ending::Fault, Reported(0)),
    (IsOpen(true), BadCall(2), Ending::Fault, Reported(4)),
    (IsOpen(true), BadCall(3), Ending::Fault, Reported(8)),
    (IsOpen(true), BadCall(4), Ending::Fault, Reported(12)),
    (IsOpen(true), BadCall(5), Ending::Fault, Reported(15)),
    (IsOpen(true), BadCall(6), Ending::End, Reported(15)),
    (IsOpen(false), BadCall(0), Ending::Refused, Reported(0)),
];

// How a connection ended and how many faults were counted (none without a lane), and how many first
// bytes of the CONNECT came (none if something else was reported).
type Heard = (Option<(Ending, u64)>, Option<usize>);

// Returns how a connection that runs in this way is reported.
fn heard<J: Naming, R: Wait + Clock>(rt: &R, alloc: Global, inbox: Inbox<Item>, row: &Row) -> Heard
    requires { inbox ≡ J.inbox_of 1 }
{
    match inbox.named::<J>(1, 1) {
        Ok((mut receiver, mut lanes)) => {
            let ended = end_of(rt, alloc, lanes.pop(), row);
            (ended, told(rt, alloc, &mut receiver))
        }
        Err(_) => (None, None),
    }
}

// Returns how a connection that is reported to this lane ends, and how many faults were counted.
pub(super) fn end_of<J: Naming, R: Wait + Clock>(
    rt: &R,
    alloc: Global,
    lane: Option<Lane<Item, J>>,
    row: &Row,
) -> Option<(Ending, u64)> {
    let (open, bad_call, _, _) = *row;
    let is_open = open.0;
    match lane {
        Some(lane) => {
            let mut source = Counted::new(Source::new(CONNECT, 4, bad_call.0));
            let ended = report_connection(
                rt,
                alloc,
                PORT,
                &mut source,
                &mut OneLane { lane, is_open },
            );
            Some((ended, source.faults()))
        }
        None => None,
    }
}

// Takes an item, with a receipt of what the receiver itself knows.
pub(super) fn take_one<J: Naming, R: Wait>(
    rt: &R,
    receiver: &mut Receiver<Item, J>,
) -> Option<(u8, Item)> {
    let receipt = receiver.receipt();
    receiver.take(rt, receipt)
}

// Takes an item of the connection, and keeps its bytes. Returns true if it is not the last; none if
// it is no such item.
fn take<J: Naming, R: Wait>(
    rt: &R,
    receiver: &mut Receiver<Item, J>,
    came: &mut Vec<u8>,
) -> Option<bool> {
    match take_one(rt, receiver) {
        Some((_, Item::Bytes(PORT, piece, 5))) => {
            came.extend_from_slice(piece.as_slice()).ok()?;
            Some(true)
        }
        Some((_, Item::Ended(PORT))) => Some(false),
        _ => None,
    }
}

// Takes the items of the connection up to the last, at most ten. Returns whether it came.
fn take_all<J: Naming, R: Wait>(
    rt: &R,
    receiver: &mut Receiver<Item, J>,
    came: &mut Vec<u8>,
) -> bool {
    for _ in 0..10 {
        match take(rt, receiver, came) {
            Some(true) => {}
            Some(false) => return true,
            None => return false,
        }
    }
    false
}

// Returns how many first bytes of the CONNECT came, if a connection was opened, these came, it
// ended, and nothing more was reported.
fn told<J: Naming, R: Wait>(
    rt: &R,
    alloc: Global,
    receiver: &mut Receiver<Item, J>,
) -> Option<usize> {
    let mut came = Vec::new(alloc);
    let opened = matches!(take_one(rt, receiver), Some((_, Item::Opened(PORT, 5))));
    let is_whole = opened
        && take_all(rt, receiver, &mut came)
        && take_one(rt, receiver).is_none()
        && CONNECT.starts_with(came.as_slice());
    if is_whole { Some(came.len()) } else { None }
}

#[test]
fn a_connection_is_reported_whole(rt: HostRuntime) -> Result<(), Fail> {
    for row in ROWS {
        let inbox = Inbox::new(rt.alloc())?;
        let heard = heard::<Brand, HostRuntime>(&rt, rt.alloc(), inbox, row);
        let (_, _, ending, reported) = *row;
        let faults = u64::from(ending == Ending::Fault);
        assert_eq!(rt;
            heard,
            (Some((ending, faults)), Some(reported.0)),
            "{row:?}"
        );
    }
    Ok(())
}

// How often a device is full.
#[derive(Clone, Copy, Debug)]
pub(super) struct Blocked(u64);

// How many bytes are written.
#[derive(Clone, Copy, Debug)]
pub(super) struct Written(usize);

// Which write fails and how, how often the device is full, how the writing ends, and what is
// written. A fault is counted once, and nothing else is.
pub(super) type WriteRow = (BadCall, ErrorKind, Blocked, Flow, Written);

// Five bytes are two writes, and the answer's four are two.
pub(super) const WRITE_ROWS: &[WriteRow] = &[
    (BadCall(0), BrokenPipe, Blocked(0), Flow::Open, Written(9)),
    (BadCall(1), BrokenPipe, Blocked(0), Flow::Fault, Written(0)),
    (BadCall(2), BrokenPipe, Blocked(0), Flow::Fault, Written(3)),
    (BadCall(3), BrokenPipe, Blocked(0), Flow::Fault, Written(5)),
    (BadCall(4), BrokenPipe, Blocked(0), Flow::Fault, Written(8)),
    (BadCall(2), WouldBlock, Blocked(1), Flow::Open, Written(9)),
    (BadCall(3), WouldBlock, Blocked(1), Flow::Open, Written(9)),
    (BadCall(4), TimedOut, Blocked(1), Flow::Open, Written(9)),
    (BadCall(3), Interrupted, Blocked(0), Flow::Open, Written(9)),
];

// What was left before, and that with the node's answer after it, CONNACK 0.
const LEFT: &[u8] = b"01234";

const ALL: &[u8] = &[b'0', b'1', b'2', b'3', b'4', 0x20, 0x02, 0x00, 0x00];

// Returns a node, the sole member of ballot 1.
pub(super) fn sole(alloc: Global) -> Option<Spring> {
    let config = Config {
        members: Members::from_slice(alloc, &[1]).ok()?,
        primary: 1,
    };
    let node = NodeCore::new(alloc, 1, &config).ok()?;
    Some(Spring { node })
}

// Returns true if the node has an answer to a CONNECT for the port.
fn connect(alloc: Global, spring: &mut Spring) -> bool {
    let mut effects = Vec::new(alloc);
    spring.node.step(Item::Opened(PORT, 0), &mut effects);
    match Piece::from_slice(alloc, CONNECT) {
        Ok(piece) => {
            spring.node.step(Item::Bytes(PORT, piece, 0), &mut effects);
            true
        }
        Err(_) => false,
    }
}

// Writes what is left and what the node sends, as often as the device is full. Returns how often it
// was full, and how it ended then; none if it does not end.
fn write_all<R: Wait>(
    rt: &R,
    alloc: Global,
    spring: &mut Spring,
    sink: &mut Counted<Sink>,
) -> Option<(u64, Flow)> {
    let mut left = Unwritten::from_slice(alloc, LEFT).ok()?;
    for times in 0..9u64 {
        match write_out(rt, &mut left, &mut OneTap, spring, sink) {
            Flow::Blocked => {}
            flow => return Some((times, flow)),
        }
    }
    None
}

// What came of a row: how often the device was full and how the writing ended (none if it did not
// end, or there was no memory), how many faults were counted, and how many bytes are written.
#[derive(Clone, Copy, Debug, PartialEq, Eq)]
pub(super) struct Came {
    ended: Option<(u64, Flow)>,
    faults: u64,
    count: usize,
}

// Writes what was left before, and then the node's answer. Returns what came, if it is not what the
// row says.
pub(super) fn came_instead<R: Wait>(
    rt: &R,
    alloc: Global,
    spring: &mut Spring,
    row: &WriteRow,
) -> Option<Came> {
    let (bad_call, kind, blocked, flow, written) = *row;
    let mut sink = Counted::new(Sink::new(alloc, 3, bad_call.0, kind));
    let ended = if connect(alloc, spring) {
        write_all(rt, alloc, spring, &mut sink)
    } else {
        None
    };
    let faults = sink.faults();
    let device = sink.into_device();
    let is_counted = faults == u64::from(flow == Flow::Fault);
    if ended == Some((blocked.0, flow)) && is_counted && has_written(&device, written.0) {
        None
    } else {
        Some(Came {
            ended,
            faults,
            count: device.bytes().len(),
        })
    }
}

// Returns true if the first bytes of all, this many, are written.
fn has_written(sink: &Sink, count: usize) -> bool {
    sink.bytes().len() == count && ALL.starts_with(sink.bytes())
}

// Returns what came of a row with a fresh node, if it is not what the row says.
fn came_instead_of_fresh<R: Wait>(rt: &R, alloc: Global, row: &WriteRow) -> Option<Came> {
    match sole(alloc) {
        Some(mut spring) => came_instead(rt, alloc, &mut spring, row),
        None => Some(Came {
            ended: None,
            faults: 0,
            count: 0,
        }),
    }
}

// The index of a row that differs, and what came of it.
type Fault = (usize, Came);

// Returns the first row whose outcome differs from the wanted one.
fn first_fault<R: Wait>(rt: &R, alloc: Global) -> Option<Fault> {
    for (index, row) in WRITE_ROWS.iter().enumerate() {
        if let Some(came) = came_instead_of_fresh(rt, alloc, row) {
            return Some((index, came));
        }
    }
    None
}

#[test]
fn what_was_left_is_written_first(rt: HostRuntime) {
    assert_eq!(rt; first_fault(&rt, rt.alloc()), None);
}

// Returns how three writes of a stream end, whose device is full at its second call.
fn stream_ends<R: Wait>(rt: &R, alloc: Global) -> Option<(Flow, Flow, Flow)> {
    let mut spring = sole(alloc)?;
    if !connect(alloc, &mut spring) {
        return None;
    }
    let sink = Sink::new(alloc, 3, 2, WouldBlock);
    let mut stream = Outflow::new(alloc, OneTap, sink);
    let first = stream.write(rt, &mut spring);
    let second = stream.write(rt, &mut spring);
    Some((first, second, stream.write(rt, &mut spring)))
}

#[test]
fn a_stream_goes_on_where_it_was_full(rt: HostRuntime) {
    let ends = stream_ends(&rt, rt.alloc());
    assert_eq!(rt; ends, Some((Flow::Blocked, Flow::Open, Flow::Open)));
}
