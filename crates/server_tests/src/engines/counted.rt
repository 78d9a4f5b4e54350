// Devices that fail: what is counted of them, and what is written or was read around a fault.

use super::fakes::{Sink, Source};
use node_base::devices::{Counted, OneRead, PIECE_BYTES, WholeWrite};
use std::alloc::Global;
use std::io::ErrorKind;
use std::test::Fail;

const TEXT: &[u8] = b"0123456789";

// Which call of a device fails.
#[derive(Clone, Copy)]
struct BadCall(u64);

// How many bytes are written.
#[derive(Clone, Copy, Debug, PartialEq, Eq)]
struct Written(usize);

// How many faults are counted.
#[derive(Clone, Copy, Debug, PartialEq, Eq)]
struct Faults(u64);

// Which call fails, how the write ends, and what is written and counted.
type Row = (BadCall, WholeWrite, Written, Faults);

// Ten bytes at three a call are four writes, and the fifth call is the flush.
const ROWS: &[Row] = &[
    (BadCall(1), WholeWrite::Fault, Written(0), Faults(1)),
    (BadCall(2), WholeWrite::Fault, Written(3), Faults(1)),
    (BadCall(3), WholeWrite::Fault, Written(6), Faults(1)),
    (BadCall(4), WholeWrite::Fault, Written(9), Faults(1)),
    (BadCall(5), WholeWrite::Fault, Written(10), Faults(1)),
    (BadCall(6), WholeWrite::Whole, Written(10), Faults(0)),
];

// Returns a device that takes this many bytes a call.
fn sink_of(alloc: Global, most: usize, bad_call: u64) -> Counted<Sink> {
    Counted::new(Sink::new(alloc, most, bad_call, ErrorKind::BrokenPipe))
}

// How a write ends, and what is written and counted.
type Came = (WholeWrite, Written, Faults);

// Writes the text to a device of which one call fails. Returns what came; none if other bytes are
// written than the first ones of the text.
fn came_of(alloc: Global, bad_call: u64) -> Option<Came> {
    let mut device = sink_of(alloc, 3, bad_call);
    let end = device.write_whole(TEXT);
    let faults = Faults(device.faults());
    let sink = device.into_device();
    if TEXT.starts_with(sink.bytes()) {
        Some((end, Written(sink.bytes().len()), faults))
    } else {
        None
    }
}

#[test]
fn what_stands_written_is_a_prefix(rt: HostRuntime) {
    for (bad_call, end, written, faults) in ROWS {
        let call = bad_call.0;
        let wanted = Some((*end, *written, *faults));
        assert_eq!(rt; came_of(rt.alloc(), call), wanted, "{call}");
    }
}

#[test]
fn a_device_that_takes_nothing_stops_the_write(rt: HostRuntime) {
    let mut device = sink_of(rt.alloc(), 0, 0);
    assert_eq!(rt; device.write_whole(TEXT), WholeWrite::Stopped);
    assert_eq!(rt; device.write_whole(b""), WholeWrite::Whole);
    assert_eq!(rt; device.faults(), 0);
}

// Reads a piece and appends it to those that came. Returns whether it is what the call of this
// number may give.
fn read_once(
    device: &mut Counted<Source<'_>>,
    buffer: &mut [u8],
    arrived: &mut Vec<u8>,
    call: u64,
    bad_call: u64,
) -> bool {
    if buffer.is_empty() {
        return false;
    }
    match device.read_piece(buffer) {
        OneRead::Bytes(count) => match buffer.get(..count) {
            Some(piece) => arrived.extend_from_slice(piece).is_ok(),
            None => false,
        },
        OneRead::Fault => call == bad_call,
        OneRead::End => call > 3,
    }
}

// Whether each read gave what it may give, how many bytes arrived, and how many faults are counted.
type Arrived = (bool, usize, u64);

// Reads the text around a fault of this call. Returns what came, if not the whole text arrives, or
// that fault is not counted.
fn came_instead(alloc: Global, buffer: &mut [u8], bad_call: u64) -> Option<Arrived> {
    let mut device = Counted::new(Source::new(TEXT, 4, bad_call));
    let mut arrived = Vec::new(alloc);
    let read = (1..7u64).all(|call| read_once(&mut device, buffer, &mut arrived, call, bad_call));
    let faults = device.faults();
    if read && arrived.as_slice() == TEXT && faults == u64::from(bad_call > 0) {
        None
    } else {
        Some((read, arrived.len(), faults))
    }
}

// Returns the first call whose fault changes what comes, and what came.
fn first_fault(alloc: Global, buffer: &mut [u8]) -> Option<(u64, Arrived)> {
    for bad_call in 0..6u64 {
        if let Some(arrived) = came_instead(alloc, buffer, bad_call) {
            return Some((bad_call, arrived));
        }
    }
    None
}

// Ten bytes at four bytes a call are three pieces, and the fourth call finds the end. A fault loses
// no byte: the next piece continues where the last one ended.
#[test]
fn each_piece_arrives_around_a_fault(rt: HostRuntime) -> Result<(), Fail> {
    let alloc = rt.alloc();
    let mut buffer = Vec::from_elem(alloc, 0u8, PIECE_BYTES)?;
    assert_eq!(rt; first_fault(alloc, buffer.as_mut_slice()), None);
    Ok(())
}
