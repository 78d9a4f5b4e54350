// A long list of commands by a fixed rule.

use super::giving::{Event, has_bytes, is_given};
use broker::BrokerMachine;
use broker_spec::Output;
use machine::Machine;
use packet::{Packet, encode};
use rows::Numbers;
use std::alloc::Global;
use std::test::*;

/// How many commands, and after how many of them the broker is frozen and thawed.
const COMMANDS: u64 = 20_000;

const FROZEN: u64 = 1_000;

const CLIENTS: [&str; 4] = ["a", "b", "c", "d"];

// How many bytes of a packet are shown. No packet of the run is longer.
const SHOWN: usize = 10;

// An answer as it is shown: the number of its connection, and the first bytes of the packet (zeros
// after the last, and zeros alone if the connection is closed).
type Shown = (u64, [u8; SHOWN]);

// What came of a command that the two brokers do not answer alike.
#[derive(Clone, Copy, Debug, PartialEq, Eq)]
enum Came {
    // No answer of one of them: memory ran out.
    Nothing,
    // The numbers of answers of the whole broker and of the thawed one. They differ; the answers
    // that both give are equal.
    Counts(usize, usize),
    // At this index the whole one gives the first of these, and the thawed one the second.
    Answers(usize, Shown, Shown),
    // Both answer alike, but the second one is not thawed from its own bytes, or is frozen to other
    // bytes then.
    NotThawed,
}

// A command that two brokers do not answer alike, by its number, and what came.
#[derive(Clone, Copy, Debug, PartialEq, Eq)]
struct Fault {
    command: u64,
    came: Came,
}

// Draws the bytes of a packet; what comes after them is not read.
fn packet_of(numbers: &mut Numbers) -> [u8; 10] {
    let id = (numbers.next() % 4) as u8 + 1;
    let qos = (numbers.next() % 3) as u8;
    let level = 0x31 + (numbers.next() % 3) as u8;
    match numbers.next() % 12 {
        0 | 1 => [0x82, 8, 0, id, 0, 3, 0x74, 0x2F, level, qos],
        2 => [0x82, 8, 0, id, 0, 3, 0x74, 0x2F, 0x23, qos],
        3 => [0xA2, 7, 0, id, 0, 3, 0x74, 0x2F, level, 0],
        4 => [0x40, 2, 0, id, 0, 0, 0, 0, 0, 0],
        5 => [0x50, 2, 0, id, 0, 0, 0, 0, 0, 0],
        6 => [0x62, 2, 0, id, 0, 0, 0, 0, 0, 0],
        7 => [0x70, 2, 0, id, 0, 0, 0, 0, 0, 0],
        8 => [0x35, 8, 0, 3, 0x74, 0x2F, level, 0, id, 0x78],
        9 => [0x34, 8, 0, 3, 0x74, 0x2F, level, 0, id, 0x79],
        10 => [0x32, 8, 0, 3, 0x74, 0x2F, level, 0, id, 0x7A],
        _ => [0xC0, 0, 0, 0, 0, 0, 0, 0, 0, 0],
    }
}

// Returns the first of these bytes that are shown, and zeros after the last.
fn front_of(bytes: &[u8]) -> [u8; SHOWN] {
    let mut front = [0; SHOWN];
    for (to, byte) in front.iter_mut().zip(bytes) {
        *to = *byte;
    }
    front
}

// Returns the first bytes of a packet.
fn spelled(alloc: Global, packet: &Packet) -> [u8; SHOWN] {
    let mut bytes = Vec::new(alloc);
    if !packet.has_no_empty_list() || encode(packet, &mut bytes).is_err() {
        return [0; SHOWN];
    }
    front_of(bytes.as_slice())
}

// Returns an answer as it is shown.
fn shown(alloc: Global, output: &Output) -> Shown {
    match output {
        Output::Close(name) => (name.count(), [0; SHOWN]),
        Output::Send(name, packet) => (name.count(), spelled(alloc, packet)),
    }
}

// Returns the first answers of two lists that differ; how many both have if there are more in one
// of them.
fn first_fault_of_answers(alloc: Global, here: &[Output], there: &[Output]) -> Came {
    let mut index: usize = 0;
    for (one, other) in here.iter().zip(there) {
        if *one != *other {
            return Came::Answers(index, shown(alloc, one), shown(alloc, other));
        }
        index = index.saturating_add(1);
    }
    Came::Counts(here.len(), there.len())
}

// Returns what came of an event, if two brokers do not answer it alike, and with memory.
fn came_instead(
    alloc: Global,
    one: &mut BrokerMachine,
    other: &mut BrokerMachine,
    event: Event<'_>,
) -> Option<Came> {
    let mut here = Vec::new(alloc);
    let mut there = Vec::new(alloc);
    if !is_given(alloc, one, event, &mut here) || !is_given(alloc, other, event, &mut there) {
        Some(Came::Nothing)
    } else if here.as_slice() == there.as_slice() {
        None
    } else {
        Some(first_fault_of_answers(alloc, here.as_slice(), there.as_slice()))
    }
}

// Replaces a broker by the one that is thawed from the bytes. Returns true if there is one, and it
// is frozen to the same bytes again.
fn is_thawed_from(alloc: Global, broker: &mut BrokerMachine, bytes: &[u8]) -> bool {
    match BrokerMachine::thaw(alloc, bytes) {
        Ok(thawed) => {
            *broker = thawed;
            has_bytes(alloc, broker, bytes)
        }
        Err(_) => false,
    }
}

// Replaces a broker by the one that its frozen bytes give, and says whether there is one.
fn is_thawed_again(alloc: Global, broker: &mut BrokerMachine) -> bool {
    let mut bytes = Vec::new(alloc);
    broker.freeze(&mut bytes).is_ok() && is_thawed_from(alloc, broker, bytes.as_slice())
}

// Returns what comes as number `count`: mostly a packet of a client on the connection that it
// opened last.
fn event_of<'a>(
    numbers: &mut Numbers,
    count: u64,
    last: &mut [u64; 4],
    packet: &'a [u8],
) -> Event<'a> {
    let client = (numbers.next() % 4) as usize;
    match numbers.next() % 24 {
        0 | 1 => {
            last[client] = count;
            Event::Connect(count, CLIENTS[client], numbers.next() % 3 == 0)
        }
        2 => Event::Lost(last[client]),
        3 if numbers.next() % 8 == 0 => Event::Start(2),
        _ => Event::Bytes(last[client], packet),
    }
}

// Returns what came of the next command, if two brokers do not answer it alike, the second being
// thawed from its own bytes if it is frozen then.
fn next_fault(
    alloc: Global,
    whole: &mut BrokerMachine,
    thawed: &mut BrokerMachine,
    numbers: &mut Numbers,
    count: u64,
    last: &mut [u64; 4],
) -> Option<Came> {
    let packet = packet_of(numbers);
    let event = event_of(numbers, count, last, &packet);
    let came = came_instead(alloc, whole, thawed, event);
    if came.is_some() || count > FROZEN || is_thawed_again(alloc, thawed) {
        came
    } else {
        Some(Came::NotThawed)
    }
}

// Returns the first command that two brokers do not answer alike, and what came.
fn first_fault(
    alloc: Global,
    whole: &mut BrokerMachine,
    thawed: &mut BrokerMachine,
) -> Option<Fault> {
    let mut numbers = Numbers::new(17);
    let mut last = [1; 4];
    for count in 1..=COMMANDS {
        if let Some(came) = next_fault(alloc, whole, thawed, &mut numbers, count, &mut last) {
            return Some(Fault {
                command: count,
                came,
            });
        }
    }
    None
}

// Returns the first command that a broker and one that is frozen and thawed do not answer alike,
// and what came. If there is no memory for a broker, it is number 0.
fn first_fault_of_fresh(alloc: Global) -> Option<Fault> {
    match (BrokerMachine::fresh(alloc), BrokerMachine::fresh(alloc)) {
        (Ok(mut whole), Ok(mut thawed)) => first_fault(alloc, &mut whole, &mut thawed),
        _ => Some(Fault {
            command: 0,
            came: Came::Nothing,
        }),
    }
}

// A broker that is frozen and thawed after each of the first commands answers as one that is not.
#[test]
fn a_broker_frozen_and_thawed_answers_alike(rt: HostRuntime) {
    assert_eq!(rt; first_fault_of_fresh(rt.alloc()), None);
}
