// Bytes of the messages between nodes, and the time to write and to read one of each kind.

use crate::measures::nanos_each;
use anyhow::Result;
use ballot_base::Message;
use broker_spec::Command;
use links::message_form::{read_message, write_message};
use std::alloc::Global;
use std::time::CpuClock;

/// The byte of which payloads and snapshots are made.
const FILL: u8 = 0x78;

/// Messages, each with how often it is measured: a name, its first bytes, how many equal bytes of a
/// payload or a snapshot follow them, and its last bytes. The Append carries a PUBLISH of 100
/// bytes, the Install a snapshot of 1 MiB and no command.
const MESSAGES: &[(&str, &[u8], usize, &[u8], u32)] = &[
    (
        "NewBallot of three members after three",
        &[
            1, 0, 0, 0, 0, 0, 0, 0, 0, 3, 3, 1, 2, 3, 0, 0, 0, 0, 0, 0, 0, 2, 3, 1, 2, 4,
        ],
        0,
        &[],
        1_000_000,
    ),
    (
        "Join, Installed, Held, Commit",
        &[10, 3, 0, 0, 0, 0, 0, 0, 0, 2, 0, 0, 0, 0, 0, 0, 3, 0xE8],
        0,
        &[],
        1_000_000,
    ),
    (
        "Activate, Activated, Superseded",
        &[6, 3, 0, 0, 0, 0, 0, 0, 0, 2],
        0,
        &[],
        1_000_000,
    ),
    (
        "Append",
        &[
            9, 3, 0, 0, 0, 0, 0, 0, 0, 2, 0, 0, 0, 0, 0, 0, 3, 0xE8, 2, 0, 0, 0, 0, 0, 0, 0, 1, 0,
            0, 0, 0, 0, 0, 0, 2, 0x30, 98, 0, 13, 0x68, 0x6F, 0x75, 0x73, 0x65, 0x2F, 0x6B, 0x69,
            0x74, 0x63, 0x68, 0x65, 0x6E,
        ],
        83,
        &[],
        1_000_000,
    ),
    (
        "State, Install",
        &[
            4, 3, 0, 0, 0, 0, 0, 0, 0, 2, 0, 0, 0, 0, 0, 0, 0, 0, 0, 0, 0, 0, 0, 0x10, 0, 0,
        ],
        1_048_576,
        &[0; 8],
        1_000,
    ),
];

/// Prints the figures of each kind.
pub fn run(rt: &HostRuntime) -> Result<()> {
    for (name, front, filled, end, rounds) in MESSAGES {
        let bytes = message_bytes(rt.alloc(), front, *filled, end)?;
        measure(rt, name, &bytes, *rounds)?;
    }
    Ok(())
}

fn message_bytes(alloc: Global, front: &[u8], filled: usize, end: &[u8]) -> Result<Vec<u8>> {
    let mut bytes = Vec::from_slice(alloc, front)?;
    bytes.resize(front.len().saturating_add(filled), FILL)?;
    bytes.extend_from_slice(end)?;
    Ok(bytes)
}

fn measure(rt: &HostRuntime, name: &str, bytes: &[u8], rounds: u32) -> Result<()> {
    let written = write_time(rt, bytes, rounds)?;
    let read = read_time(rt, bytes, rounds)?;
    let len = bytes.len();
    println!(rt; "{name}: {len} bytes, {written} ns to write, {read} ns to read")?;
    Ok(())
}

fn write_time(rt: &HostRuntime, bytes: &[u8], rounds: u32) -> Result<u128> {
    let message = read_message(rt.alloc(), bytes)?;
    let mut out = Vec::new(rt.alloc());
    let time = time_to_write(rt, &message, rounds, &mut out);
    drop(message);
    time
}

fn time_to_write(
    rt: &HostRuntime,
    message: &Message<Command>,
    rounds: u32,
    out: &mut Vec<u8>,
) -> Result<u128> {
    let start = rt.process_cpu_time()?;
    write_often(message, rounds, out)?;
    nanos_each(rt, start, rounds)
}

fn write_often(message: &Message<Command>, rounds: u32, out: &mut Vec<u8>) -> Result<()> {
    for _ in 0..rounds {
        out.clear();
        write_message(message, out)?;
    }
    Ok(())
}

// Returns the time to read a message, and to drop it.
fn read_time(rt: &HostRuntime, bytes: &[u8], rounds: u32) -> Result<u128> {
    let start = rt.process_cpu_time()?;
    read_often(rt.alloc(), rounds, bytes)?;
    nanos_each(rt, start, rounds)
}

fn read_often(alloc: Global, rounds: u32, bytes: &[u8]) -> Result<()> {
    for _ in 0..rounds {
        drop(read_message(alloc, bytes)?);
    }
    Ok(())
}
