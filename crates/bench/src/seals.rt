// The time to seal and to open a frame between nodes.

ghost use Rattle.std.specs.Prelude.{◌<◌, ◌^◌, length};

use crate::measures::nanos_each;
use anyhow::{Result, ensure};
use links::seal::{FrameReader, Opener, Sealer};
use std::time::CpuClock;

/// The key of the frames.
const KEY: [u8; 32] = [7; 32];

/// Bytes of a frame beside its own.
const AROUND: usize = 20;

/// Prints the figures of frames of 100 bytes and of 64 KiB.
pub fn run(rt: &HostRuntime) -> Result<()> {
    let frame = [5u8; 100];
    measure(rt, &frame, 100_000)?;
    let frame = vec![in rt.alloc(); 5u8; 65_536]?;
    measure(rt, &frame, 1_000)
}

fn measure(rt: &HostRuntime, frame: &[u8], rounds: u32) -> Result<()>
    requires { length frame.now < 2 ^ 32 }
{
    let mut out = Vec::new(rt.alloc());
    let start = rt.process_cpu_time()?;
    seal_often(frame, rounds, &mut out)?;
    let sealed = nanos_each(rt, start, rounds)?;
    let mut reader = FrameReader::new(rt.alloc(), Opener::new(KEY), frame.len());
    let start = rt.process_cpu_time()?;
    open_all(&mut reader, &out, frame.len() + AROUND)?;
    let opened = nanos_each(rt, start, rounds)?;
    let bytes = frame.len();
    println!(rt; "{bytes} bytes: {sealed} ns to seal, {opened} ns to open")?;
    Ok(())
}

fn seal_often(frame: &[u8], rounds: u32, out: &mut Vec<u8>) -> Result<()>
    requires { length frame.now < 2 ^ 32 }
{
    let mut sealer = Sealer::new(KEY);
    for _ in 0..rounds {
        sealer.write(frame, out)?;
    }
    Ok(())
}

fn open_all(reader: &mut FrameReader, bytes: &[u8], len: usize) -> Result<()> {
    for part in bytes.chunks(len.max(1)) {
        reader.feed(part)?;
        ensure!(reader.next()?.is_some(), "a frame is not whole");
    }
    Ok(())
}
