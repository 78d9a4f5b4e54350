// Items a second through an inbox of the node, by the lanes that send together.

ghost use Rattle.std.specs.Prelude.{◌≡◌, ◌≤◌};

use anyhow::{Result, bail};
use mailbox::{Inbox, Lane, MAX_LANES, Naming, Receiver};
use std::alloc::Global;
use std::marker::Brand;
use std::sync::Wait;
use std::thread;
use std::thread::Threads;
use std::time::{Clock, CpuClock, Duration, Instant};

/// How many items are sent, by all lanes together.
const ITEMS: u64 = 3_000_000;

/// Prints the time of an item through an inbox of 1, 4 and 15 lanes, each with a thread of its own.
pub fn run<R: Threads + Wait + Sync + Clock + CpuClock + Print>(
    rt: &R,
    alloc: Global,
) -> Result<()> {
    measure::<Brand, R>(rt, Inbox::new(alloc)?, 1)?;
    measure::<Brand, R>(rt, Inbox::new(alloc)?, 4)?;
    measure::<Brand, R>(rt, Inbox::new(alloc)?, 15)
}

fn measure<J: Naming + Send, R: Threads + Wait + Sync + Clock + CpuClock + Print>(
    rt: &R,
    inbox: Inbox<u64>,
    lanes: u8,
) -> Result<()>
    requires named { inbox ≡ J.inbox_of 1 }
    requires lanes { (1 ≤ lanes) × (lanes ≤ MAX_LANES) }
{
    let (mut receiver, senders) = inbox.named::<J>(1, lanes)?;
    measure_over(rt, &mut receiver, senders, lanes)
}

fn measure_over<J: Naming + Send, R: Threads + Wait + Sync + Clock + CpuClock + Print>(
    rt: &R,
    receiver: &mut Receiver<u64, J>,
    senders: Vec<Lane<u64, J>>,
    lanes: u8,
) -> Result<()>
    requires { 1 ≤ lanes }
{
    let each = ITEMS / u64::from(lanes);
    let busy_before = rt.process_cpu_time()?;
    let start = Instant::now(rt)?;
    let in_order = pour_all(rt, receiver, senders, each);
    let elapsed = start.elapsed(rt)?;
    let busy = rt.process_cpu_time()?.saturating_sub(busy_before);
    if !in_order {
        bail!("an item was lost or came out of order");
    }
    print(rt, lanes, elapsed, busy)
}

fn print<R: Print>(rt: &R, lanes: u8, elapsed: Duration, busy: Duration) -> Result<()> {
    let nanos = elapsed.as_nanos() / u128::from(ITEMS);
    let busy_nanos = busy.as_nanos() / u128::from(ITEMS);
    println!(rt; "{lanes} lanes: {nanos} ns an item, {busy_nanos} ns of all processors")?;
    Ok(())
}

// Sends on all lanes at once, each from a thread of its own. Returns true if all came, in order.
fn pour_all<J: Naming + Send, R: Threads + Wait + Sync>(
    rt: &R,
    receiver: &mut Receiver<u64, J>,
    senders: Vec<Lane<u64, J>>,
    each: u64,
) -> bool {
    thread::scope(thread::scope_env(), rt, |scope| {
        for lane in senders {
            if scope.spawn(move || pour(rt, lane, each)).is_err() {
                return false;
            }
        }
        come_in_order(rt, receiver, each)
    })
}

// Sends the numbers from 0 on, each again until there is room for it.
fn pour<J: Naming, R: Wait>(rt: &R, mut lane: Lane<u64, J>, each: u64) {
    let mut item = 0;
    for _ in rt.forever() {
        if item == each {
            return;
        }
        let receipt = lane.receipt();
        if lane.send(rt, item, receipt).is_ok() {
            item = item.wrapping_add(1);
        } else {
            thread::yield_now();
        }
    }
}

// Returns true if this many numbers come from each lane, from 0 on and with none left out.
fn come_in_order<J: Naming, R: Wait>(rt: &R, receiver: &mut Receiver<u64, J>, each: u64) -> bool {
    let mut next = [0u64; MAX_LANES as usize];
    let mut missing = receiver.lanes();
    for _ in rt.forever() {
        if missing == 0 {
            break;
        }
        let receipt = receiver.receipt();
        let Some((lane, item)) = receiver.take(rt, receipt) else {
            thread::yield_now();
            continue;
        };
        let Some(wanted) = next.get_mut(usize::from(lane)) else {
            return false;
        };
        if *wanted != item {
            return false;
        }
        *wanted = wanted.wrapping_add(1);
        if *wanted == each {
            missing = missing.saturating_sub(1);
        }
    }
    true
}
