// An inbox whose lanes send at once, each in a thread of its own.

ghost use Rattle.std.specs.Prelude.{◌≡◌};

use super::acts::take;
use mailbox::{Inbox, Lane, Naming, Receiver};
use std::marker::Brand;
use std::process::Abort;
use std::sync::Wait;
use std::test::Fail;
use std::thread;
use std::thread::Threads;

const POURED: u64 = 100_000;

// Sends the numbers from 0 on, each again until there is room for it.
fn pour<J: Naming, R: Wait>(rt: &R, lane: &mut Lane<u64, J>) {
    let mut item = 0;
    for _ in rt.forever() {
        if item == POURED {
            return;
        }
        let receipt = lane.receipt();
        if lane.send(rt, item, receipt).is_ok() {
            item = item.wrapping_add(1);
        } else {
            thread::yield_now();
        }
    }
}

// An item that is not in order: its lane, its number, and the one that was to come of that lane;
// none if no item was to come.
type Stray = (u8, u64, Option<u64>);

// Returns the first item that is not the next number of its lane, of four lanes whose numbers come
// from 0 on with none left out.
fn first_fault_of_four<J: Naming, R: Wait>(
    rt: &R,
    receiver: &mut Receiver<u64, J>,
) -> Option<Stray> {
    let mut next = [0u64; 4];
    for _ in rt.forever() {
        if next == [POURED; 4] {
            break;
        }
        let Some((lane, item)) = take(rt, receiver) else {
            thread::yield_now();
            continue;
        };
        let Some(wanted) = next.get_mut(usize::from(lane)) else {
            return Some((lane, item, None));
        };
        if *wanted != item {
            return Some((lane, item, Some(*wanted)));
        }
        *wanted = wanted.wrapping_add(1);
    }
    let (lane, item) = take(rt, receiver)?;
    Some((lane, item, None))
}

// Sends all numbers by two lanes at once.
fn pour_two<J: Naming + Send, R: Threads + Wait + Sync>(
    rt: &R,
    first: &mut Lane<u64, J>,
    second: &mut Lane<u64, J>,
) {
    thread::join(rt, || pour(rt, first), || pour(rt, second));
}

// Sends on two lanes while what four send is taken. Returns the first item that does not come in
// order.
fn pour_and_take<J: Naming + Send, R: Threads + Wait + Sync>(
    rt: &R,
    receiver: &mut Receiver<u64, J>,
    first: &mut Lane<u64, J>,
    second: &mut Lane<u64, J>,
) -> Option<Stray> {
    let ((), fault) = thread::join(
        rt,
        || pour_two(rt, first, second),
        || first_fault_of_four(rt, receiver),
    );
    fault
}

// Returns the first item that does not come in order, of those that four lanes send at once, each
// in a thread of its own; number 0 of lane 4 if there was no memory for the lanes.
fn pour_four<J: Naming + Send, R: Threads + Wait + Sync + Abort>(
    rt: &R,
    inbox: Inbox<u64>,
) -> Option<Stray>
    requires { inbox ≡ J.inbox_of 1 }
{
    let Ok((mut receiver, mut lanes)) = inbox.named::<J>(1, 4) else {
        return Some((4, 0, None));
    };
    let mut fourth = lanes.pop().expect(rt, "four lanes");
    let mut third = lanes.pop().expect(rt, "four lanes");
    let mut second = lanes.pop().expect(rt, "four lanes");
    let mut first = lanes.pop().expect(rt, "four lanes");
    let ((), fault) = thread::join(
        rt,
        || pour_two(rt, &mut first, &mut second),
        || pour_and_take(rt, &mut receiver, &mut third, &mut fourth),
    );
    fault
}

#[test]
fn four_lanes_arrive_whole_once_and_in_order(rt: HostRuntime) -> Result<(), Fail> {
    let inbox = Inbox::new(rt.alloc())?;
    let fault = pour_four::<Brand, HostRuntime>(&rt, inbox);
    assert_eq!(rt; fault, None);
    Ok(())
}
