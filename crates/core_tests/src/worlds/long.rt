// Twenty thousand events by a fixed rule, over three nodes and four clients.

use crate::worlds::course::{CLIENTS, Course, crash_primary, step_next};
use crate::worlds::opening::{named, opened_for};
use client_base::Accepted;
use packet_base::QoS;
use std::alloc::Global;
use world::World;

const EVENTS: u32 = 20_000;

// After this many events the active primary crashes as soon as it may, and after twice as many the
// next one.
const UNTIL_A_CRASH: u32 = 8_000;

// What a world and its run show: how many events were tried, how many losses were counted, whether
// the agreed list never became shorter, which ballot is active, how many cuts there were, and how
// many places are agreed.
#[derive(Clone, Copy, Debug, PartialEq, Eq)]
struct Shown {
    events: u64,
    losses: u64,
    only_grows: bool,
    ballot: u64,
    cuts: u64,
    agreed: u64,
}

// Why the run fails.
#[derive(Clone, Copy, Debug, PartialEq, Eq)]
enum Fault {
    // There was no memory for the world.
    NoMemory,
    // This step fails, and the world shows this then.
    Step(&'static str, Shown),
    // This client did not take over 100 publications, each once.
    Client(&'static str),
}

// Returns true if all events come, two primaries crash, nothing is lost, and the agreed list only
// grows.
fn let_all_come(alloc: Global, world: &mut World, course: &mut Course) -> bool {
    let mut crashed = 0;
    for count in 0..EVENTS {
        if crashed < 2 && count / UNTIL_A_CRASH > crashed && crash_primary(world, course) {
            crashed += 1;
        } else if !step_next(alloc, world, course) {
            return false;
        }
    }
    crashed == 2 && world.losses() == 0 && course.only_grows
}

// Returns true if a client accepted publications at QoS 2 all in one session, each once: those of
// each publisher in the order in which it made them. What was retained comes again with each
// subscription (MQTT 3.3.1.3).
fn took_each_once(alloc: Global, world: &World, client: &str) -> bool {
    let Some(name) = named(alloc, client) else {
        return false;
    };
    let Some(core) = world.client(&name) else {
        return false;
    };
    let mut last = [None; 4];
    let mut count = 0u32;
    for accepted in core.accepted() {
        if !is_new(accepted, &mut last, &mut count) {
            return false;
        }
    }
    count > 100
}

// Returns true if a publication that was accepted is newer than the ones before it of the same
// publisher.
fn is_new(accepted: &Accepted, last: &mut [Option<u64>; 4], count: &mut u32) -> bool {
    if accepted.retain || accepted.qos != QoS::ExactlyOnce {
        return true;
    }
    let [publisher, upper, lower] = accepted.payload.as_slice() else {
        return false;
    };
    let Some(before) = last.get_mut(*publisher as usize) else {
        return false;
    };
    let serial = Some(u64::from(*upper) * 256 + u64::from(*lower));
    let is_newer = *before < serial;
    *before = serial;
    *count = count.saturating_add(1);
    is_newer && accepted.session == 1
}

// Returns the first client that did not take over 100 publications, each once.
fn first_fault_of_clients(alloc: Global, world: &World) -> Option<Fault> {
    for client in CLIENTS {
        if !took_each_once(alloc, world, client) {
            return Some(Fault::Client(client));
        }
    }
    None
}

// Returns what a world and its run show.
fn shown_by(world: &World, course: &Course) -> Shown {
    Shown {
        events: course.events,
        losses: world.losses(),
        only_grows: course.only_grows,
        ballot: world.active(),
        cuts: course.cuts,
        agreed: world.agreed_len(),
    }
}

// Checks a world after the run, with many takeovers and many cuts. Returns the first step that
// fails, in words.
fn first_step(all_came: bool, world: &World, course: &Course) -> Option<&'static str> {
    if !all_came {
        Some("all events come, two primaries crash, nothing is lost, the list grows")
    } else if world.active() <= 20 {
        Some("there are over 20 ballots")
    } else if course.cuts <= 50 {
        Some("there are over 50 cuts")
    } else if world.agreed_len() <= 1_000 {
        Some("over 1,000 places are agreed")
    } else {
        None
    }
}

// Does all events of the run. Returns the first step that fails, with the state of the world then,
// or the first client that did not accept each publication once.
fn first_fault(alloc: Global, world: &mut World) -> Option<Fault> {
    let mut course = Course::new();
    let all_came = let_all_come(alloc, world, &mut course);
    match first_step(all_came, world, &course) {
        Some(step) => Some(Fault::Step(step, shown_by(world, &course))),
        None => first_fault_of_clients(alloc, world),
    }
}

// Returns the first step that fails with the world that the run begins in.
fn first_fault_from_the_opening(alloc: Global) -> Option<Fault> {
    match opened_for(alloc, 3, &[1, 2, 3], &CLIENTS) {
        Some(mut world) => {
            let fault = first_fault(alloc, &mut world);
            drop(world);
            fault
        }
        None => Some(Fault::NoMemory),
    }
}

// Each client accepts each publication at QoS 2 once, whatever comes late, again or never, while
// two of three nodes crash, other configurations take over and logs are cut. The agreed list never
// becomes shorter, and nothing is lost.
#[test]
fn whatever_happens_each_is_taken_in_once(rt: HostRuntime) {
    assert_eq!(rt; first_fault_from_the_opening(rt.alloc()), None);
}
