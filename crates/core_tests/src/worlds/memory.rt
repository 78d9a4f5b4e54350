// Memory that is refused, in the events of the script `answer_waits_for_the_backup` of the folder
// `examples`, and in a cut of the primary's log after them. `tools/refused-memory` lets each
// allocation of a test fail in turn; in the gate none fails. A step that runs out of memory counts
// a loss, and otherwise all comes as usual.

use crate::worlds::opening::{named, opened};
use std::alloc::Global;
use world::World;
use world_pipes::events::Event;

// How many messages were sent and commands are agreed after each event.
const WANTED: &[(u64, u64)] = &[(0, 0), (1, 0), (2, 1), (3, 1), (3, 1), (3, 1)];

// Returns these events: a CONNECT of 15 bytes goes up, and a CONNACK of 4 bytes comes down once the
// backup holds it.
fn events(alloc: Global) -> Option<Vec<Event>> {
    let mut events = Vec::new(alloc);
    put_events(alloc, &mut events)?;
    Some(events)
}

// Adds them. The list is lent, so that no early return has to drop it.
fn put_events(alloc: Global, events: &mut Vec<Event>) -> Option<()> {
    events.push(Event::Open(named(alloc, "a")?, 1)).ok()?;
    events.push(Event::CarryUp(1, 15)).ok()?;
    events.push(Event::Deliver(0)).ok()?;
    events.push(Event::Deliver(1)).ok()?;
    events.push(Event::CarryDown(1, 4)).ok()?;
    events.push(Event::Cut(1)).ok()
}

// Does an event. Returns true if it happens and leads here, and if the agreed list did not become
// shorter.
fn step_and_compare(world: &mut World, event: &Event, wanted: &(u64, u64)) -> (bool, bool) {
    let before = world.agreed_len();
    let happened = world.step(event).is_ok();
    let agreed = world.agreed_len();
    let leads_here = (world.messages(), agreed) == *wanted;
    (happened && leads_here, before <= agreed)
}

// Returns true if all comes as usual or a loss is counted; the agreed list never becomes shorter.
fn is_whole_or_counted(world: &mut World, events: &[Event]) -> bool {
    let mut is_whole = true;
    let mut only_grows = true;
    for (event, wanted) in events.iter().zip(WANTED) {
        let (goes, grows) = step_and_compare(world, event, wanted);
        is_whole = is_whole && goes;
        only_grows = only_grows && grows;
    }
    only_grows
        && match world.losses() {
            0 => is_whole,
            losses => losses == 1,
        }
}

// Returns true if the client accepted nothing, and was accepted if nothing was lost.
fn took_nothing(alloc: Global, world: &World) -> bool {
    let Some(name) = named(alloc, "a") else {
        return true;
    };
    match world.client(&name) {
        Some(core) => { core.accepted().is_empty() && (core.connected() || world.losses() == 1) }
        None => false,
    }
}

// Returns true if all comes as usual or a loss is counted, and the client accepted nothing.
fn is_well(alloc: Global, world: &mut World) -> bool {
    match events(alloc) {
        Some(events) => {
            is_whole_or_counted(world, events.as_slice()) && took_nothing(alloc, world)
        }
        None => true,
    }
}

// What a world shows: how many losses were counted, how many messages were sent, and how many
// commands are agreed.
type Shown = (u64, u64, u64);

// Returns what a world shows in the end, unless all came as usual or a loss was counted.
fn shown_unless_well(alloc: Global, world: &mut World) -> Option<Shown> {
    if is_well(alloc, world) {
        None
    } else {
        Some((world.losses(), world.messages(), world.agreed_len()))
    }
}

// Returns what a world from its opening shows in the end, unless all came as usual or a loss was
// counted. If memory runs out for the world, or for the events, nothing is asked of it.
fn shown_from_the_opening(alloc: Global) -> Option<Shown> {
    match opened(alloc, 2, &[1, 2]) {
        Some(mut world) => {
            let shown = shown_unless_well(alloc, &mut world);
            drop(world);
            shown
        }
        None => None,
    }
}

#[test]
fn what_finds_no_memory_is_counted(rt: HostRuntime) {
    assert_eq!(rt; shown_from_the_opening(rt.alloc()), None);
}
