// Many changes of the configuration.

use crate::worlds::opening::{config_of, opened};
use std::alloc::Global;
use world::World;
use world_pipes::events::Event;

// How often the configuration changes.
const CHANGES: u64 = 200;

// Delivers all messages from this one on in the order of sending, at most a hundred, with those
// that they lead to.
fn deliver_from(world: &mut World, first: u64) {
    for count in 0..100 {
        let number = first.saturating_add(count);
        if number < world.messages() {
            let _ = world.step(&Event::Deliver(number));
        }
    }
}

// What a change leads to: whether its ballot was given, which one is active, how many commands are
// agreed, and how many losses were counted.
type Shown = (bool, u64, u64, u64);

// Why changes fail.
#[derive(Clone, Copy, Debug, PartialEq, Eq)]
enum Fault {
    // There was no memory for a world or a configuration.
    NoMemory,
    // The change at this index was to lead to the first of these, and leads to the second.
    Change(u64, Shown, Shown),
}

// Assigns a new ballot with this primary to members 1, 2 and 3. Returns the result; none if there
// was no memory for the configuration.
fn change_primary(alloc: Global, world: &mut World, primary: u8) -> Option<Shown> {
    let first = world.messages();
    let Some(config) = config_of(alloc, &[1, 2, 3], primary) else {
        return None;
    };
    let assign = Event::Assign(config);
    let is_given = world.step(&assign).is_ok();
    drop(assign);
    deliver_from(world, first);
    Some((is_given, world.active(), world.agreed_len(), world.losses()))
}

// Changes the primary. Returns what that leads to, if its ballot does not become active, does not
// add one command to the agreed list, or something was lost.
fn fault_of(alloc: Global, world: &mut World, change: u64, primary: u8) -> Option<Fault> {
    let wanted: Shown = (true, change.saturating_add(2), change.saturating_add(1), 0);
    match change_primary(alloc, world, primary) {
        Some(shown) if shown == wanted => None,
        Some(shown) => Some(Fault::Change(change, wanted, shown)),
        None => Some(Fault::NoMemory),
    }
}

// Returns the first change that fails, and what it leads to. The primary is node 2, 3, 1 in turn.
fn first_fault(alloc: Global, world: &mut World) -> Option<Fault> {
    for change in 0..CHANGES {
        let primary = (change.saturating_add(1) % 3) as u8 + 1;
        let fault = fault_of(alloc, world, change, primary);
        if fault.is_some() {
            return fault;
        }
    }
    None
}

// Returns the first change that fails in a world of three nodes.
fn first_fault_of_three(alloc: Global) -> Option<Fault> {
    match opened(alloc, 3, &[1, 2, 3]) {
        Some(mut world) => {
            let fault = first_fault(alloc, &mut world);
            drop(world);
            fault
        }
        None => Some(Fault::NoMemory),
    }
}

// Each ballot that is active adds one command to the agreed list, and no event loses anything.
#[test]
fn configurations_change_many_times(rt: HostRuntime) {
    assert_eq!(rt; first_fault_of_three(rt.alloc()), None);
}

// Returns the messages, the losses and the active ballot after a run of events that passes over the
// idle ones; none if there is no memory for its configuration.
fn after_idle(alloc: Global, world: &mut World) -> Option<(u64, u64, u64)> {
    let config = config_of(alloc, &[1, 2], 2)?;
    world.run(&[
        Event::Deliver(0),
        Event::Assign(config),
        Event::Tick(9),
        Event::Deliver(0),
        Event::Deliver(7),
        Event::Deliver(1),
    ]);
    Some((world.messages(), world.losses(), world.active()))
}

// Returns the same of a world of two nodes.
fn after_idle_of_two(alloc: Global) -> Option<(u64, u64, u64)> {
    match opened(alloc, 2, &[1]) {
        Some(mut world) => {
            let after = after_idle(alloc, &mut world);
            drop(world);
            after
        }
        None => None,
    }
}

#[test]
fn a_run_passes_over_idle_events(rt: HostRuntime) {
    assert_eq!(rt; after_idle_of_two(rt.alloc()), Some((3, 0, 1)));
}
