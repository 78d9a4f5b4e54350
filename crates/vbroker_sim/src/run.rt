// One run: events are drawn, happen, and are looked at.

use crate::course::Course;
use crate::looking::{look, look_again, note};
use crate::looks::{Broken, Watch};
use crate::opening::Opening;
use crate::options::Options;
use packet_base::ClientId;
use std::alloc::Global;
use world::World;
use world_pipes::events::Event;

/// The result of a run: its events, what does not hold after the last of them, and how far it came.
#[derive(Drop)]
pub struct Run {
    /// The world in which it began.
    pub opening: Opening,
    /// Its events, in order.
    pub events: Vec<Event>,
    /// What does not hold after the last event, if anything.
    pub broken: Option<Broken>,
    /// How far it came.
    pub counts: Counts,
}

/// How far a run came.
#[derive(Clone, Copy)]
pub struct Counts {
    /// How many of its events happened.
    pub happened: u64,
    /// How many commands are agreed.
    pub agreed: u64,
    /// How many messages were sent.
    pub messages: u64,
    /// The active ballot.
    pub ballot: u64,
    /// What all clients accepted.
    pub accepted: u64,
}

impl Counts {
    // Counts what a world shows.
    fn of(world: &World, opening: &Opening, happened: u64) -> Counts {
        let mut accepted: u64 = 0;
        for client in opening.clients.as_slice() {
            if let Some(core) = world.client(client) {
                accepted = accepted.saturating_add(core.accepted().len() as u64);
            }
        }
        Counts {
            happened,
            agreed: world.agreed_len(),
            messages: world.messages(),
            ballot: world.active(),
            accepted,
        }
    }
}

/// Draws the run of a seed, up to the first event after which something does not hold. None if it
/// ran out of memory.
pub fn drawn(alloc: Global, options: &Options, seed: u64) -> Option<Run> {
    let opening = Opening::new(alloc, seed, options.nodes, options.clients)?;
    let mut events = Vec::new(alloc);
    let (broken, counts) = play(alloc, options, seed, &opening, &mut events)?;
    Some(Run {
        opening,
        events,
        broken,
        counts,
    })
}

// Draws events and lets them happen. Returns what does not hold in the end, and how far it came. A
// value with a long drop is lent to functions with several exits, and dropped here
// (`CONTRIBUTING.md`, *Owners*).
fn play(
    alloc: Global,
    options: &Options,
    seed: u64,
    opening: &Opening,
    events: &mut Vec<Event>,
) -> Option<(Option<Broken>, Counts)> {
    match opening.open(alloc) {
        Some(mut world) => {
            let played = play_in(alloc, options, seed, opening, &mut world, events);
            drop(world);
            played
        }
        None => None,
    }
}

// Draws events and lets them happen in a fresh world.
fn play_in(
    alloc: Global,
    options: &Options,
    seed: u64,
    opening: &Opening,
    world: &mut World,
    events: &mut Vec<Event>,
) -> Option<(Option<Broken>, Counts)> {
    let clients = opening.clients.as_slice();
    let mut course = Course::new(alloc, seed, opening.nodes)?;
    let mut watch = Watch::new(alloc, clients.len())?;
    let broken = play_all(
        options.events,
        clients,
        world,
        events,
        &mut course,
        &mut watch,
    );
    let counts = Counts::of(world, opening, course.count());
    drop(course);
    drop(watch);
    Some((broken?, counts))
}

// Draws this many events, up to the first after which something does not hold, and returns what
// that is.
fn play_all(
    count: u64,
    clients: &[ClientId],
    world: &mut World,
    events: &mut Vec<Event>,
    course: &mut Course,
    watch: &mut Watch,
) -> Option<Option<Broken>> {
    for _ in 0..count {
        let event = course.draw_next(world, clients)?;
        let looked = let_happen(&event, clients, world, course, watch);
        events.push(event).ok()?;
        if let Err(broken) = looked? {
            return Some(Some(broken));
        }
    }
    Some(look_again(watch, world)?.err())
}

// Does an event, if it can happen, and returns which property fails then.
fn let_happen(
    event: &Event,
    clients: &[ClientId],
    world: &mut World,
    course: &mut Course,
    watch: &mut Watch,
) -> Option<Result<(), Broken>> {
    if world.step(event).is_err() {
        course.note_idle(event);
        return Some(Ok(()));
    }
    course.note_event(event, clients)?;
    note(watch, event, clients)?;
    look(watch, world, clients)
}

/// Plays the events without those that are left out, and returns what does not hold. None if it ran
/// out of memory.
pub fn replayed(
    alloc: Global,
    opening: &Opening,
    events: &[Event],
    out: &[bool],
) -> Option<Option<Broken>> {
    match opening.open(alloc) {
        Some(mut world) => {
            let clients = opening.clients.as_slice();
            let broken = replayed_in(alloc, clients, &mut world, events, out);
            drop(world);
            broken
        }
        None => None,
    }
}

// Plays them in a fresh world.
fn replayed_in(
    alloc: Global,
    clients: &[ClientId],
    world: &mut World,
    events: &[Event],
    out: &[bool],
) -> Option<Option<Broken>> {
    match Watch::new(alloc, clients.len()) {
        Some(mut watch) => {
            let broken = replay(clients, world, &mut watch, events, out);
            drop(watch);
            broken
        }
        None => None,
    }
}

// Plays them up to the first after which something does not hold.
fn replay(
    clients: &[ClientId],
    world: &mut World,
    watch: &mut Watch,
    events: &[Event],
    out: &[bool],
) -> Option<Option<Broken>> {
    for (event, is_out) in events.iter().zip(out) {
        if !*is_out && world.step(event).is_ok() {
            note(watch, event, clients)?;
            if let Err(broken) = look(watch, world, clients)? {
                return Some(Some(broken));
            }
        }
    }
    Some(look_again(watch, world)?.err())
}
