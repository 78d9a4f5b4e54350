// How a long run of events by a fixed rule continues.

use crate::worlds::opening::{config_of, named};
use packet_base::{ClientId, Payload, QoS};
use rows::Numbers;
use session_base::Publication;
use std::alloc::Global;
use topics::{Filter, TopicName};
use world::World;
use world_pipes::events::Event;

/// The clients of the run.
pub const CLIENTS: [&str; 4] = ["a", "b", "c", "d"];

const TOPICS: [&str; 3] = ["t/1", "t/2", "u"];

const FILTERS: [&str; 4] = ["t/#", "#", "t/1", "+"];

// After this many events a node cuts its log, each in turn.
const UNTIL_A_CUT: u64 = 61;

/// How far the run has come.
#[derive(Drop)]
pub struct Course {
    /// What is drawn.
    pub numbers: Numbers,
    /// The message that comes next.
    pub next: u64,
    /// How many publications were tried; each carries its number.
    pub published: u64,
    /// How many connections were opened.
    pub opened: u64,
    /// The last connection of each client.
    pub last: [u64; 4],
    /// How many ballots were given.
    pub given: u64,
    /// Whether each node runs.
    pub runs: [bool; 3],
    /// How many events were tried.
    pub events: u64,
    /// How often a log was cut after an event.
    pub cuts: u64,
    /// Whether the agreed list never became shorter.
    pub only_grows: bool,
}

impl Course {
    /// Returns the course of three nodes in ballot 1.
    pub fn new() -> Course {
        Course {
            numbers: Numbers::new(30),
            next: 0,
            published: 0,
            opened: 0,
            last: [0; 4],
            given: 1,
            runs: [true; 3],
            events: 0,
            cuts: 0,
            only_grows: true,
        }
    }

    // Draws the next number.
    fn draw(&mut self) -> u64 {
        self.numbers.next()
    }

    // Draws a connection, mostly the last one of a client.
    fn connection(&mut self) -> u64 {
        let client = (self.draw() % 4) as usize;
        let number = self.draw();
        if number % 16 == 0 {
            number / 16 % self.opened.saturating_add(2)
        } else {
            self.last[client]
        }
    }

    // Returns how many bytes are carried if this many wait: mostly all, otherwise some, none or one
    // too many.
    fn share(&mut self, waiting: &[u8]) -> u64 {
        let waiting = waiting.len() as u64;
        let number = self.draw();
        if number % 4 == 0 {
            number / 4 % waiting.saturating_add(2)
        } else {
            waiting
        }
    }

    // Returns true if many messages wait to come.
    fn is_behind(&self, world: &World) -> bool {
        self.next.saturating_add(64) < world.messages()
    }
}

// Does an event, which may be idle, and compares what is agreed after it. Takes the event, so that
// the drop of one is proved here alone.
fn step(world: &mut World, course: &mut Course, event: Event) -> bool {
    let before = world.agreed_len();
    let happened = world.step(&event).is_ok();
    drop(event);
    course.events = course.events.saturating_add(1);
    if course.events % UNTIL_A_CUT == 0 {
        cut_next(world, course);
    }
    course.only_grows = course.only_grows && before <= world.agreed_len();
    happened
}

// Cuts the log of the next node, if it has something to cut.
fn cut_next(world: &mut World, course: &mut Course) {
    let node = (course.events / UNTIL_A_CUT % 3) as u8 + 1;
    let cut = Event::Cut(node);
    if world.step(&cut).is_ok() {
        course.cuts = course.cuts.saturating_add(1);
    }
    drop(cut);
}

/// Does the next event of the rule, which may be idle. Returns false if memory ran out.
pub fn step_next(alloc: Global, world: &mut World, course: &mut Course) -> bool {
    let number = course.draw() % 128;
    if number < 32 || course.is_behind(world) {
        deliver(world, course);
        return true;
    }
    match number {
        32..=53 => carry_up(world, course),
        54..=79 => carry_down(world, course),
        80 => notice(world, course),
        81..=86 => tick(world, course),
        87 => return assign(alloc, world, course),
        _ => return call(alloc, world, course, number),
    }
    true
}

// Delivers the next message; one in 32 is lost, and one in 8 is delivered again.
fn deliver(world: &mut World, course: &mut Course) {
    let number = course.draw();
    if number % 8 == 0 {
        let early = number / 8 % world.messages().saturating_add(1);
        step(world, course, Event::Deliver(early));
        return;
    }
    if number % 32 == 1 && course.next < world.messages() {
        course.next = course.next.saturating_add(1);
    }
    let next = course.next;
    if next < world.messages() {
        course.next = next.saturating_add(1);
    }
    step(world, course, Event::Deliver(next));
}

fn carry_up(world: &mut World, course: &mut Course) {
    let connection = course.connection();
    let count = course.share(world.up(connection));
    step(world, course, Event::CarryUp(connection, count));
}

fn carry_down(world: &mut World, course: &mut Course) {
    let connection = course.connection();
    let count = course.share(world.down(connection));
    step(world, course, Event::CarryDown(connection, count));
}

fn notice(world: &mut World, course: &mut Course) {
    let connection = course.connection();
    step(world, course, Event::Notice(connection));
}

fn tick(world: &mut World, course: &mut Course) {
    let node = (course.draw() % 5) as u8;
    step(world, course, Event::Tick(node));
}

// Assigns the next ballot to some of the running nodes, one time of four. Returns false if memory
// ran out.
fn assign(alloc: Global, world: &mut World, course: &mut Course) -> bool {
    if course.draw() % 4 != 0 {
        return true;
    }
    // Most of them: a bit of two drawn ones is set.
    let bits = course.draw() | course.draw();
    let Some(members) = members_of(alloc, course.runs, bits) else {
        return false;
    };
    let ballot = course.given.saturating_add(1);
    let primary = primary_of(ballot, members.as_slice());
    let Some(config) = config_of(alloc, members.as_slice(), primary) else {
        return false;
    };
    if step(world, course, Event::Assign(config)) {
        course.given = ballot;
    }
    true
}

// Returns those of the running nodes whose bit is set.
fn members_of(alloc: Global, runs: [bool; 3], bits: u64) -> Option<Vec<u8>> {
    let mut members = Vec::new(alloc);
    for at in 0..3u8 {
        if runs[at as usize] && bits >> at & 1 == 1 {
            members.push(at + 1).ok()?;
        }
    }
    Some(members)
}

// Returns the primary of a ballot of these members: each in turn.
fn primary_of(ballot: u64, members: &[u8]) -> u8 {
    if members.is_empty() {
        return 0;
    }
    members[(ballot % members.len() as u64) as usize]
}

// Returns the active primary.
fn active_primary(world: &World) -> u8 {
    primary_of(world.active(), world.active_members())
}

/// Crashes the active primary, if no ballot waits and another of its members runs. Returns whether
/// it crashed.
pub fn crash_primary(world: &mut World, course: &mut Course) -> bool {
    let node = active_primary(world);
    if node == 0 || node > 3 || !is_one_left(world, course, node) {
        return false;
    }
    let crashed = step(world, course, Event::Crash(node));
    course.runs[node as usize - 1] = false;
    crashed
}

// Returns true if no ballot waits, and a member of the active one other than this one runs.
fn is_one_left(world: &World, course: &Course, node: u8) -> bool {
    world.active() == course.given
        && world
            .active_members()
            .iter()
            .any(|member| *member != node && runs(course, *member))
}

// Returns true if a node runs.
fn runs(course: &Course, node: u8) -> bool {
    matches!(
        course.runs.get((node as usize).saturating_sub(1)),
        Some(true)
    )
}

// Makes a call of a client, by a number of the rule. Returns false if memory ran out.
fn call(alloc: Global, world: &mut World, course: &mut Course, number: u64) -> bool {
    let client = (course.draw() % 4) as usize;
    let Some(name) = named(alloc, CLIENTS[client]) else {
        return false;
    };
    match number {
        88..=99 => open(world, course, client, name, active_primary(world)),
        100 => open(world, course, client, name, 2),
        101 | 102 => let_happen(world, course, Event::Abandon(name)),
        103 => let_happen(world, course, Event::Disconnect(name)),
        _ => return say(alloc, world, course, client, name),
    }
    true
}

fn let_happen(world: &mut World, course: &mut Course, event: Event) {
    step(world, course, event);
}

fn open(world: &mut World, course: &mut Course, client: usize, name: ClientId, node: u8) {
    if client < 4 && step(world, course, Event::Open(name, node)) {
        course.opened = course.opened.saturating_add(1);
        course.last[client] = course.opened;
    }
}

// Makes a call of a client that sends a packet, mostly a PUBLISH. Returns false if memory ran out.
fn say(
    alloc: Global,
    world: &mut World,
    course: &mut Course,
    client: usize,
    name: ClientId,
) -> bool {
    let number = course.draw();
    let Some(event) = said(alloc, number, course.published, client, name) else {
        return false;
    };
    course.published = course.published.saturating_add(1);
    step(world, course, event);
    true
}

// Returns the event of what a client says, by a number of the rule.
fn said(alloc: Global, number: u64, serial: u64, client: usize, name: ClientId) -> Option<Event> {
    match number % 16 {
        0..=3 => Some(Event::Subscribe(name, filter(alloc, number)?, qos(number / 64))),
        4 => Some(Event::Unsubscribe(name, filter(alloc, number)?)),
        _ => Some(Event::Publish(name, publication(alloc, number, serial, client)?)),
    }
}

fn filter(alloc: Global, number: u64) -> Option<Filter> {
    Filter::new(alloc, FILTERS[(number / 16 % 4) as usize]).ok()
}

// Returns the QoS of a number: mostly QoS 2.
fn qos(number: u64) -> QoS {
    match number % 8 {
        0 => QoS::AtMostOnce,
        1 => QoS::AtLeastOnce,
        _ => QoS::ExactlyOnce,
    }
}

// Returns a publication that carries who made it, and its number.
fn publication(alloc: Global, number: u64, serial: u64, client: usize) -> Option<Publication> {
    let payload = [
        (client % 4) as u8,
        (serial / 256 % 256) as u8,
        (serial % 256) as u8,
    ];
    Some(Publication {
        retain: number / 1024 % 16 == 0,
        qos: qos(number / 64),
        topic: TopicName::new(alloc, TOPICS[(number / 16 % 3) as usize]).ok()?,
        payload: Payload::new(alloc, &payload).ok()?,
    })
}
