// How a run continues: which event is drawn next.

use crate::draw::Draw;
use crate::saying::{published, subscribed, unsubscribed};
use ballot_base::{Config, Members};
use packet_base::ClientId;
use std::alloc::Global;
use world::World;
use world_pipes::events::Event;

/// What a run knows about the world that it goes through.
#[derive(Drop)]
pub struct Course {
    // The allocator of events.
    alloc: Global,
    // Draws the events.
    draw: Draw,
    // How many nodes there are, numbered from 1.
    nodes: u8,
    // The message that comes next.
    next: u64,
    // How many subscriptions were drawn.
    asked: u64,
    // How many publications were drawn; each carries its number.
    serial: u64,
    // How many connections were opened.
    opened: u64,
    // At the index of each client its last connection, and the one before; 0 if there is none.
    last: Vec<(u64, u64)>,
    // The last connection on which bytes could not be carried.
    closed: u64,
    // The primary of each ballot that was given, from ballot 1 on.
    primaries: Vec<u8>,
    // The nodes that crashed.
    crashed: Vec<u8>,
    // How many events happened.
    count: u64,
}

impl Course {
    /// Begins the run of a seed, in a world whose ballot 1 has node 1 as its primary. None if it
    /// ran out of memory.
    pub fn new(alloc: Global, seed: u64, nodes: u8) -> Option<Course> {
        let mut primaries = Vec::new(alloc);
        primaries.push(1).ok()?;
        Some(Course {
            alloc,
            draw: Draw::new(seed),
            nodes,
            next: 0,
            asked: 0,
            serial: 0,
            opened: 0,
            last: Vec::new(alloc),
            closed: 0,
            primaries,
            crashed: Vec::new(alloc),
            count: 0,
        })
    }

    /// Returns how many events happened.
    pub fn count(&self) -> u64 {
        self.count
    }

    /// Draws the next event: mostly one that continues what is in transit, now and then one that
    /// disturbs. None if it ran out of memory.
    pub fn draw_next(&mut self, world: &World, clients: &[ClientId]) -> Option<Event> {
        let index = (self.draw.below(clients.len() as u64) % 256) as u8;
        let name = clients.get(index as usize)?;
        match self.draw.below(100) {
            0 => self.draw_change(world),
            1 => Some(Event::Cut(self.node())),
            2 => Some(Event::Tick(self.node())),
            3 => Some(Event::Notice(self.connection(index))),
            4..=6 => self.draw_leaving(world, name),
            7 => self.draw_connecting(world, name),
            8..=19 => self.draw_saying(world, name, index),
            _ => self.draw_continuing(world, name, index),
        }
    }

    /// Takes note of an event that happened. None if it ran out of memory.
    pub fn note_event(&mut self, event: &Event, clients: &[ClientId]) -> Option<()> {
        self.count = self.count.saturating_add(1);
        match event {
            Event::Assign(config) => self.primaries.push(config.primary).ok(),
            Event::Crash(node) => self.crashed.push(*node).ok(),
            Event::Open(client, _) => {
                let index = clients.iter().position(|name| name == client)?;
                self.note_opened(index)
            }
            _ => Some(()),
        }
    }

    /// Takes note of an event that could not happen.
    pub fn note_idle(&mut self, event: &Event) {
        match event {
            Event::CarryUp(connection, _) | Event::CarryDown(connection, _) => {
                self.closed = *connection;
            }
            _ => {}
        }
    }

    // Notes a new connection as the last one of a client.
    fn note_opened(&mut self, index: usize) -> Option<()> {
        self.opened = self.opened.saturating_add(1);
        for _ in self.last.len()..=index {
            self.last.push((0, 0)).ok()?;
        }
        if let Some(last) = self.last.get_mut(index) {
            *last = (self.opened, last.0);
        }
        Some(())
    }

    // Draws a node.
    fn node(&mut self) -> u8 {
        ((self.draw.below(u64::from(self.nodes)) % 256) as u8).saturating_add(1)
    }

    // Draws a connection: mostly the last one of a client, now and then the one before, or any one,
    // also one that does not exist.
    fn connection(&mut self, index: u8) -> u64 {
        let (last, before) = self.last.get(index as usize).copied().unwrap_or((0, 0));
        match self.draw.below(12) {
            0 => self.draw.below(self.opened.saturating_add(2)),
            1 | 2 => before,
            _ => last,
        }
    }

    // Draws an event that continues what is in transit: a message between nodes, or bytes of a
    // connection. If nothing is in transit, something begins.
    fn draw_continuing(&mut self, world: &World, name: &ClientId, index: u8) -> Option<Event> {
        let connection = self.connection(index);
        let waits = self.next < world.messages();
        if waits && self.draw.one_in(2) {
            return Some(self.draw_delivery(world));
        }
        if connection == self.closed {
            return self.draw_return(world, name);
        }
        let (up, down) = (world.up(connection).len(), world.down(connection).len());
        if up > 0 && (down == 0 || self.draw.one_in(2)) {
            return Some(Event::CarryUp(connection, self.share(up)));
        }
        if down > 0 {
            return Some(Event::CarryDown(connection, self.share(down)));
        }
        if waits {
            return Some(self.draw_delivery(world));
        }
        self.draw_beginning(world, name, index)
    }

    // Draws what a client that is served says, or how one that is not comes back. Now and then one
    // that is served comes back, too.
    fn draw_beginning(&mut self, world: &World, name: &ClientId, index: u8) -> Option<Event> {
        if !is_served(world, name) || self.draw.one_in(16) {
            self.draw_return(world, name)
        } else {
            self.draw_saying(world, name, index)
        }
    }

    // Draws how a client comes back: it opens a connection, or first gives up the one that it has.
    // Now and then the active primary gets the time instead, or a change of the nodes is drawn.
    fn draw_return(&mut self, world: &World, name: &ClientId) -> Option<Event> {
        match self.draw.below(32) {
            0 => self.draw_change(world),
            1..=4 => Some(Event::Tick(self.active_primary(world))),
            5..=14 => Some(Event::Abandon(name.clone().ok()?)),
            _ => self.draw_connecting(world, name),
        }
    }

    // Returns how many bytes are carried: mostly all that wait, otherwise some of them, none, or
    // one too many.
    fn share(&mut self, waiting: usize) -> u64 {
        let waiting = waiting as u64;
        if self.draw.one_in(4) {
            self.draw.below(waiting.saturating_add(2))
        } else {
            waiting
        }
    }

    // Draws the delivery of the next message. Some messages are skipped, and some come again, or
    // late.
    fn draw_delivery(&mut self, world: &World) -> Event {
        if self.draw.one_in(10) {
            return Event::Deliver(self.draw.below(world.messages().saturating_add(1)));
        }
        if self.draw.one_in(40) {
            self.next = self.next.saturating_add(1).min(world.messages());
        }
        let next = self.next;
        self.next = next.saturating_add(1).min(world.messages());
        Event::Deliver(next)
    }

    // Draws the crash of a node, or a next ballot of most of the nodes that run.
    fn draw_change(&mut self, world: &World) -> Option<Event> {
        let node = self.node();
        if self.draw.one_in(3) && self.may_crash(world, node) {
            return Some(Event::Crash(node));
        }
        let members = self.members()?;
        let at = self.draw.below(members.len() as u64);
        let primary = members.get(at as usize).copied().unwrap_or(1);
        let members = Members::from_slice(self.alloc, members.as_slice()).ok()?;
        Some(Event::Assign(Config { members, primary }))
    }

    // Returns true if a node may crash: it runs, and so does another member of the active ballot.
    fn may_crash(&self, world: &World, node: u8) -> bool {
        let members = world.active_members();
        let is_left = |it: &u8| *it != node && self.runs(*it);
        self.runs(node) && members.iter().any(is_left)
    }

    // Returns true if a node has not crashed.
    fn runs(&self, node: u8) -> bool {
        !self.crashed.iter().any(|it| *it == node)
    }

    // Draws members among the nodes that run.
    fn members(&mut self) -> Option<Vec<u8>> {
        let mut members = Vec::new(self.alloc);
        for node in 1..=self.nodes {
            if self.runs(node) && !self.draw.one_in(4) {
                members.push(node).ok()?;
            }
        }
        Some(members)
    }

    // Returns the active primary; node 1 if there is none.
    fn active_primary(&self, world: &World) -> u8 {
        let ballot = world.active();
        let at = ballot.saturating_sub(1) as usize;
        self.primaries.get(at).copied().unwrap_or(1)
    }

    // Draws how a client leaves: it loses its connection, or ends it, or its session is ended.
    fn draw_leaving(&mut self, world: &World, name: &ClientId) -> Option<Event> {
        let node = self.active_primary(world);
        let name = name.clone().ok()?;
        Some(match self.draw.below(8) {
            0 => Event::Disconnect(name),
            1 => Event::Expel(name, node),
            _ => Event::Abandon(name),
        })
    }

    // Draws that a client connects to the active primary; now and then to any node.
    fn draw_connecting(&mut self, world: &World, name: &ClientId) -> Option<Event> {
        let node = if self.draw.one_in(16) {
            self.node()
        } else {
            self.active_primary(world)
        };
        Some(Event::Open(name.clone().ok()?, node))
    }

    // Draws what a client says: mostly a publication, now and then that it unsubscribes. One
    // subscription is drawn for four publications.
    fn draw_saying(&mut self, world: &World, name: &ClientId, index: u8) -> Option<Event> {
        if self.asked.saturating_mul(4) <= self.serial && is_served(world, name) {
            self.asked = self.asked.saturating_add(1);
            return subscribed(self.alloc, &mut self.draw, name);
        }
        if self.draw.one_in(32) {
            return unsubscribed(self.alloc, &mut self.draw, name);
        }
        self.serial = self.serial.saturating_add(1);
        published(self.alloc, &mut self.draw, name, index, self.serial)
    }
}

// Returns true if a client is connected, as far as it knows.
fn is_served(world: &World, name: &ClientId) -> bool {
    world.client(name).is_some_and(|core| core.connected())
}
