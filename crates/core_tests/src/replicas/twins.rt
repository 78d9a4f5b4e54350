// Two groups with the same events, except that one of them cuts its logs: nothing else differs.

use super::groups::opened;
use ballot_base::{Body, Config, Effect, Members};
use machine::{Tally, TallyCommand};
use master::{Event, Group};
use rows::Numbers;
use std::alloc::Global;

// How many events there are besides the cuts, and how many nodes.
const EVENTS: u64 = 20_000;

const NODES: u8 = 7;

// The figures at the end, counted by these rules:
// - cuts: the cuts that were not idle, of 3,993 that are drawn;
// - the active ballot: each of the 118 changes that are drawn is given the next ballot, from 2 on,
//   and active is the last one whose Activate came to the master before another was given;
// - agreed places: starts of ballots, and numbers, of 4,932 that are proposed;
// - messages: all that were sent, to the master and from it too;
// - snapshots: the States and Installs among them, in the group that cuts, whose log has a base;
// - outputs: those of numbers that left. A start gives none.
// What is drawn depends on no group, so the numbers of what is drawn are of the rule of drawing
// alone. The figures are a check that the protocol does not change by mistake. They were worked out
// by the same rules and none of the code; none follows from the others.
const FIGURES: [u64; 6] = [689, 116, 539, 5_358, 612, 389];

// The group that cuts and the one that does not, the message that comes next, and what is drawn.
#[derive(Drop)]
struct Twins {
    cutting: Group<Tally>,
    keeping: Group<Tally>,
    next: u64,
    numbers: Numbers,
    cuts: u64,
}

// Why the two fail: they did not open, an event had other results in the two, or at the end these
// words did not hold.
#[derive(Clone, Copy, Debug, PartialEq, Eq)]
enum Fault {
    Opening,
    Event(u64),
    End(&'static str),
}

// Returns a number below 256.
fn small(number: u64) -> u8 {
    match u8::try_from(number) {
        Ok(small) => small,
        Err(_) => 0,
    }
}

impl Twins {
    // Draws a number below `limit`.
    fn draw(&mut self, limit: u64) -> u64 {
        match self.numbers.next().checked_rem(limit) {
            Some(number) => number,
            None => 0,
        }
    }

    // Draws a node; nodes 6 and 7 seldom.
    fn draw_node(&mut self) -> u8 {
        let most = if self.draw(8) == 0 { NODES } else { 5 };
        small(self.draw(u64::from(most))).saturating_add(1)
    }

    // Draws three members, and one of them as the primary.
    fn draw_change(&mut self, alloc: Global) -> Option<Event<TallyCommand>> {
        let first = small(self.draw(5));
        let members = [
            first.saturating_add(1),
            first.saturating_add(2),
            first.saturating_add(3),
        ];
        let primary = first.saturating_add(1).saturating_add(small(self.draw(3)));
        let members = Members::from_slice(alloc, &members).ok()?;
        Some(Event::Assign(Config { members, primary }))
    }

    // Draws the message that comes next, an earlier one again, or one that is not sent yet.
    fn draw_message(&mut self) -> Event<TallyCommand> {
        if self.draw(8) == 0 {
            let sent = (self.keeping.sent().len() as u64).saturating_add(1);
            return Event::Deliver(self.draw(sent));
        }
        let number = self.next;
        if number < self.keeping.sent().len() as u64 {
            self.next = number.saturating_add(1);
        }
        Event::Deliver(number)
    }

    // Draws what happens. Two of the nodes crash, at events that are fixed.
    fn draw_event(&mut self, alloc: Global, at: u64) -> Option<Event<TallyCommand>> {
        if at == 9_000 || at == 15_000 {
            return Some(Event::Crash(small(at / 7_000)));
        }
        match self.draw(200) {
            0 => self.draw_change(alloc),
            1..=49 => {
                let node = self.draw_node();
                Some(Event::Propose(node, TallyCommand::Add(self.draw(1_000))))
            }
            50..=59 => Some(Event::Tick(self.draw_node())),
            // A message that is lost.
            60 => {
                self.next = self.next.saturating_add(1);
                Some(Event::Tick(self.draw_node()))
            }
            _ => Some(self.draw_message()),
        }
    }

    // Returns true if both have sent as many messages, returned as many outputs and agreed on as
    // many commands.
    fn count_alike(&self) -> bool {
        self.cutting.sent().len() == self.keeping.sent().len()
            && self.cutting.left().len() == self.keeping.left().len()
            && self.cutting.agreed_len() == self.keeping.agreed_len()
    }

    // Returns true if an event has the same result in both, and both count alike then.
    fn let_happen(&mut self, event: &Event<TallyCommand>) -> bool {
        let one = self.cutting.step(event).is_ok();
        let other = self.keeping.step(event).is_ok();
        one == other && self.count_alike()
    }

    // Cuts a node's log now and then. Returns true if both groups count alike after it.
    fn cut_now_and_then(&mut self) -> bool {
        if self.draw(5) == 0 {
            let node = self.draw_node();
            if self.cutting.step(&Event::Cut(node)).is_ok() {
                self.cuts = self.cuts.saturating_add(1);
            }
        }
        self.count_alike()
    }

    // Returns the first event that has not the same result in both.
    fn go(&mut self, alloc: Global) -> Option<Fault> {
        for at in 0..EVENTS {
            let Some(event) = self.draw_event(alloc, at) else {
                return Some(Fault::Event(at));
            };
            if !self.let_happen(&event) || !self.cut_now_and_then() {
                return Some(Fault::Event(at));
            }
        }
        None
    }

    // Returns true if both have the same agreed list. The group that cuts nothing keeps all of it.
    fn agree(&self) -> bool {
        let (recorded, rest) = self.cutting.agreed();
        let (none, kept) = self.keeping.agreed();
        match kept.split_at_checked(recorded.len()) {
            Some((front, after)) => none.is_empty() && front == recorded && after == rest,
            None => false,
        }
    }

    // Checks that at the end both have the same agreed list and the same outputs, and nothing is
    // lost. Returns the first step that fails.
    fn fault_at_the_end(&self) -> Option<Fault> {
        if !self.agree() {
            Some(Fault::End("both have the same agreed list"))
        } else if !gave_the_same(self.cutting.left(), self.keeping.left()) {
            Some(Fault::End("both have the same outputs"))
        } else if self.cutting.losses() != 0 {
            Some(Fault::End("the group that cuts lost nothing"))
        } else if self.keeping.losses() != 0 {
            Some(Fault::End("the group that cuts nothing lost nothing"))
        } else {
            None
        }
    }

    // Does all events, and returns the first fault.
    fn first_fault(&mut self, alloc: Global) -> Option<Fault> {
        match self.go(alloc) {
            Some(fault) => Some(fault),
            None => self.fault_at_the_end(),
        }
    }

    // Returns the results: cuts, the active ballot, agreed places, messages, snapshots among them,
    // and outputs.
    fn figures(&self) -> [u64; 6] {
        [
            self.cuts,
            self.keeping.active().0,
            self.keeping.agreed_len(),
            self.keeping.sent().len() as u64,
            snapshots_sent(&self.cutting) as u64,
            self.keeping.left().len() as u64,
        ]
    }
}

// Returns true if these outputs are the same, with their places.
fn gave_the_same(one: &[Effect<TallyCommand, u64>], other: &[Effect<TallyCommand, u64>]) -> bool {
    one.len() == other.len()
        && one.iter().zip(other).all(|(mine, yours)| match (mine, yours) {
            (Effect::Out(place, total), Effect::Out(same, equal)) => {
                place == same && total == equal
            }
            _ => false,
        })
}

// Returns how many logs were sent that begin with a snapshot.
fn snapshots_sent(group: &Group<Tally>) -> usize {
    group
        .sent()
        .iter()
        .filter(|(_, message)| match &message.body {
            Body::State(_, log) | Body::Install(_, log) => log.base() > 0,
            _ => false,
        })
        .count()
}

// Returns two groups of seven nodes, of which 1 to 3 are members and 1 is the first primary, to which
// nothing has happened.
fn made(alloc: Global) -> Option<Twins> {
    Some(Twins {
        cutting: opened(alloc, NODES, &[1, 2, 3])?,
        keeping: opened(alloc, NODES, &[1, 2, 3])?,
        next: 0,
        numbers: Numbers::new(1),
        cuts: 0,
    })
}

// 20,000 events of seven nodes, drawn by a fixed rule: changes of configuration, messages that come
// late, again or never, and two crashes. One group cuts logs between them, and each event has the
// same result in both.
#[test]
fn cuts_tell_no_group_apart(rt: HostRuntime) {
    let mut fault = Some(Fault::Opening);
    let mut figures = [0; 6];
    if let Some(mut pair) = made(rt.alloc()) {
        fault = pair.first_fault(rt.alloc());
        figures = pair.figures();
    }
    assert_eq!(rt; fault, None);
    assert_eq!(rt; figures.as_slice(), FIGURES.as_slice());
}
