// Commands that came before their turn.
//
// What was in transit on a link that broke is lost, and a primary repeats one place a tick, while
// what it gives from then on comes at once. A node takes no place before the one that it lacks. So
// all of that would be lost, too, and be repeated place by place for as long as clients publish.
// Here it waits until the places before it were brought.

use ballot_base::{Body, Message, Status};
use broker_spec::Command;
use std::alloc::Global;
use std::collections::VecDeque;

/// The most commands that wait.
const MAX_EARLY: usize = 65_536;

/// A command with its place.
#[derive(Drop)]
struct Early {
    place: u64,
    message: Message<Command>,
}

/// Commands of one ballot that came before their turn, by rising place.
#[derive(Drop)]
pub(crate) struct EarlyAppends {
    // The ballot of all of them.
    ballot: u64,
    // The place after the last that was brought to the node.
    next: u64,
    waiting: VecDeque<Early>,
}

impl EarlyAppends {
    /// Returns that none waits.
    pub(crate) fn new(alloc: Global) -> EarlyAppends {
        EarlyAppends {
            ballot: 0,
            next: 0,
            waiting: VecDeque::new(alloc),
        }
    }

    /// Returns a message for the node of this status, unless it is a command of its ballot whose
    /// turn has not come. That waits here; without room or memory it is lost, as the protocol
    /// allows. No clause says what waits.
    pub(crate) fn admit(
        &mut self,
        status: Status,
        message: Message<Command>,
    ) -> Option<Message<Command>> {
        let Some((ballot, place)) = place_of(&message) else {
            return Some(message);
        };
        if ballot != status.ballot {
            return Some(message);
        }
        self.begin(ballot);
        let expected = self.next.max(status.held);
        if place > expected {
            self.keep(Early { place, message });
            return None;
        }
        self.next = expected.max(place.saturating_add(1));
        Some(message)
    }

    /// Takes the first that waits, if its turn has come by this status of the node. Nothing waits
    /// any more for a node that has left the ballot.
    pub(crate) fn take_due(&mut self, status: Status) -> Option<Message<Command>> {
        if status.ballot != self.ballot {
            self.waiting.clear();
            return None;
        }
        let expected = self.next.max(status.held);
        let place = self.waiting.front()?.place;
        if place > expected {
            return None;
        }
        self.next = expected.max(place.saturating_add(1));
        let Early { message, .. } = self.waiting.pop_front()?;
        Some(message)
    }

    // Begins with this ballot, if it is another than before.
    fn begin(&mut self, ballot: u64) {
        if ballot != self.ballot {
            self.ballot = ballot;
            self.next = 0;
            self.waiting.clear();
        }
    }

    // Keeps a command, if it comes after those that wait and there is room.
    fn keep(&mut self, early: Early) {
        let is_later = match self.waiting.back() {
            Some(last) => last.place < early.place,
            None => true,
        };
        if is_later && self.waiting.len() < MAX_EARLY {
            let _ = self.waiting.push_back(early);
        }
    }
}

// Returns the ballot and the place of a command; none for another message.
fn place_of(message: &Message<Command>) -> Option<(u64, u64)> {
    match &message.body {
        Body::Append(ballot, place, _) => Some((*ballot, *place)),
        _ => None,
    }
}
