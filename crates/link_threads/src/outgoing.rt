// What is to go out by a link.
//
// It stands under a lock, between the thread that carries for the node and the one that writes the
// link. Messages are for one life of a node, by its number. A link that leads to another life takes
// nothing.

ghost use Rattle.std.specs.Prelude.{◌≡◌, ◌↔◌, ◌++◌, [], true, is_some, IfSome, OnOk, OnErr};

use ballot_base::Body;
use broker_spec::Command;
use links::link_queue::Waiting;
use machine::Memory;
use std::alloc::Global;
use std::marker::Model;
use std::mem;

/// The messages that are to go out by a link, oldest first, and the number of the node that they
/// are for.
#[derive(Drop)]
pub struct Outgoing {
    number: u8,
    messages: Vec<Waiting<Command>>,
    // True if one of them is worth a wake-up.
    is_urgent: bool,
}

impl Model for Outgoing {
    ghost use Rattle.link_threads.specs.Desks.{OutgoingView};

    ghost Value = { OutgoingView };

    ghost view = { λ out. record { number = out.number; messages = out.messages.items } };
}

impl Outgoing {
    /// Returns that there is none, for number 0.
    pub fn new(alloc: Global) -> Outgoing
        ensures { result ≡ record { number = 0; messages = [] } }
    {
        Outgoing {
            number: 0,
            messages: Vec::new(alloc),
            is_urgent: false,
        }
    }

    /// Adds messages for the node of this number after those that are there. Messages for another
    /// number are dropped. After an error nothing has changed.
    pub fn put(&mut self, number: u8, added: Vec<Waiting<Command>>) -> Result<(), Memory>
        ensures same { self.old.number ≡ number → OnOk result (self.new
            ≡ record self.old { messages = self.old.messages ++ added.items }) }
        ensures other { (self.old.number ≡ number → ⊥) → OnOk result (self.new
            ≡ record { number = number; messages = added.items }) }
        ensures lost { OnErr result (self.new ≡ self.old) }
    {
        let is_urgent = has_urgent(&added);
        if self.number != number {
            self.number = number;
            self.messages = added;
            self.is_urgent = is_urgent;
            return Ok(());
        }
        let mut added = added;
        self.messages.append(&mut added)?;
        self.is_urgent = self.is_urgent || is_urgent;
        Ok(())
    }

    /// Takes all messages, if they are for the node of this number. Returns none, and changes
    /// nothing, if they are for another.
    pub fn take(&mut self, alloc: Global, number: u8) -> Option<Vec<Waiting<Command>>>
        ensures own { (is_some result ≡ true) ↔ (self.old.number ≡ number) }
        ensures taken { IfSome result (λ taken. taken.items ≡ self.old.messages) }
        ensures none { is_some result ≡ true → self.new ≡ record self.old { messages = [] } }
        ensures astray { (self.old.number ≡ number → ⊥) → self.new ≡ self.old }
    {
        if self.number != number {
            return None;
        }
        self.is_urgent = false;
        Some(mem::replace(&mut self.messages, Vec::new(alloc)))
    }

    /// Returns true if something urgent is there for the node of this number. No clause says when.
    pub fn is_urgent(&self, number: u8) -> bool {
        self.is_urgent && self.number == number
    }
}

// Returns true if one of these is worth a wake-up, which each is but a Commit.
fn has_urgent(messages: &[Waiting<Command>]) -> bool {
    messages.iter().any(|waiting| !matches!(waiting.message.body, Body::Commit(_, _)))
}
