// What may happen in a group.

ghost use Rattle.std.specs.Prelude.{◌≡◌};

use ballot_base::Config;
use std::error::Error;
use std::fmt;

/// An event of a group of replicas.
#[derive(Drop)]
pub enum Event<C> {
    /// A command is proposed to a node. Idle if that node is no running active primary, or its log
    /// is full.
    Propose(u8, C),
    /// The master assigns the next ballot to a configuration. Idle if it refuses: for members or a
    /// primary that no ballot may have, and after ballot 2^32.
    Assign(Config),
    /// The message of this number, counted from 0 in the order of sending, reaches its receiver.
    /// Idle if no such message was sent, or its receiver is unknown or has stopped.
    Deliver(u64),
    /// Time passes at a node. Idle if it is unknown or has stopped.
    Tick(u8),
    /// A node cuts its log: a snapshot of its machine replaces the commands that it has applied.
    /// Idle if the node is unknown or has stopped, or has applied none since its last cut.
    Cut(u8),
    /// A node stops for good. Idle if it is unknown or has stopped.
    Crash(u8),
}

/// The answer for an event that cannot happen now. Nothing was changed.
#[derive(Clone, Copy, Debug, PartialEq, Eq)]
pub struct Idle;

impl Idle {
    /// Returns the number of this refusal, the same in every program and document of this broker.
    pub fn number(self) -> u8
        ensures { result ≡ 24 }
    {
        24
    }
}

impl fmt::Display for Idle {
    fn fmt<W: fmt::Write>(&self, f: &mut fmt::Formatter<W>) -> fmt::Result {
        write!(f, "an event that cannot happen now")
    }
}

impl Error for Idle {}
