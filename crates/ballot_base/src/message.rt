// The messages between replicas and the master.

use crate::config::Members;
use crate::log::Log;

/// A message from one node to another. Node 0 is the master.
#[derive(Drop)]
pub struct Message<C> {
    /// The sender.
    pub from: u8,
    /// What the message says.
    pub body: Body<C>,
}

/// The kinds of message. The first number of each is its ballot.
#[derive(Drop)]
pub enum Body<C> {
    /// The master assigns a ballot: its members, the ballot that was active then, and the members
    /// of that one.
    NewBallot(u64, Members, u64, Members),
    /// Leave all lower ballots and send your log; the second number is the earlier ballot whose log
    /// is asked for.
    Join(u64, u64),
    /// The sender's log.
    State(u64, Log<C>),
    /// Take this log.
    Install(u64, Log<C>),
    /// The sender took a log of this length.
    Installed(u64, u64),
    /// All members hold the log: the master may activate the ballot.
    Activate(u64),
    /// The ballot is active.
    Activated(u64),
    /// The ballot was superseded.
    Superseded(u64),
    /// The command at a place.
    Append(u64, u64, C),
    /// The sender holds this many places.
    Held(u64, u64),
    /// This many places are held by every member.
    Commit(u64, u64),
}

/// An effect of a replica's call.
#[derive(Drop)]
pub enum Effect<C, O> {
    /// A message to a node.
    To(u8, Message<C>),
    /// An output of the command at a place.
    Out(u64, O),
}
