// What the master tells nodes: the answers of its desk.
//
// Only these calls make a `Told`, and a link writes nothing else that a node could rely on. Each
// asks the desk first, which answers once its state was kept; so what leaves the master is the
// answer of a state that a restart reads, and the laws of `desk` hold of all that nodes were told:
// no two starts get one number, ballots rise, and what was activated stays so. An answer that is
// repeated, as NewBallot is, is one that was given before.

ghost use Rattle.std.specs.Prelude.{◌≡◌, ◌↔◌, [], ◌&&◌, IfOk, IsErrOf, OnErr, ◌≤◌, nat_le, nat_lt};
ghost use Rattle.cluster.specs.desk.Runs.{Ran};
ghost use Rattle.cluster.specs.desk.Runs.Answer.{ballot, number};
ghost use Rattle.cluster.specs.desk.States.{no_number};
ghost use Rattle.links.specs.declared.parcel.Parcel.TheVariants as parcels;
ghost use Rattle.cluster.specs.master.Answers.{GoesOn, IsNext, Resumes, TellsNext, TellsOf, ballot_for, of_master};

use crate::desk::{Activation, Desk, DeskError, Keeper, NotKept, OpenError};
use ballot_base::{Body, Config, Members, Message};
use broker_spec::Command;
use links::Parcel;
use links::seal::CLUSTER_BYTES;
use machine::Memory;
use std::alloc::Global;
use std::marker::Model;

/// What the master tells a node.
#[derive(Drop)]
pub struct Told {
    parcel: Parcel,
}

impl Model for Told {
    ghost use Rattle.links.specs.declared.parcel.Parcel.{Parcel};

    ghost Value = { Parcel };

    ghost view = { λ told. told.parcel };
}

impl Told {
    /// Returns the parcel that tells it.
    pub fn parcel(&self) -> &Parcel
        ensures { result.now ≡ self.now }
    {
        &self.parcel
    }

    // Returns a message of the master.
    fn message(body: Body<Command>) -> Told
        ensures { result ≡ of_master body }
    {
        Told {
            parcel: Parcel::Message(Message { from: 0, body }),
        }
    }
}

/// Begins a new cluster of this name, as [`Desk::new`].
pub fn begin<K: Keeper>(
    alloc: Global,
    keeper: K,
    cluster: [u8; CLUSTER_BYTES],
) -> Result<Desk<K>, OpenError>
    ensures { IfOk result (λ desk. Ran [] desk.state (K.stands desk.keeper)) }
{
    match Desk::new(alloc, keeper, cluster) {
        Ok(desk) => Ok(desk),
        Err(error) => Err(error),
    }
}

/// Goes on with what these bytes say, as [`Desk::resume`].
pub fn resume<K: Keeper>(alloc: Global, keeper: K, bytes: &[u8]) -> Result<Desk<K>, OpenError>
    ensures { IfOk result (Resumes K.stands bytes.now) }
{
    match Desk::resume(alloc, keeper, bytes) {
        Ok(desk) => Ok(desk),
        Err(error) => Err(error),
    }
}

/// Gives the next number to a start of a node, and returns it with the Welcome that tells it.
/// `NumbersSpent` comes exactly once 254 was given.
pub fn start<K: Keeper>(desk: &mut Desk<K>) -> Result<(u8, Told), DeskError>
    ensures next { IfOk result (λ begun. IsNext K.stands desk.old (number begun.0) desk.new) }
    ensures told { IfOk result (λ begun. begun.1 ≡ parcels.Welcome begun.0) }
    ensures spent { IsErrOf result DeskError.NumbersSpent ↔ (desk.old.state.next ≡ no_number) }
    ensures silent { OnErr result (GoesOn K.stands desk.old desk.new) }
{
    let number = next(desk);
    match desk.start() {
        Ok(_) => {
            let parcel = Parcel::Welcome(number);
            Ok((number, Told { parcel }))
        }
        Err(error) => Err(error),
    }
}

// Returns the number that the next start gets; 255 once 254 was given.
fn next<K: Keeper>(desk: &Desk<K>) -> u8
    ensures value { result ≡ desk.now.state.next }
    ensures fits { desk.now.state.next ≤ 255 }
{
    desk.state().next
}

/// Gives the next ballot to these members and this primary, as [`Desk::assign`], and returns it.
/// Its NewBallot is told by [`new_ballot`].
pub fn assign<K: Keeper>(
    desk: &mut Desk<K>,
    members: Members,
    primary: u8,
) -> Result<u64, DeskError>
    ensures next { IfOk result (λ given. IsNext K.stands desk.old (ballot given) desk.new) }
    ensures silent { OnErr result (GoesOn K.stands desk.old desk.new) }
{
    match desk.assign(members, primary) {
        Ok(ballot) => Ok(ballot),
        Err(error) => Err(error),
    }
}

/// Answers an Activate, as [`Desk::activate`]: by Activated or Superseded of the same ballot.
pub fn activate<K: Keeper>(desk: &mut Desk<K>, ballot: u64) -> Result<Told, NotKept>
    ensures next { IfOk result (λ told. TellsNext K.stands desk.old told desk.new) }
    ensures same { IfOk result (TellsOf ballot) }
    ensures silent { OnErr result (GoesOn K.stands desk.old desk.new) }
{
    match desk.activate(ballot) {
        Ok(Activation::Activated) => Ok(Told::message(Body::Activated(ballot))),
        Ok(Activation::Superseded) => Ok(Told::message(Body::Superseded(ballot))),
        Err(error) => Err(error),
    }
}

/// Returns the NewBallot of the ballot that waits, if this node is its primary.
pub fn new_ballot<K: Keeper>(
    alloc: Global,
    desk: &Desk<K>,
    node: u8,
) -> Result<Option<Told>, Memory>
    ensures { IfOk result (λ told. told ≡ ballot_for desk.now.state node) }
{
    let state = desk.state();
    match &state.waiting {
        Some((ballot, config)) if config.primary == node => {
            let members = copied(alloc, &config.members)?;
            let earlier = copied(alloc, &state.members)?;
            let body = Body::NewBallot(*ballot, members, state.active, earlier);
            Ok(Some(Told::message(body)))
        }
        _ => Ok(None),
    }
}

// Returns a copy of the members.
fn copied(alloc: Global, members: &Members) -> Result<Members, Memory>
    ensures { IfOk result (λ copy. copy ≡ members.now) }
{
    Members::from_slice(alloc, members.as_slice())
}

/// Returns true if this number was given to a start of a node.
pub fn was_given<K: Keeper>(desk: &Desk<K>, node: u8) -> bool
    ensures { result ≡ nat_le 1 node && nat_lt node desk.now.state.next }
{
    1 <= node && node < desk.state().next
}
