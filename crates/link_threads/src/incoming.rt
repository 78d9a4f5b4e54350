// What links brought for the node.
//
// It stands under a lock, between the threads that read links and the one that carries for the
// node. What a link brings stays in its order.

ghost use Rattle.std.specs.Prelude.{◌≡◌, ◌++◌, ◌∷◌, [], OnOk, OnErr};

use crate::far_end::FarEnd;
use links::Parcel;
use links::link_queue::LogName;
use machine::Memory;
use std::alloc::Global;
use std::marker::Model;
use std::mem;

/// A log that left by a link long ago: another of its kind and ballot may be given.
#[derive(Clone, Copy, Debug, PartialEq, Eq)]
pub struct LeftLog {
    /// The other end of the link.
    pub far: FarEnd,
    /// The number that the other end told.
    pub number: u8,
    /// Which log it is.
    pub name: LogName,
}

/// What links brought, oldest first, and the logs that left by them.
#[derive(Drop)]
pub struct Incoming {
    parcels: Vec<Parcel>,
    left: Vec<LeftLog>,
}

impl Model for Incoming {
    ghost use Rattle.link_threads.specs.Desks.{IncomingView};

    ghost Value = { IncomingView };

    ghost view = { λ came. record { parcels = came.parcels.items; left = came.left.items } };
}

impl Incoming {
    /// Returns that nothing came.
    pub fn new(alloc: Global) -> Incoming
        ensures { result ≡ record { parcels = []; left = [] } }
    {
        Incoming {
            parcels: Vec::new(alloc),
            left: Vec::new(alloc),
        }
    }

    /// Returns how many parcels are there.
    pub fn len(&self) -> usize {
        self.parcels.len()
    }

    /// Returns true if nothing is there.
    pub fn is_empty(&self) -> bool {
        self.parcels.is_empty() && self.left.is_empty()
    }

    /// Adds what a link brought after what is there. After an error nothing has changed.
    pub fn add(&mut self, parcels: Vec<Parcel>) -> Result<(), Memory>
        ensures added { OnOk result (self.new
            ≡ record self.old { parcels = self.old.parcels ++ parcels.items }) }
        ensures lost { OnErr result (self.new ≡ self.old) }
    {
        let mut parcels = parcels;
        self.parcels.append(&mut parcels)?;
        Ok(())
    }

    /// Adds a log that left. After an error nothing has changed.
    pub fn note(&mut self, log: LeftLog) -> Result<(), Memory>
        ensures noted { OnOk result (self.new
            ≡ record self.old { left = self.old.left ++ log ∷ [] }) }
        ensures lost { OnErr result (self.new ≡ self.old) }
    {
        self.left.push(log)?;
        Ok(())
    }

    /// Takes all of it.
    pub fn take(&mut self, alloc: Global) -> (Vec<Parcel>, Vec<LeftLog>)
        ensures parcels { result.0.items ≡ self.old.parcels }
        ensures left { result.1.items ≡ self.old.left }
        ensures none { self.new ≡ record { parcels = []; left = [] } }
    {
        let parcels = mem::replace(&mut self.parcels, Vec::new(alloc));
        let left = mem::replace(&mut self.left, Vec::new(alloc));
        (parcels, left)
    }
}
