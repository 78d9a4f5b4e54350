// What came over a link and was not looked at.

ghost use Rattle.std.specs.Prelude.{◌≡◌, []};

use links::{Parcel, ParcelSink};
use std::alloc::Global;
use std::mem;
use std::sync::Wait;

/// The parcels of one read, oldest first. It waits for memory to keep one.
#[derive(Drop)]
pub struct Parcels<'a, R: Wait> {
    rt: &'a R,
    parcels: Vec<Parcel>,
    alloc: Global,
}

impl<'a, R: Wait> Parcels<'a, R> {
    /// Returns none.
    pub fn new(rt: &'a R, alloc: Global) -> Parcels<'a, R> {
        Parcels {
            rt,
            parcels: Vec::new(alloc),
            alloc,
        }
    }

    /// Takes all that came, oldest first.
    pub fn take_all(&mut self) -> Vec<Parcel>
        ensures taken { result.items ≡ self.old.parcels.items }
        ensures none { self.new.parcels.items ≡ [] }
    {
        mem::replace(&mut self.parcels, Vec::new(self.alloc))
    }
}

impl<'a, R: Wait> ParcelSink for Parcels<'a, R> {
    ghost heard = { λ kept. kept.parcels.items };

    fn take(&mut self, parcel: Parcel) {
        let mut unkept = parcel;
        for _ in self.rt.forever() {
            match self.parcels.push(unkept) {
                Ok(()) => return,
                Err(back) => unkept = back.value,
            }
        }
        unreachable!()
    }
}
