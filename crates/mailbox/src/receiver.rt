// The receiving end of an inbox.

ghost use Rattle.std.specs.Prelude.{◌≡◌, ◌++◌, ◌∷◌, [], ◌<◌, ◌≤◌, length, take, ◌*◌, IfSome, IfNone, IfOk, OnOk, All, EachIndex, IsTrue, ◌↔◌, map, slice_index, vec_capacity};
ghost use Rattle.mailbox.specs.Delivery.{items_of_lane, no_bounds};
ghost use Rattle.mailbox.specs.Ends.{ReceiverView, LaneView, WasEmpty, HasArrived, AreAllLanes, ArrivesWhole, unmet};
ghost use Rattle.mailbox.specs.Kept.{TakesMore, IsDrained};
ghost use Rattle.mailbox.specs.declared.lane.TheConstants.{MAX_SENT};

use crate::lane::Lane;
use crate::limits::MAX_ITEMS;
use crate::moves::{Hears, Knowledge, Lends, Meets, Queue, ReceiverKnows, Takes};
use crate::naming::Naming;
use crate::receipt::Receipt;
use std::alloc::Global;
use std::marker::{Model, PhantomData};
use std::sync::{Arc, Wait};

/// The right to take what the lanes of an inbox send. Nobody else holds it.
#[derive(Drop)]
pub struct Receiver<T: Drop, J: Naming> {
    /// The items that wait, shared by all ends.
    pub(crate) queue: Arc<Queue<T>, Global>,
    /// Knows what was taken.
    pub(crate) pass: Knowledge<T>,
    /// The number of the inbox.
    pub(crate) inbox: u8,
    /// How many items of each lane were taken. The rule of the inbox keeps each below 2^55.
    pub(crate) counts: Vec<u64>,
    /// Which inbox the number names; the caller chooses it.
    pub(crate) naming: PhantomData<J>,
}

impl<T: Drop, J: Naming> Model for Receiver<T, J> {
    ghost use Rattle.mailbox.specs.Ends.{ReceiverView};

    ghost Value = { ReceiverView T };

    ghost use Rattle.std.specs.Prelude.{length};
    ghost use Rattle.std.specs.Arc.{arc_value};
    ghost use Rattle.crossbeam_queue.specs.Passes.{view as known_by, ruled_capacity};
    ghost use Rattle.mailbox.specs.Kept.{ReceiverKept};

    ghost view = { λ receiver. record {
      inbox = receiver.inbox;
      lanes = length receiver.counts.items;
      taken = (known_by receiver.pass).taken;
    } };

    ghost invariant = { λ receiver. ReceiverKept
        (arc_value receiver.queue).table.shared.table_id
        (ruled_capacity (arc_value receiver.queue))
        receiver.pass
        (J.inbox_of receiver.inbox)
        receiver.counts.items };
}

impl<T: Drop, J: Naming> Receiver<T, J> {
    /// Returns the number of its inbox.
    pub fn number(&self) -> u8
        ensures { result ≡ self.now.inbox }
    {
        self.inbox
    }

    /// Returns how many lanes the inbox has.
    pub fn lanes(&self) -> usize
        ensures { result ≡ self.now.lanes }
    {
        self.counts.len()
    }

    /// Returns true if these are all lanes of this inbox, in the order of their numbers.
    pub fn has_all(&self, lanes: &[Lane<T, J>]) -> bool
        ensures { IsTrue result ↔ AreAllLanes self.now lanes.now }
    {
        if lanes.len() != self.lanes() {
            return false;
        }
        for (index, lane) in lanes.iter().enumerate() {
            if lane.number() != self.number() || usize::from(lane.lane()) != index {
                return false;
            }
        }
        true
    }

    /// Takes the oldest item, with the number of its lane. Returns none only if the inbox was empty
    /// at some moment of the call; then every item that the receipt knows to be sent was taken
    /// before.
    pub fn take<R: Wait>(&mut self, rt: &R, receipt: Receipt<T, J>) -> Option<(u8, T)>
        requires { receipt.inbox ≡ self.old.inbox }
        ensures taken { IfSome result (λ item.
            self.new ≡ record self.old { taken = self.old.taken ++ item ∷ [] }) }
        ensures lane { IfSome result (λ item. item.0 < self.old.lanes) }

        // If nothing came, the inbox was empty: every item that the receipt knows to be sent was
        // taken.
        ensures empty { IfNone result (WasEmpty self.old receipt) }
        ensures arrived { IfNone result (HasArrived receipt self.old.taken) }
        ensures same { IfNone result (self.new ≡ self.old) }
    {
        self.queue.absorb::<Hears>(&mut self.pass, receipt.pass);
        let (lane, item) = self.queue.pop_as::<Takes, R>(rt, &mut self.pass)?;
        self.counts[usize::from(lane)] += 1;
        Some((lane, item))
    }

    /// Returns a receipt of how many items were taken so far, and that each lane sends at most
    /// [`crate::MAX_SENT`].
    pub fn receipt(&mut self) -> Receipt<T, J>
        ensures says { result ≡ record {
          inbox = self.old.inbox;
          bounds = record no_bounds {
            taken = length self.old.taken;
            most = self.old.lanes * MAX_SENT;
          };
        } }
        ensures same { self.new ≡ self.old }
    {
        Receipt {
            pass: self.queue.another::<ReceiverKnows>(&mut self.pass),
            inbox: self.inbox,
            naming: PhantomData,
        }
    }

    /// Returns how many items of a lane of this inbox were taken. The lane learns it, too.
    pub fn meet(&mut self, lane: &mut Lane<T, J>) -> u64
        requires { lane.old.inbox ≡ self.old.inbox }
        ensures exact { result ≡ length (items_of_lane lane.old.lane self.old.taken) }

        // These are the first items that the lane sent, and no fewer than it knew.
        ensures first { items_of_lane lane.old.lane self.old.taken ≡ take result lane.old.sent }
        ensures known { lane.old.met ≤ result }

        // Nothing was sent or taken.
        ensures receiver { self.new ≡ self.old }
        ensures lane { lane.new ≡ record lane.old { met = result } }
    {
        let lent = self.queue.another::<Lends>(&mut lane.pass);
        self.queue.absorb::<Meets>(&mut self.pass, lent);
        self.queue.learn_as::<Meets>(&mut self.pass);
        lane.pass = self.queue.another::<Meets>(&mut self.pass);
        self.counts[usize::from(lane.lane)]
    }

    /// Takes all that is left, once the lanes send no more. `counts` gets how many items of each
    /// lane were taken before, `left` the items taken now, in order. Allocates nothing: the
    /// capacity of both is reserved beforehand.
    pub fn take_rest<R: Wait>(
        &mut self,
        rt: &R,
        lanes: &mut [Lane<T, J>],
        counts: &mut [u64],
        left: &mut Vec<(u8, T)>,
    )
        requires lanes { AreAllLanes self.old lanes.old }
        requires counts { length counts.old ≡ self.old.lanes }
        requires empty { left.old.items ≡ [] }
        requires room { MAX_ITEMS ≤ vec_capacity left.old }

        // Lane by lane, the items counted followed by those left over are all that was sent, in
        // order.
        ensures whole { All (ArrivesWhole counts.new left.new.items) lanes.new }
        ensures counted { EachIndex counts.new (λ lane.
            slice_index counts.new lane ≡ length (items_of_lane lane self.old.taken)) }

        // All that was sent is taken.
        ensures arrived { All (IsDrained self.new.taken) lanes.new }

        // Those left over were taken now, and nothing was sent.
        ensures taken { self.new ≡ record self.old { taken = self.old.taken ++ left.new.items } }
        ensures lanes { map unmet lanes.new ≡ map unmet lanes.old }
    {
        counts.copy_from_slice(self.counts.as_slice());
        for _ in rt.forever() {
            self.drain(rt, left);
            if self.has_taken_all(lanes) {
                return;
            }
        }
        unreachable!()
    }

    // Takes items while there are any and `left` has capacity.
    fn drain<R: Wait>(&mut self, rt: &R, left: &mut Vec<(u8, T)>)
        ensures { TakesMore self.old self.new left.old.items left.new.items }
    {
        for _ in 0..MAX_ITEMS {
            if left.len() >= left.capacity() {
                return;
            }
            let receipt = self.receipt();
            let Some(item) = self.take(rt, receipt) else {
                return;
            };
            if left.push(item).is_err() {
                unreachable!()
            }
        }
    }

    // Returns true if all that these lanes sent was taken.
    fn has_taken_all(&mut self, lanes: &mut [Lane<T, J>]) -> bool
        requires { All (λ lane. lane.inbox ≡ self.old.inbox) lanes.old }
        ensures all { IsTrue result → All (IsDrained self.old.taken) lanes.new }
        ensures receiver { self.new ≡ self.old }
        ensures lanes { map unmet lanes.new ≡ map unmet lanes.old }
    {
        for lane in lanes.iter_mut() {
            if self.meet(lane) != lane.count() {
                return false;
            }
        }
        true
    }
}
