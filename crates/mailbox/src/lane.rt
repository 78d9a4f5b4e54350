// The sending end of an inbox.

ghost use Rattle.std.specs.Prelude.{◌≡◌, ◌⊎◌, ◌-◌, ◌++◌, ◌∷◌, [], length, OnOk, OnErr, IfErr};
ghost use Rattle.mailbox.specs.Ends.{LaneView, WasFull, IsFullByReceipt, IsSpent};
ghost use Rattle.mailbox.specs.Delivery.{no_bounds};

use crate::moves::{Ends, Hears, Knowledge, LaneKnows, Queue, Sends};
use crate::naming::Naming;
use crate::receipt::Receipt;
use std::alloc::Global;
use std::marker::{Model, PhantomData};
use std::sync::{Arc, Wait};

/// How many items a lane may send in its life.
pub const MAX_SENT: u64 = 1 << 55;

/// The right to send through one lane of an inbox. Nobody else holds this lane.
#[derive(Drop)]
pub struct Lane<T: Drop, J: Naming> {
    /// The items that wait, shared by all ends.
    pub(crate) queue: Arc<Queue<T>, Global>,
    /// Knows what the lane sent, and a lower bound of how many of these items were taken.
    pub(crate) pass: Knowledge<T>,
    /// The number of the inbox.
    pub(crate) inbox: u8,
    /// The number of the lane in its inbox, from 0.
    pub(crate) lane: u8,
    /// How many items it sent, at most [`MAX_SENT`].
    pub(crate) count: u64,
    /// Which inbox the number names; the caller chooses it.
    pub(crate) naming: PhantomData<J>,
}

impl<T: Drop, J: Naming> Model for Lane<T, J> {
    ghost use Rattle.mailbox.specs.Ends.{LaneView};

    ghost Value = { LaneView T };

    ghost use Rattle.std.specs.Arc.{arc_value};
    ghost use Rattle.crossbeam_queue.specs.Passes.{view as known_by, ruled_capacity};
    ghost use Rattle.mailbox.specs.Kept.{LaneKept};

    ghost view = { λ lane. record {
      inbox = lane.inbox;
      lane = lane.lane;
      met = (known_by lane.pass).met;
      sent = (known_by lane.pass).sent;
    } };

    ghost invariant = { λ lane. LaneKept
        (arc_value lane.queue).table.shared.table_id
        (ruled_capacity (arc_value lane.queue))
        lane.pass
        (J.inbox_of lane.inbox)
        lane.lane
        lane.count };
}

impl<T: Drop, J: Naming> Lane<T, J> {
    /// Returns the number of its inbox.
    pub fn number(&self) -> u8
        ensures { result ≡ self.now.inbox }
    {
        self.inbox
    }

    /// Returns the number of this lane in its inbox, from 0.
    pub fn lane(&self) -> u8
        ensures { result ≡ self.now.lane }
    {
        self.lane
    }

    /// Returns how many items the lane has sent.
    pub fn count(&self) -> u64
        ensures { result ≡ length self.now.sent }
    {
        self.count
    }

    /// Returns a receipt of how many items the lane has sent so far.
    pub fn receipt(&mut self) -> Receipt<T, J>
        ensures says { result ≡ record {
          inbox = self.old.inbox;
          bounds = record no_bounds { lane = self.old.lane; sent = length self.old.sent };
        } }
        ensures same { self.new ≡ self.old }
    {
        Receipt {
            pass: self.queue.another::<LaneKnows>(&mut self.pass),
            inbox: self.inbox,
            naming: PhantomData,
        }
    }

    /// Ends the lane: nothing more can be sent by it. Returns the receipt with two facts added: how
    /// many items this lane sent, and a bound on what all lanes will ever send, which is lower by
    /// what this lane could still have sent.
    pub fn end(self, receipt: Receipt<T, J>) -> Receipt<T, J>
        requires { receipt.inbox ≡ self.inbox }
        ensures { result ≡ record receipt {
          bounds = record receipt.bounds {
            lane = self.lane;
            sent = length self.sent;
            most = receipt.bounds.most - (MAX_SENT - length self.sent);
          };
        } }
    {
        let Lane {
            queue,
            mut pass,
            inbox,
            lane: _lane,
            count: _count,
            naming,
        } = self;
        queue.absorb::<Hears>(&mut pass, receipt.pass);
        Receipt {
            pass: queue.another::<Ends>(&mut pass),
            inbox,
            naming,
        }
    }

    /// Sends an item. Hands it back only if the inbox was full at some moment of the call, or if
    /// the lane has sent [`MAX_SENT`] items; never if the receipt shows that there is room.
    pub fn send<R: Wait>(&mut self, rt: &R, item: T, receipt: Receipt<T, J>) -> Result<(), T>
        requires { receipt.inbox ≡ self.old.inbox }
        ensures sent { OnOk result
            (self.new ≡ record self.old { sent = self.old.sent ++ item ∷ [] }) }

        // The item that comes back is this one, and then nothing was sent.
        ensures full { OnErr result (WasFull self.old receipt ⊎ IsSpent self.old) }
        ensures room { OnErr result (IsFullByReceipt self.old receipt ⊎ IsSpent self.old) }
        ensures back { IfErr result (λ back. back ≡ item) }
        ensures same { OnErr result (self.new ≡ self.old) }
    {
        if self.count >= MAX_SENT {
            return Err(item);
        }
        self.queue.absorb::<Hears>(&mut self.pass, receipt.pass);
        match self
            .queue
            .push_as::<Sends, R>(rt, &mut self.pass, (self.lane, item))
        {
            Ok(()) => {
                self.count += 1;
                Ok(())
            }
            Err((_, back)) => Err(back),
        }
    }
}
