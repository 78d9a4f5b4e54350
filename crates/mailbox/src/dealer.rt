// A receiver before it has all its lanes.

ghost use Rattle.std.specs.Prelude.{◌≡◌, ◌+◌, ◌<◌, [], IfOk, OnOk};

use crate::lane::Lane;
use crate::limits::MAX_LANES;
use crate::moves::{Deals, Knowledge, Queue, Seals};
use crate::naming::Naming;
use crate::receiver::Receiver;
use std::alloc::{AllocError, Global};
use std::marker::{Model, PhantomData};
use std::sync::Arc;

/// The receiver of an inbox whose lanes are still being made.
#[derive(Drop)]
pub(crate) struct Dealer<T: Drop, J: Naming> {
    /// The items that wait, shared by all ends.
    pub(crate) queue: Arc<Queue<T>, Global>,
    /// Knows how many lanes were made.
    pub(crate) pass: Knowledge<T>,
    /// The number of the inbox.
    pub(crate) inbox: u8,
    /// How many items of each lane were taken, one entry for each lane made so far: all 0.
    pub(crate) counts: Vec<u64>,
    /// Which inbox the number names; the caller chooses it.
    pub(crate) naming: PhantomData<J>,
}

impl<T: Drop, J: Naming> Model for Dealer<T, J> {
    ghost use Rattle.mailbox.specs.Ends.{ReceiverView};

    ghost Value = { ReceiverView T };

    ghost use Rattle.std.specs.Prelude.{[], length};
    ghost use Rattle.std.specs.Arc.{arc_value};
    ghost use Rattle.crossbeam_queue.specs.Passes.{ruled_capacity};
    ghost use Rattle.mailbox.specs.Kept.{DealerKept};

    ghost view = { λ dealer.
        record { inbox = dealer.inbox; lanes = length dealer.counts.items; taken = [] } };

    ghost invariant = { λ dealer. DealerKept
        (arc_value dealer.queue).table.shared.table_id
        (ruled_capacity (arc_value dealer.queue))
        dealer.pass
        (J.inbox_of dealer.inbox)
        dealer.counts.items };
}

impl<T: Drop, J: Naming> Dealer<T, J> {
    /// Makes the next lane, on which nothing was sent. The only error is that memory ran out.
    pub(crate) fn deal(&mut self) -> Result<Lane<T, J>, AllocError>
        requires few { self.old.lanes < MAX_LANES }
        ensures lane { IfOk result (λ lane.
            lane ≡ record { inbox = self.old.inbox; lane = self.old.lanes; met = 0; sent = [] }) }
        ensures more { OnOk result (self.new ≡ record self.old { lanes = self.old.lanes + 1 }) }
    {
        let queue = Arc::try_clone(&self.queue)?;
        let lane = self.counts.len() as u8;
        self.counts.push(0)?;
        Ok(Lane {
            queue,
            pass: self.queue.another::<Deals>(&mut self.pass),
            inbox: self.inbox,
            lane,
            count: 0,
            naming: PhantomData,
        })
    }

    /// Returns the receiver, once all lanes are made.
    pub(crate) fn done(self) -> Receiver<T, J>
        ensures { result ≡ self }
    {
        let Dealer {
            queue,
            mut pass,
            inbox,
            counts,
            naming,
        } = self;
        let _spent = queue.another::<Seals>(&mut pass);
        Receiver {
            queue,
            pass,
            inbox,
            counts,
            naming,
        }
    }
}
