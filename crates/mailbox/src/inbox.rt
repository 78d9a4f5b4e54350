// An inbox before it has lanes.
//
// All ends share one bounded queue of `MAX_ITEMS` slots. Its invariant is `DeliveryRule`: for each
// lane, the items taken followed by the items held are what the lane sent, in order. There is no
// lock. `send` hands the item back if the queue is full and `take` returns none if it is empty, and
// the caller decides who takes then. A lane sends at most `MAX_SENT` items, so the items of all 64
// lanes stay below 2^64 and no count overflows.
//
// An inbox is made in two calls. `named` is generic in the type that gives the numbers of all
// inboxes of a run their meaning, and that type is chosen once each of these inboxes exists. So
// equal numbers prove that a lane and a receiver belong together, even if they were under locks.

ghost use Rattle.std.specs.Prelude.{◌≡◌, ◌<◌, ◌≤◌, [], IfOk};
ghost use Rattle.mailbox.specs.Ends.{fresh_lanes, max_items};

use crate::dealer::Dealer;
use crate::lane::Lane;
use crate::limits::{MAX_ITEMS, MAX_LANES};
use crate::moves::{Knowledge, Queue};
use crate::naming::Naming;
use crate::receiver::Receiver;
use machine::Memory;
use std::alloc::Global;
use std::marker::{Model, PhantomData};
use std::sync::Arc;

/// An empty inbox without a number and without lanes. In contracts it is its identity, which no
/// other inbox has.
#[derive(Drop)]
pub struct Inbox<T: Drop> {
    // Holds up to [`MAX_ITEMS`] items; now empty.
    queue: Arc<Queue<T>, Global>,
    // Knows that there are no lanes yet.
    pass: Knowledge<T>,
    alloc: Global,
}

impl<T: Drop> Model for Inbox<T> {
    ghost use Rattle.atomic_table.specs.Seated.{TableId, table_id_coded};

    ghost Value = { TableId };

    ghost coded = { table_id_coded };

    ghost use Rattle.std.specs.Arc.{arc_value};
    ghost use Rattle.crossbeam_queue.specs.Passes.{ruled_capacity};
    ghost use Rattle.mailbox.specs.Kept.{InboxKept};

    ghost view = { λ inbox. (arc_value inbox.queue).table.shared.table_id };

    ghost invariant = { λ inbox. InboxKept
        (arc_value inbox.queue).table.shared.table_id
        (ruled_capacity (arc_value inbox.queue))
        inbox.pass };
}

impl<T: Drop> Inbox<T> {
    /// Returns an empty inbox with capacity for [`MAX_ITEMS`] items. The only error is that memory
    /// ran out.
    pub fn new(alloc: Global) -> Result<Self, Memory>
        ensures { IfOk result (λ inbox. inbox.slots ≡ max_items) }
    {
        let (queue, pass) = Queue::ruled(alloc, MAX_ITEMS)?;
        let queue = Arc::new(alloc, queue)?;
        Ok(Inbox { queue, pass, alloc })
    }

    /// Names the inbox by its number, and makes `lanes` lanes, 1 to [`MAX_LANES`]. Returns its
    /// receiver and the lanes, in order. The only error is that memory ran out.
    pub fn named<J: Naming>(
        self,
        number: u8,
        lanes: u8,
    ) -> Result<(Receiver<T, J>, Vec<Lane<T, J>>), Memory>
        requires named { self ≡ J.inbox_of number }
        requires lanes { (1 ≤ lanes) × (lanes ≤ MAX_LANES) }
        ensures receiver { IfOk result (λ ends.
            ends.0 ≡ record { inbox = number; lanes = lanes; taken = [] }) }
        ensures lanes { IfOk result (λ ends. ends.1.items ≡ fresh_lanes number lanes) }
    {
        let Inbox { queue, pass, alloc } = self;
        let mut dealer = Dealer {
            queue,
            pass,
            inbox: number,
            counts: Vec::new(alloc),
            naming: PhantomData,
        };
        let mut all = Vec::new(alloc);
        for _ in 0..lanes {
            all.push(dealer.deal()?)?;
        }
        Ok((dealer.done(), all))
    }
}
