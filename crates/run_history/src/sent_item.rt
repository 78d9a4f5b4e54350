// An item on its way to a node.

ghost use Rattle.std.specs.Prelude.{◌≡◌};
ghost use Rattle.run_history.specs.Log.{sent_in};
ghost use Rattle.run_history.specs.Sending.{WasSentTo, is_message};

use crate::naming::RunNaming;
use crate::seen_run::SeenRun;
use crate::waiting::wait_for_ever;
use std::marker::Model;
use std::sync::Wait;
use world_base::Item;

/// An item on its way to the node of a number. If it is a message, an event of the run sent it to
/// that node. Contracts see it as the item.
#[derive(Drop)]
pub struct SentItem<H: RunNaming> {
    number: u8,
    item: Item,
    // A prefix of the log in which the message was sent.
    seen: SeenRun<H>,
}

impl<H: RunNaming> Model for SentItem<H> {
    ghost use Rattle.world_base.specs.declared.node_core.item.Item.{Item};
    ghost use Rattle.run_history.specs.Log.{sent_in};
    ghost use Rattle.run_history.specs.Sending.{WasSentTo};

    ghost Value = { Item };

    ghost view = { λ sent. sent.item };

    ghost invariant = { λ sent. WasSentTo (sent_in sent.seen) sent.number sent.item };
}

impl<H: RunNaming> SentItem<H> {
    /// Returns an item for the node of this number, which was sent to it by what was seen.
    pub fn new(number: u8, item: Item, seen: SeenRun<H>) -> SentItem<H>
        requires { WasSentTo (sent_in seen) number item }
        ensures { result ≡ item }
    {
        SentItem { number, item, seen }
    }

    /// Returns an item for the node of this number that comes from outside: from a client, or from
    /// the program. Waits for ever if it is a message.
    pub fn from_outside<R: Wait>(rt: &R, number: u8, item: Item, seen: SeenRun<H>) -> SentItem<H>
        ensures { result ≡ item }
    {
        if is_message(&item) {
            wait_for_ever(rt);
        }
        SentItem::new(number, item, seen)
    }

    /// Returns the item.
    pub fn item(&self) -> &Item
        ensures { result.now ≡ self.now }
    {
        &self.item
    }

    /// Returns the number of its node, the item, and what was seen when it was sent.
    pub fn into_parts(self) -> (u8, Item, SeenRun<H>)
        ensures item { result.1 ≡ self }
        ensures sent { WasSentTo (sent_in result.2) result.0 result.1 }
    {
        let SentItem { number, item, seen } = self;
        (number, item, seen)
    }
}

fn is_message(item: &Item) -> bool
    ensures { result ≡ is_message item.now }
{
    matches!(item, Item::Peer(_))
}
