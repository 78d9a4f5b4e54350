// A message on its way.

ghost use Rattle.std.specs.Prelude.{◌≡◌};
ghost use Rattle.lists.specs.Lists.{In};
ghost use Rattle.world_base.specs.declared.node_core.item.Item.TheVariants.{Peer};
ghost use Rattle.run_history.specs.Log.{sent_in};

use crate::naming::RunNaming;
use crate::seen_run::SeenRun;
use crate::sent_item::SentItem;
use ballot_base::Message;
use broker_spec::Command;
use std::marker::Model;
use world_base::Item;

/// A message that an event of the run sent, with the number of its receiver; 0 is the master.
#[derive(Drop)]
pub struct SentMessage<H: RunNaming> {
    receiver: u8,
    message: Message<Command>,
    // A prefix of the log in which it was sent.
    seen: SeenRun<H>,
}

impl<H: RunNaming> Model for SentMessage<H> {
    ghost use Rattle.lists.specs.Lists.{In};
    ghost use Rattle.run_history.specs.Log.{sent_in};
    ghost use Rattle.run_history.specs.Sending.{Addressed};

    ghost Value = { Addressed };

    ghost view = { λ sent. record { receiver = sent.receiver; message = sent.message } };

    ghost invariant = { λ sent. In (sent.receiver, sent.message) (sent_in sent.seen) };
}

impl<H: RunNaming> SentMessage<H> {
    /// Returns a message that was sent to this receiver by what was seen.
    pub fn new(receiver: u8, message: Message<Command>, seen: SeenRun<H>) -> SentMessage<H>
        requires { In (receiver, message) (sent_in seen) }
        ensures { result ≡ record { receiver = receiver; message = message } }
    {
        SentMessage {
            receiver,
            message,
            seen,
        }
    }

    /// Returns the number of its receiver.
    pub fn receiver(&self) -> u8
        ensures { result ≡ self.now.receiver }
    {
        self.receiver
    }

    /// Returns the number of its receiver, the message, and what was seen when it was sent.
    pub fn into_parts(self) -> (u8, Message<Command>, SeenRun<H>)
        ensures receiver { result.0 ≡ self.receiver }
        ensures message { result.1 ≡ self.message }
        ensures sent { In (result.0, result.1) (sent_in result.2) }
    {
        let SentMessage {
            receiver,
            message,
            seen,
        } = self;
        (receiver, message, seen)
    }

    /// Returns the message.
    pub fn message(&self) -> &Message<Command>
        ensures { result.now ≡ self.now.message }
    {
        &self.message
    }

    /// Returns the message as an item for its receiver.
    pub fn into_item(self) -> SentItem<H>
        ensures { result ≡ Peer self.message }
    {
        let SentMessage {
            receiver,
            message,
            seen,
        } = self;
        SentItem::new(receiver, Item::Peer(message), seen)
    }
}
