// A node that is about to serve.

use mailbox::Inbox;
use run_history::{NodeOnRecord, RunNaming, SentItem};
use std::marker::Model;

/// A node that is about to serve, and its inbox.
#[derive(Drop)]
pub struct OpenedNode<H: RunNaming> {
    /// The node's number.
    pub number: u8,
    /// Its inbox, which has no lanes yet.
    pub inbox: Inbox<SentItem<H>>,
    /// The node as the run has it on record.
    pub node: NodeOnRecord<H>,
}

impl<H: RunNaming> Model for OpenedNode<H> {
    ghost use Rattle.server.specs.node_threads.Named.{OpenedView};

    ghost Value = { OpenedView };

    ghost view = { λ opened. record {
      number = opened.number;
      inbox = opened.inbox;
      node = opened.node;
    } };
}
