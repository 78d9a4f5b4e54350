// Facts about an inbox that one end passes to another.

use crate::moves::Knowledge;
use crate::naming::Naming;
use std::marker::{Model, PhantomData};

/// Bounds on an inbox: a lower bound of what one lane has sent, a lower bound of what was taken of
/// all lanes, and an upper bound of what all lanes will ever send. They exist in contracts alone:
/// no field keeps them, so code that gets a receipt has to look at the inbox itself.
#[derive(Drop)]
pub struct Receipt<T: Drop, J: Naming> {
    /// Knows the bounds.
    pub(crate) pass: Knowledge<T>,
    /// The number of the inbox.
    pub(crate) inbox: u8,
    /// Which inbox the number names; the caller chooses it.
    pub(crate) naming: PhantomData<J>,
}

impl<T: Drop, J: Naming> Model for Receipt<T, J> {
    ghost use Rattle.mailbox.specs.Ends.{ReceiptView};

    ghost Value = { ReceiptView };

    ghost use Rattle.crossbeam_queue.specs.Passes.{view as known_by};
    ghost use Rattle.mailbox.specs.Kept.{ReceiptKept};

    ghost view = { λ receipt.
        record { inbox = receipt.inbox; bounds = (known_by receipt.pass).bounds } };

    ghost invariant = { λ receipt. ReceiptKept receipt.pass (J.inbox_of receipt.inbox) };
}
