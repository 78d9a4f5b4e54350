// The messages that the master sends and receives.

ghost use Rattle.std.specs.Prelude.{◌≡◌, ◌++◌, ◌∷◌, []};
ghost use Rattle.std.specs.Bool.{OnTrue, OnFalse};
ghost use Rattle.ballot_base.specs.StepOutcome.{master};
ghost use Rattle.master.specs.Inside.{activation_answer, asks_for};

use crate::activation::Activation;
use ballot_base::{Body, MASTER, Message};

/// Appends a message of the master to those that were sent. Returns false if memory ran out.
pub fn send<C: Drop>(sent: &mut Vec<(u8, Message<C>)>, receiver: u8, body: Body<C>) -> bool
    ensures kept { OnTrue result
        (sent.new.items ≡ sent.old.items ++ (receiver, record { from = master; body = body })
        ∷ []) }
    ensures lost { OnFalse result (sent.new.items ≡ sent.old.items) }
{
    sent.push((receiver, Message { from: MASTER, body }))
        .is_ok()
}

/// Returns the message that answers an Activate.
pub fn activation_answer<C>(activation: Activation, ballot: u64) -> Body<C>
    ensures { result ≡ activation_answer activation ballot }
{
    match activation {
        Activation::Activated => Body::Activated(ballot),
        Activation::Superseded => Body::Superseded(ballot),
    }
}

/// Returns the ballot of an Activate, and `None` for any other message.
pub fn asks_for<C>(message: &Message<C>) -> Option<u64>
    ensures { result ≡ asks_for message.now.body }
{
    match message.body {
        Body::Activate(ballot) => Some(ballot),
        _ => None,
    }
}
