// Queuing what a node's steps gave for others, in order.

ghost use Rattle.std.specs.Prelude.{◌≡◌, [], ◌∷◌};
ghost use Rattle.run_history.specs.Log.{sent_in};
ghost use Rattle.run_history.specs.Sending.{AllSent, EffectWasSent};
ghost use Rattle.post.specs.GivenMessages.{QueuesAll, messages_of};

use crate::addressed_message::AddressedMessage;
use ballot_base::Effect;
use broker_spec::{Command, Output};
use run_history::{RunNaming, SeenRun, SentEffects, SentMessage};
use std::marker::Model;
use std::sync::Wait;

/// What steps of a node gave, in order; each message was sent by an event of the run. It cannot be
/// dropped: only [`queue_all`] and [`Cluster::queue_given`] take it, so the code that has it queues
/// it.
///
/// [`Cluster::queue_given`]: crate::Cluster::queue_given
pub struct GivenEffects<H: RunNaming> {
    effects: SentEffects<H>,
}

impl<H: RunNaming> Model for GivenEffects<H> {
    ghost use Rattle.std.specs.Prelude.{List};
    ghost use Rattle.broker_spec.specs.declared.command.Command.{Command};
    ghost use Rattle.broker_spec.specs.declared.command.Output.{Output};
    ghost use Rattle.ballot_base.specs.declared.message.Effect.{Effect};

    ghost Value = { List (Effect Command Output) };

    ghost view = { λ given. given.effects };
}

impl<H: RunNaming> GivenEffects<H> {
    /// Returns what steps of a node gave.
    pub fn new(effects: SentEffects<H>) -> GivenEffects<H>
        ensures { result ≡ effects }
    {
        GivenEffects { effects }
    }
}

/// The receivers of messages of this type: nodes, for which they are queued, and the master, which
/// answers them.
pub trait Receivers<M> {
    // The state before a call, the message, and the state after it.
    ghost queues: { Self → M → Self → Type 0 };

    /// Queues a node's message for its receiver.
    fn queue<R: Wait>(&mut self, rt: &R, addressed: M)
        ensures { queues self.old addressed self.new };
}

/// Queues all messages among the effects, in order, each once. Outputs are for no other node.
pub fn queue_all<H, C, R>(rt: &R, receivers: &mut C, given: GivenEffects<H>)
where
    H: RunNaming,
    C: Receivers<AddressedMessage<H>>,
    R: Wait,
    ensures { QueuesAll C.queues receivers.old (messages_of given) receivers.new }
{
    let GivenEffects { effects } = given;
    let (effects, seen) = effects.into_parts();
    queue_each(rt, receivers, effects, &seen);
}

fn queue_each<H, C, R>(
    rt: &R,
    receivers: &mut C,
    effects: Vec<Effect<Command, Output>>,
    seen: &SeenRun<H>,
)
where
    H: RunNaming,
    C: Receivers<AddressedMessage<H>>,
    R: Wait,
    requires { AllSent (sent_in seen.now) effects.items }
    ensures { QueuesAll C.queues receivers.old (messages_of effects.items) receivers.new }
{
    for effect in effects {
        queue_one(rt, receivers, effect, seen);
    }
}

fn queue_one<H, C, R>(rt: &R, receivers: &mut C, effect: Effect<Command, Output>, seen: &SeenRun<H>)
where
    H: RunNaming,
    C: Receivers<AddressedMessage<H>>,
    R: Wait,
    requires { EffectWasSent (sent_in seen.now) effect }
    ensures { QueuesAll C.queues receivers.old (messages_of (effect ∷ [])) receivers.new }
{
    match effect {
        Effect::To(receiver, message) => {
            let sent = SentMessage::new(receiver, message, seen.again());
            receivers.queue(rt, AddressedMessage::new(sent));
        }
        Effect::Out(_, _) => {}
    }
}
