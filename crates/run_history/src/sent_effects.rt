// What a step of a node gave.

ghost use Rattle.std.specs.Prelude.{◌≡◌};
ghost use Rattle.run_history.specs.Log.{sent_in};
ghost use Rattle.run_history.specs.Sending.{AllSent};

use crate::naming::RunNaming;
use crate::seen_run::SeenRun;
use ballot_base::Effect;
use broker_spec::{Command, Output};
use std::marker::Model;

/// Effects of a node, in order. Each message among them was sent by an event of the run. Contracts
/// see them as a list.
#[derive(Drop)]
pub struct SentEffects<H: RunNaming> {
    effects: Vec<Effect<Command, Output>>,
    // A prefix of the log in which the messages were sent.
    seen: SeenRun<H>,
}

impl<H: RunNaming> Model for SentEffects<H> {
    ghost use Rattle.std.specs.Prelude.{List};
    ghost use Rattle.ballot_base.specs.declared.message.Effect.{Effect};
    ghost use Rattle.broker_spec.specs.declared.command.Command.{Command};
    ghost use Rattle.broker_spec.specs.declared.command.Output.{Output};
    ghost use Rattle.run_history.specs.Log.{sent_in};
    ghost use Rattle.run_history.specs.Sending.{AllSent};

    ghost Value = { List (Effect Command Output) };

    ghost view = { λ sent. sent.effects.items };

    ghost invariant = { λ sent. AllSent (sent_in sent.seen) sent.effects.items };
}

impl<H: RunNaming> SentEffects<H> {
    /// Returns effects whose messages were sent by what was seen.
    pub fn new(effects: Vec<Effect<Command, Output>>, seen: SeenRun<H>) -> SentEffects<H>
        requires { AllSent (sent_in seen) effects.items }
        ensures { result ≡ effects.items }
    {
        SentEffects { effects, seen }
    }

    /// Returns the effects, and what was seen when their messages were sent.
    pub fn into_parts(self) -> (Vec<Effect<Command, Output>>, SeenRun<H>)
        ensures effects { result.0.items ≡ self }
        ensures sent { AllSent (sent_in result.1) result.0.items }
    {
        let SentEffects { effects, seen } = self;
        (effects, seen)
    }
}
