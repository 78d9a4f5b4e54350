// Keeping the messages among a step's effects.

ghost use Rattle.std.specs.Prelude.{◌≡◌, ◌++◌, ◌∷◌, []};
ghost use Rattle.std.specs.Bool.{OnTrue, OnFalse};
ghost use Rattle.agreement.specs.cut_logs.World.{messages};
ghost use Rattle.ballot_base.specs.Losses.{Thinned};
ghost use Rattle.world_nodes.specs.Inside.{KeepsMessages};

use ballot_base::{Effect, Message};
use broker_spec::{Command, Output};

/// Appends the messages among the effects to those that were sent. A message for which memory runs
/// out is lost. Returns true if none was lost.
pub fn keep_all(
    effects: Vec<Effect<Command, Output>>,
    sent: &mut Vec<(u8, Message<Command>)>,
) -> bool
    ensures { KeepsMessages effects.items sent.old.items sent.new.items result }
{
    let mut whole = true;
    for effect in effects {
        whole = keep(effect, sent) && whole;
    }
    whole
}

// Appends a message to those that were sent. Returns false if memory runs out.
fn keep(effect: Effect<Command, Output>, sent: &mut Vec<(u8, Message<Command>)>) -> bool
    ensures kept { OnTrue result (sent.new.items ≡ sent.old.items ++ messages (effect ∷ [])) }
    ensures lost { OnFalse result (sent.new.items ≡ sent.old.items) }
    ensures message { OnFalse result (Thinned [] (effect ∷ [])) }
{
    match effect {
        Effect::To(receiver, message) => sent.push((receiver, message)).is_ok(),
        Effect::Out(_, _) => true,
    }
}
