// The step of one replica, and where its effects go.

ghost use Rattle.std.specs.Prelude.{◌≡◌, ◌≤◌, false, [], ◌∷◌, ◌++◌, length, take, drop};
ghost use Rattle.std.specs.Prelude.{◌&&◌, if◌then◌else◌};
ghost use Rattle.ballot_base.specs.Losses.{one_more};
ghost use Rattle.ballot_base.specs.StepOutcome.{is_message};
ghost use Rattle.std.specs.Bool.{OnTrue, OnFalse};
ghost use Rattle.agreement.specs.cut_logs.World.{messages};
ghost use Rattle.master.specs.Inside.Losses.{InputStepOrLost, Parted, input_of};

use ballot::Replica;
use ballot_base::{Effect, Message};
use machine::Machine;

/// An input of a node.
#[derive(Drop)]
pub enum Input<C> {
    /// A message of another node.
    Received(Message<C>),
    /// A command.
    Proposed(C),
    /// Time passes.
    Ticked,
}

/// Feeds an input to a replica that runs. Returns true if nothing was lost.
pub fn step_replica<M: Machine>(
    replica: &mut Replica<M>,
    input: Input<M::Command>,
    out: &mut Vec<Effect<M::Command, M::Output>>,
) -> bool
    requires { replica.old.state.stopped ≡ false }
    ensures { InputStepOrLost M.rules replica.old (input_of input) replica.new
        out.old.items out.new.items result }
{
    let before = replica.losses();
    match input {
        Input::Received(message) => {
            let _ = replica.on(message, out);
        }
        Input::Proposed(command) => {
            let _ = replica.propose(command, out);
        }
        Input::Ticked => replica.tick(out),
    }
    replica.losses() == before && before < u64::MAX
}

fn is_message<C, O>(effect: &Effect<C, O>) -> bool
    ensures { result ≡ is_message effect.now }
{
    matches!(effect, Effect::To(_, _))
}

// Appends a message to those that were sent. Returns false if memory ran out.
fn keep<C: Drop, O: Drop>(effect: Effect<C, O>, sent: &mut Vec<(u8, Message<C>)>) -> bool
    ensures kept { OnTrue result (sent.new.items ≡ sent.old.items ++ messages (effect ∷ [])) }
    ensures lost { OnFalse result (sent.new.items ≡ sent.old.items) }
{
    match effect {
        Effect::To(receiver, message) => sent.push((receiver, message)).is_ok(),
        Effect::Out(_, _) => true,
    }
}

/// Moves the messages among the effects from index `from` on to those that were sent. A message for
/// which memory runs out is lost. Returns true if none was lost.
pub fn part<C: Drop, O: Drop>(
    effects: &mut Vec<Effect<C, O>>,
    sent: &mut Vec<(u8, Message<C>)>,
    from: usize,
) -> bool
    requires { from ≤ length effects.old.items }
    ensures { Parted (drop from effects.old.items) (take from effects.old.items) effects.new.items
        sent.old.items sent.new.items result }
{
    let mut at = from;
    let mut whole = true;
    for _index in from..effects.len() {
        if is_message(&effects[at]) {
            let effect = effects.remove(at);
            whole = keep(effect, sent) && whole;
        } else {
            at += 1;
        }
    }
    whole
}

/// Returns the count of losses after a step of two parts, each of which was whole or not (saturates
/// at 2^64 - 1).
pub fn counted(losses: u64, first: bool, second: bool) -> u64
    ensures { result ≡ (if first && second then losses else one_more losses) }
{
    if first && second {
        losses
    } else {
        losses.saturating_add(1)
    }
}
