// Copies of messages, so that one that was sent can be delivered again.

ghost use Rattle.std.specs.Prelude.{◌≡◌, true, IfOk, IsOk};
ghost use Rattle.master.specs.Copies.{has_numbers_alone};

use ballot_base::{Body, Config, Members, Message, copy_log};
use machine::{Machine, Memory};
use std::alloc::Global;

/// Returns a copy of a message. Fails only if memory runs out, which a message of numbers alone
/// never does.
pub fn copy_of<M: Machine>(
    alloc: Global,
    message: &Message<M::Command>,
) -> Result<Message<M::Command>, Memory>
    ensures same { IfOk result (λ copied. copied ≡ message.now) }
    ensures numbers { has_numbers_alone message.now.body ≡ true → IsOk result }
{
    let from = message.from;
    let body = match &message.body {
        Body::NewBallot(ballot, members, previous, previous_members) => {
            new_ballot_of(alloc, *ballot, members, *previous, previous_members)?
        }
        Body::Join(ballot, previous) => Body::Join(*ballot, *previous),
        Body::State(ballot, log) => Body::State(*ballot, copy_log::<M>(alloc, log)?),
        Body::Install(ballot, log) => Body::Install(*ballot, copy_log::<M>(alloc, log)?),
        Body::Installed(ballot, held) => Body::Installed(*ballot, *held),
        Body::Activate(ballot) => Body::Activate(*ballot),
        Body::Activated(ballot) => Body::Activated(*ballot),
        Body::Superseded(ballot) => Body::Superseded(*ballot),
        Body::Append(ballot, place, command) => {
            Body::Append(*ballot, *place, M::copy(alloc, command)?)
        }
        Body::Held(ballot, held) => Body::Held(*ballot, *held),
        Body::Commit(ballot, committed) => Body::Commit(*ballot, *committed),
    };
    Ok(Message { from, body })
}

fn new_ballot_of<C>(
    alloc: Global,
    ballot: u64,
    members: &Members,
    previous: u64,
    previous_members: &Members,
) -> Result<Body<C>, Memory>
    ensures { IfOk result (λ body. body
        ≡ Body.NewBallot ballot members.now previous previous_members.now) }
{
    let members = Members::from_slice(alloc, members.as_slice())?;
    let previous_members = Members::from_slice(alloc, previous_members.as_slice())?;
    Ok(Body::NewBallot(ballot, members, previous, previous_members))
}

/// Returns a copy of a configuration. Fails only if memory runs out.
pub fn config_of(alloc: Global, config: &Config) -> Result<Config, Memory>
    ensures { IfOk result (λ copied. copied ≡ config.now) }
{
    let members = Members::from_slice(alloc, config.members.as_slice())?;
    let primary = config.primary;
    Ok(Config { members, primary })
}
