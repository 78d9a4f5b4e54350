// Sending messages. A message for which there is no memory is lost.

ghost use Rattle.std.specs.Prelude.{◌≡◌, [], ◌∷◌, IfOk};
ghost use Rattle.ballot_base.specs.Logs.{command_at};
ghost use Rattle.ballot_base.specs.Sends.{Sends};
ghost use Rattle.ballot_base.specs.Service.{append_at, appends_after};
ghost use Rattle.ballot_base.specs.StepOutcome.{message_to, message_to_each, message_to_followed};

use crate::copies::copy_log;
use crate::{Body, Effect, Log, Message, Progress};
use machine::{Machine, Memory};
use std::alloc::Global;

/// The node number of the master.
pub const MASTER: u8 = 0;

/// Appends a message to a node. Returns false if memory ran out, and the message is lost.
pub fn send<C: Drop, O: Drop>(
    out: &mut Vec<Effect<C, O>>,
    receiver: u8,
    message: Message<C>,
) -> bool
    ensures { Sends out.old.items out.new.items (Effect.To receiver message ∷ []) result }
{
    out.push(Effect::To(receiver, message)).is_ok()
}

// Sends a message with this body. Returns false if memory ran out, for the body or for the message.
fn send_made<C: Drop, O: Drop>(
    out: &mut Vec<Effect<C, O>>,
    from: u8,
    receiver: u8,
    made: Result<Body<C>, Memory>,
) -> bool
    ensures { (body : Body C) → IfOk made (λ it. it ≡ body) →
        Sends out.old.items out.new.items (message_to O from body receiver ∷ []) result }
{
    match made {
        Ok(body) => send(out, receiver, Message { from, body }),
        Err(_) => false,
    }
}

// Sends Append with a copy of the command at `place` to a node. Returns false if memory ran out.
fn send_append<M: Machine>(
    alloc: Global,
    from: u8,
    ballot: u64,
    place: u64,
    command: &M::Command,
    receiver: u8,
    out: &mut Vec<Effect<M::Command, M::Output>>,
) -> bool
    ensures { Sends out.old.items out.new.items
        (message_to M.Output from (Body.Append ballot place command.now) receiver ∷ []) result }
{
    let made = append_of::<M>(alloc, ballot, place, command);
    send_made(out, from, receiver, made)
}

fn append_of<M: Machine>(
    alloc: Global,
    ballot: u64,
    place: u64,
    command: &M::Command,
) -> Result<Body<M::Command>, Memory>
    ensures { IfOk result (λ body. body ≡ Body.Append ballot place command.now) }
{
    Ok(Body::Append(ballot, place, M::copy(alloc, command)?))
}

/// Sends Append(place) to every tracked member. Returns true if no message was lost.
pub fn send_appends<M: Machine>(
    alloc: Global,
    from: u8,
    ballot: u64,
    place: u64,
    command: &M::Command,
    progress: &[Progress],
    out: &mut Vec<Effect<M::Command, M::Output>>,
) -> bool
    ensures { Sends out.old.items out.new.items
        (message_to_followed M.Output from (Body.Append ballot place command.now) progress.now)
        result }
{
    let mut whole = true;
    for reached in progress {
        let sent = send_append::<M>(alloc, from, ballot, place, command, reached.member, out);
        whole = whole && sent;
    }
    whole
}

/// Sends each tracked member that lags the command at its progress, which it lacks first. Returns
/// true if no message was lost.
pub fn send_after<M: Machine>(
    alloc: Global,
    from: u8,
    ballot: u64,
    log: &Log<M::Command>,
    progress: &[Progress],
    out: &mut Vec<Effect<M::Command, M::Output>>,
) -> bool
    ensures { Sends out.old.items out.new.items
        (appends_after M.Output from ballot log.now progress.now) result }
{
    let mut whole = true;
    for reached in progress {
        let sent = send_at_reached::<M>(alloc, from, ballot, log, *reached, out);
        whole = whole && sent;
    }
    whole
}

// Sends a member the command at its progress, if the log still keeps it. Returns true if no message
// was lost.
fn send_at_reached<M: Machine>(
    alloc: Global,
    from: u8,
    ballot: u64,
    log: &Log<M::Command>,
    reached: Progress,
    out: &mut Vec<Effect<M::Command, M::Output>>,
) -> bool
    ensures { Sends out.old.items out.new.items
        (append_at M.Output from ballot reached (command_at log.now reached.held)) result }
{
    if reached.held < log.base() {
        return true;
    }
    match log.rest().get((reached.held - log.base()) as usize) {
        Some(command) => {
            send_append::<M>(
                alloc,
                from,
                ballot,
                reached.held,
                command,
                reached.member,
                out,
            )
        }
        None => true,
    }
}

/// Sends Commit(held) to every tracked member. Returns true if no message was lost.
pub fn send_commits<C: Drop, O: Drop>(
    from: u8,
    ballot: u64,
    committed: u64,
    progress: &[Progress],
    out: &mut Vec<Effect<C, O>>,
) -> bool
    ensures { Sends out.old.items out.new.items
        (message_to_followed O from (Body.Commit ballot committed) progress.now) result }
{
    let mut whole = true;
    for reached in progress {
        let body = Body::Commit(ballot, committed);
        let sent = send(out, reached.member, Message { from, body });
        whole = whole && sent;
    }
    whole
}

/// Sends Join to each of some nodes, to ask for their logs. Returns true if no message was lost.
pub fn send_joins<C: Drop, O: Drop>(
    from: u8,
    ballot: u64,
    previous: u64,
    receivers: &[u8],
    out: &mut Vec<Effect<C, O>>,
) -> bool
    ensures { Sends out.old.items out.new.items
        (message_to_each O from (Body.Join ballot previous) receivers.now) result }
{
    let mut whole = true;
    for receiver in receivers {
        let body = Body::Join(ballot, previous);
        let sent = send(out, *receiver, Message { from, body });
        whole = whole && sent;
    }
    whole
}

/// Sends State, with a copy of the log, to the primary that asked for it. Returns false if memory
/// ran out.
pub fn send_state<M: Machine>(
    alloc: Global,
    from: u8,
    ballot: u64,
    log: &Log<M::Command>,
    receiver: u8,
    out: &mut Vec<Effect<M::Command, M::Output>>,
) -> bool
    ensures { Sends out.old.items out.new.items
        (message_to M.Output from (Body.State ballot log.now) receiver ∷ []) result }
{
    let made = state_of::<M>(alloc, ballot, log);
    send_made(out, from, receiver, made)
}

fn state_of<M: Machine>(
    alloc: Global,
    ballot: u64,
    log: &Log<M::Command>,
) -> Result<Body<M::Command>, Memory>
    ensures { IfOk result (λ body. body ≡ Body.State ballot log.now) }
{
    Ok(Body::State(ballot, copy_log::<M>(alloc, log)?))
}

fn install_of<M: Machine>(
    alloc: Global,
    ballot: u64,
    log: &Log<M::Command>,
) -> Result<Body<M::Command>, Memory>
    ensures { IfOk result (λ body. body ≡ Body.Install ballot log.now) }
{
    Ok(Body::Install(ballot, copy_log::<M>(alloc, log)?))
}

/// Sends Install, with a copy of the log, to each of some members. Returns true if no message was
/// lost.
pub fn send_installs<M: Machine>(
    alloc: Global,
    from: u8,
    ballot: u64,
    log: &Log<M::Command>,
    receivers: &[u8],
    out: &mut Vec<Effect<M::Command, M::Output>>,
) -> bool
    ensures { Sends out.old.items out.new.items
        (message_to_each M.Output from (Body.Install ballot log.now) receivers.now) result }
{
    let mut whole = true;
    for receiver in receivers {
        let made = install_of::<M>(alloc, ballot, log);
        let sent = send_made(out, from, *receiver, made);
        whole = whole && sent;
    }
    whole
}
