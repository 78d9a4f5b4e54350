// The events of a recovery, in order.

ghost use Rattle.std.specs.Prelude.{◌≡◌, ◌≤◌, ◌<◌, ◌+◌, ◌*◌, ◌^◌, ◌-◌, ◌∷◌, ◌++◌, length, map, OnOk};
ghost use Rattle.recovery.specs.replicas.Deliveries.{recovery_messages};
ghost use Rattle.world_pipes.specs.Piped.{is_holding};
ghost use Rattle.world_pipes.specs.declared.events.event.Event.TheVariants as events;
ghost use Rattle.world_pipes.specs.events.EscapeEvents.{answer_events, client_events, connect_bytes, leaving};

use crate::PipedClient;
use crate::events::event::Event;
use ballot_base::Config;
use machine::Memory;
use packet_base::ClientId;
use recovery::replicas::{answers, recovery_messages};
use std::alloc::Global;

/// The length of a CONNECT without its identifier, in bytes.
const CONNECT_BYTES: u64 = 14;

/// The length of a CONNACK, in bytes.
const CONNACK_BYTES: u64 = 4;

/// Appends an Assign and the deliveries that lead its ballot to the start. `sent` messages were
/// sent before; the member at `index` of this many `members` is asked for its log.
pub fn push_group(
    alloc: Global,
    out: &mut Vec<Event>,
    config: Config,
    sent: u64,
    members: u64,
    index: u64,
) -> Result<(), Memory>
    requires some { 1 ≤ length config.members }
    requires placed { index < members }
    requires bound { sent + members + 4 * (length config.members - 1) + 4 < 2 ^ 64 }
    ensures { OnOk result (out.new.items ≡ out.old.items ++ events.Assign config
        ∷ map events.Deliver (recovery_messages sent members index (length config.members - 1))) }
{
    let others = config.members.as_slice().len() as u64 - 1;
    let numbers = recovery_messages(alloc, sent, members, index, others)?;
    out.push(Event::Assign(config))?;
    push_messages(out, numbers.as_slice())
}

/// Appends the events by which a client loses the connection that it holds, opens one to the new
/// primary, number `number`, and its CONNECT arrives. Fails only if memory runs out.
pub fn push_client(
    out: &mut Vec<Event>,
    piped: &PipedClient,
    client: &ClientId,
    primary: u8,
    number: u64,
) -> Result<(), Memory>
    ensures { OnOk result (out.new.items ≡ out.old.items ++ client_events (is_holding piped.now)
        client.now primary number (connect_bytes + length piped.now.core.state.client)) }
{
    push_leaving(out, piped, client)?;
    out.push(Event::Open(client.clone()?, primary))?;
    let bytes = CONNECT_BYTES + piped.core().client().as_str().len() as u64;
    out.push(Event::CarryUp(number, bytes))?;
    Ok(())
}

// Appends the loss of the connection that the client holds, if it holds one.
fn push_leaving(out: &mut Vec<Event>, piped: &PipedClient, client: &ClientId) -> Result<(), Memory>
    ensures { OnOk result
        (out.new.items ≡ out.old.items ++ leaving (is_holding piped.now) client.now) }
{
    if !piped.is_open() {
        return Ok(());
    }
    out.push(Event::Abandon(client.clone()?))?;
    Ok(())
}

/// Appends the deliveries by which the other members hold and answer the command, after `sent`
/// messages, and the arrival of the CONNACK on connection `number`. Fails only if memory runs out.
pub fn push_answers(
    alloc: Global,
    out: &mut Vec<Event>,
    sent: u64,
    others: u64,
    number: u64,
) -> Result<(), Memory>
    requires { sent + 2 * others < 2 ^ 64 }
    ensures { OnOk result (out.new.items ≡ out.old.items ++ answer_events sent others number) }
{
    let numbers = answers(alloc, sent, others)?;
    push_messages(out, numbers.as_slice())?;
    out.push(Event::CarryDown(number, CONNACK_BYTES))?;
    Ok(())
}

fn push_messages(out: &mut Vec<Event>, numbers: &[u64]) -> Result<(), Memory>
    ensures { OnOk result (out.new.items ≡ out.old.items ++ map events.Deliver numbers.now) }
{
    for number in numbers {
        out.push(Event::Deliver(*number))?;
    }
    Ok(())
}
