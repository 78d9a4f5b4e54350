// The event that a line asks for.

ghost use Rattle.std.specs.Prelude.{◌≡◌, true, Some, length, option_map, IfOk, IsErrOf, OnErr};
ghost use Rattle.std.specs.List.{list_all};
ghost use Rattle.world_pipes.specs.declared.events.event.Event.TheVariants as events;
ghost use Rattle.world.specs.Found.{pair_of};
ghost use Rattle.world.specs.Cannot.{down_of, up_of};
ghost use Rattle.play.specs.Events.{asked_in, assign_of, count_of, is_byte, node_of};
ghost use Rattle.play.specs.Inside.{IsCallOf, is_call};

use crate::error::PlayError;
use ballot_base::{Config, Members};
use packet_base::ClientId;
use script::{Amount, Numbers, ScriptLine};
use std::alloc::Global;
use world::World;
use world_pipes::events::Event;

/// Returns the event that a line asks for in a world; none if it names a number that no node can
/// have. The only error is that memory ran out.
pub(crate) fn event_of(
    alloc: Global,
    world: &World,
    line: &ScriptLine,
) -> Result<Option<Event>, PlayError>
    ensures event { IfOk result (λ event. event ≡ asked_in world.now line.now) }
    ensures memory { OnErr result (IsErrOf result PlayError.Memory) }
{
    match line {
        ScriptLine::Assign(members, primary) => assign(alloc, members, *primary),
        ScriptLine::Deliver(message) => Ok(Some(Event::Deliver(*message))),
        ScriptLine::Tick(node) => Ok(tick(*node)),
        ScriptLine::Cut(node) => Ok(cut(*node)),
        ScriptLine::Expel(client, node) => expel(client, *node),
        ScriptLine::Crash(node) => Ok(crash(*node)),
        ScriptLine::Open(client, node) => open(client, *node),
        ScriptLine::CarryUp(connection, amount) => {
            let count = count_up(world, *connection, *amount);
            Ok(Some(Event::CarryUp(*connection, count)))
        }
        ScriptLine::CarryDown(connection, amount) => {
            let count = count_down(world, *connection, *amount);
            Ok(Some(Event::CarryDown(*connection, count)))
        }
        ScriptLine::Notice(connection) => Ok(Some(Event::Notice(*connection))),
        ScriptLine::Abandon(_)
        | ScriptLine::Disconnect(_)
        | ScriptLine::Publish(_, _)
        | ScriptLine::Subscribe(_, _, _)
        | ScriptLine::Unsubscribe(_, _) => Ok(Some(call(line)?)),
    }
}

// Returns the call that a line asks of a client.
fn call(line: &ScriptLine) -> Result<Event, PlayError>
    requires { is_call line.now ≡ true }
    ensures event { IfOk result (λ event. IsCallOf line.now event) }
    ensures memory { OnErr result (IsErrOf result PlayError.Memory) }
{
    match line {
        ScriptLine::Abandon(client) => Ok(Event::Abandon(client.clone()?)),
        ScriptLine::Disconnect(client) => Ok(Event::Disconnect(client.clone()?)),
        ScriptLine::Publish(client, publication) => {
            Ok(Event::Publish(client.clone()?, publication.clone()?))
        }
        ScriptLine::Subscribe(client, filter, qos) => {
            Ok(Event::Subscribe(client.clone()?, filter.clone()?, *qos))
        }
        ScriptLine::Unsubscribe(client, filter) => {
            Ok(Event::Unsubscribe(client.clone()?, filter.clone()?))
        }
        _ => unreachable!(),
    }
}

// Returns an Assign, if each number is a byte.
fn assign(alloc: Global, members: &Numbers, primary: u64) -> Result<Option<Event>, PlayError>
    ensures event { IfOk result (λ event. event ≡ assign_of members.now primary) }
    ensures memory { OnErr result (IsErrOf result PlayError.Memory) }
{
    if !are_bytes(members.as_slice()) || primary > 255 {
        return Ok(None);
    }
    let members = members_from_numbers(alloc, members.as_slice())?;
    let primary = primary as u8;
    Ok(Some(Event::Assign(Config { members, primary })))
}

fn are_bytes(numbers: &[u64]) -> bool
    ensures { result ≡ list_all is_byte numbers.now }
{
    numbers.iter().all(|number| *number <= 255)
}

// Returns the members of these numbers, each of which is a byte.
fn members_from_numbers(alloc: Global, numbers: &[u64]) -> Result<Members, PlayError>
    requires { list_all is_byte numbers.now ≡ true }
    ensures value { IfOk result (λ members. members ≡ numbers.now) }
    ensures memory { OnErr result (IsErrOf result PlayError.Memory) }
{
    let mut bytes: Vec<u8> = Vec::new(alloc);
    for number in numbers {
        bytes.push(*number as u8)?;
    }
    Ok(Members::from_slice(alloc, bytes.as_slice())?)
}

fn tick(node: u64) -> Option<Event>
    ensures { result ≡ option_map events.Tick (node_of node) }
{
    Some(Event::Tick(node_of(node)?))
}

fn cut(node: u64) -> Option<Event>
    ensures { result ≡ option_map events.Cut (node_of node) }
{
    Some(Event::Cut(node_of(node)?))
}

fn crash(node: u64) -> Option<Event>
    ensures { result ≡ option_map events.Crash (node_of node) }
{
    Some(Event::Crash(node_of(node)?))
}

// Returns the end of a client's session, proposed by a node.
fn expel(client: &ClientId, node: u64) -> Result<Option<Event>, PlayError>
    ensures event { IfOk result (λ event.
        event ≡ option_map (events.Expel client.now) (node_of node)) }
    ensures memory { OnErr result (IsErrOf result PlayError.Memory) }
{
    let Some(node) = node_of(node) else {
        return Ok(None);
    };
    Ok(Some(Event::Expel(client.clone()?, node)))
}

// Returns the opening of a client's connection to a node.
fn open(client: &ClientId, node: u64) -> Result<Option<Event>, PlayError>
    ensures event { IfOk result (λ event.
        event ≡ option_map (events.Open client.now) (node_of node)) }
    ensures memory { OnErr result (IsErrOf result PlayError.Memory) }
{
    let Some(node) = node_of(node) else {
        return Ok(None);
    };
    Ok(Some(Event::Open(client.clone()?, node)))
}

// Returns how many bytes of a connection reach its node.
fn count_up(world: &World, connection: u64, amount: Amount) -> u64
    ensures { result ≡ count_of (length (up_of (pair_of connection world.now))) amount }
{
    count_of(amount, world.up(connection))
}

// Returns how many bytes of a connection reach its client.
fn count_down(world: &World, connection: u64, amount: Amount) -> u64
    ensures { result ≡ count_of (length (down_of (pair_of connection world.now))) amount }
{
    count_of(amount, world.down(connection))
}

// Returns how many of the waiting bytes the amount stands for.
fn count_of(amount: Amount, waiting: &[u8]) -> u64
    ensures { result ≡ count_of (length waiting.now) amount }
{
    match amount {
        Amount::All => waiting.len() as u64,
        Amount::Bytes(count) => count,
    }
}

// Returns the number of a node, if it is a byte.
fn node_of(number: u64) -> Option<u8>
    ensures { result ≡ node_of number }
{
    if number <= 255 {
        Some(number as u8)
    } else {
        None
    }
}
