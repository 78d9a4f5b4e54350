// The lines of a recovery's events.

ghost use Rattle.std.specs.Prelude.{◌≡◌, ◌++◌, OnOk, codes};
ghost use Rattle.std.specs.Fmt.{decimal};
ghost use Rattle.play.specs.Recoveries.{event_line, members_text, more_members, one_field, two_fields};

use ballot_base::Config;
use packet_base::ClientId;
use std::alloc::{AllocError, Global};
use world_pipes::events::Event;

/// Appends the line of an event, as a script writes it; nothing for an event that no recovery has.
pub(crate) fn write_event(
    alloc: Global,
    event: &Event,
    text: &mut Vec<u8>,
) -> Result<(), AllocError>
    ensures { OnOk result (text.new.items ≡ text.old.items ++ event_line event.now) }
{
    match event {
        Event::Assign(config) => write_assign(alloc, config, text),
        Event::Deliver(number) => write_deliver(alloc, *number, text),
        Event::Open(client, node) => write_open(alloc, client, *node, text),
        Event::CarryUp(connection, count) => write_up(alloc, *connection, *count, text),
        Event::CarryDown(connection, count) => write_down(alloc, *connection, *count, text),
        Event::Abandon(client) => write_abandon(client, text),
        _ => Ok(()),
    }
}

// Appends an Assign, as `assign 1,2 1`.
fn write_assign(alloc: Global, config: &Config, text: &mut Vec<u8>) -> Result<(), AllocError>
    ensures { OnOk result (text.new.items ≡ text.old.items
        ++ two_fields (codes "assign ") (members_text config.now.members)
        (decimal config.now.primary)) }
{
    text.extend_from_slice(b"assign ")?;
    write_members(alloc, config.members.as_slice(), text)?;
    let primary = config.primary;
    let rest = format!(in alloc; " {primary}\n")?;
    text.extend_from_slice(rest.as_str().as_bytes())
}

// Appends the members, as `1,2`.
fn write_members(alloc: Global, members: &[u8], text: &mut Vec<u8>) -> Result<(), AllocError>
    ensures { OnOk result (text.new.items ≡ text.old.items ++ members_text members.now) }
{
    let Some((first, others)) = members.split_first() else {
        return Ok(());
    };
    let first = *first;
    let first = format!(in alloc; "{first}")?;
    text.extend_from_slice(first.as_str().as_bytes())?;
    write_others(alloc, others, text)
}

// Appends the members after the first, as `,2,3`.
fn write_others(alloc: Global, members: &[u8], text: &mut Vec<u8>) -> Result<(), AllocError>
    ensures { OnOk result (text.new.items ≡ text.old.items ++ more_members members.now) }
{
    for member in members {
        let number = *member;
        let more = format!(in alloc; ",{number}")?;
        text.extend_from_slice(more.as_str().as_bytes())?;
    }
    Ok(())
}

// Appends a delivery, as `deliver 7`.
fn write_deliver(alloc: Global, number: u64, text: &mut Vec<u8>) -> Result<(), AllocError>
    ensures { OnOk result
        (text.new.items ≡ text.old.items ++ one_field (codes "deliver ") (decimal number)) }
{
    let line = format!(in alloc; "deliver {number}\n")?;
    text.extend_from_slice(line.as_str().as_bytes())
}

// Appends an opening, as `open a 2`.
fn write_open(
    alloc: Global,
    client: &ClientId,
    node: u8,
    text: &mut Vec<u8>,
) -> Result<(), AllocError>
    ensures { OnOk result (text.new.items
        ≡ text.old.items ++ two_fields (codes "open ") client.now (decimal node)) }
{
    text.extend_from_slice(b"open ")?;
    text.extend_from_slice(client.as_str().as_bytes())?;
    let rest = format!(in alloc; " {node}\n")?;
    text.extend_from_slice(rest.as_str().as_bytes())
}

// Appends bytes to the node, as `up 3 15`.
fn write_up(
    alloc: Global,
    connection: u64,
    count: u64,
    text: &mut Vec<u8>,
) -> Result<(), AllocError>
    ensures { OnOk result (text.new.items
        ≡ text.old.items ++ two_fields (codes "up ") (decimal connection) (decimal count)) }
{
    let line = format!(in alloc; "up {connection} {count}\n")?;
    text.extend_from_slice(line.as_str().as_bytes())
}

// Appends bytes to the client, as `down 3 4`.
fn write_down(
    alloc: Global,
    connection: u64,
    count: u64,
    text: &mut Vec<u8>,
) -> Result<(), AllocError>
    ensures { OnOk result (text.new.items
        ≡ text.old.items ++ two_fields (codes "down ") (decimal connection) (decimal count)) }
{
    let line = format!(in alloc; "down {connection} {count}\n")?;
    text.extend_from_slice(line.as_str().as_bytes())
}

// Appends a lost connection, as `abandon a`.
fn write_abandon(client: &ClientId, text: &mut Vec<u8>) -> Result<(), AllocError>
    ensures { OnOk result
        (text.new.items ≡ text.old.items ++ one_field (codes "abandon ") client.now) }
{
    text.extend_from_slice(b"abandon ")?;
    text.extend_from_slice(client.as_str().as_bytes())?;
    text.extend_from_slice(b"\n")
}
