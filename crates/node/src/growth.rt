// How many bytes the items that a node takes add to its log.

ghost use Rattle.std.specs.Prelude.{◌≡◌, ◌+◌, ◌*◌, ℕ, length, max, nat_lt, sum_by};
ghost use Rattle.node.specs.Growth.{bytes_of_body, bytes_of_command, bytes_of_packet, command_bytes};
ghost use Rattle.node.specs.Growth.{saturated, grown, max_uncut_bytes};

use ballot_base::Body;
use broker_spec::Command;
use packet::{Packet, Subscribe, Unsubscribe};
use world_base::node_core::Item;

/// Up to this size no cut is due because of it, in bytes.
const MAX_UNCUT_BYTES: u64 = 16_777_216;

/// What a command of the log counts in addition to its packet, in bytes.
const COMMAND_BYTES: u64 = 128;

/// Returns true if a log is so large that a cut is due: what was taken since the last cut is more
/// than 16 MiB, and more than the snapshot. `bytes` is what the items brought; each of the
/// `commands` that a cut would drop counts [`COMMAND_BYTES`] more.
pub(crate) fn is_large(bytes: u64, commands: u64, snapshot: &[u8]) -> bool
    ensures { (all : ℕ) → bytes ≡ saturated all →
        result ≡ nat_lt
        (max max_uncut_bytes (length snapshot.now)) (all + command_bytes * commands) }
{
    let size = commands.saturating_mul(COMMAND_BYTES).saturating_add(bytes);
    size > MAX_UNCUT_BYTES.max(snapshot.len() as u64)
}

/// Returns `bytes` plus what the item brings (saturates at 2^64 - 1); 0 after a cut.
pub(crate) fn grown(bytes: u64, item: &Item) -> u64
    ensures { result ≡ saturated (grown bytes item.now) }
{
    match item {
        Item::Peer(message) => add_body(bytes, &message.body),
        Item::Bytes(_, piece, _) => add(bytes, piece.as_slice().len()),
        Item::Cut => 0,
        _ => bytes,
    }
}

fn add_body(bytes: u64, body: &Body<Command>) -> u64
    ensures { result ≡ saturated (bytes + bytes_of_body body.now) }
{
    match body {
        Body::Append(_, _, command) => add_command(bytes, command),
        Body::State(_, log) | Body::Install(_, log) => add_commands(bytes, log.rest()),
        _ => bytes,
    }
}

fn add_commands(bytes: u64, commands: &[Command]) -> u64
    ensures { result ≡ saturated (bytes + sum_by bytes_of_command commands.now) }
{
    let mut bytes = bytes;
    for command in commands {
        bytes = add_command(bytes, command);
    }
    bytes
}

fn add_command(bytes: u64, command: &Command) -> u64
    ensures { result ≡ saturated (bytes + bytes_of_command command.now) }
{
    match command {
        Command::Packet(_, packet) => add_packet(bytes, packet.packet()),
        _ => bytes,
    }
}

fn add_packet(bytes: u64, packet: &Packet) -> u64
    ensures { result ≡ saturated (bytes + bytes_of_packet packet.now) }
{
    match packet {
        Packet::Publish(publish) => {
            let bytes = add(bytes, publish.topic.as_str().len());
            add(bytes, publish.payload.as_slice().len())
        }
        Packet::Subscribe(subscribe) => add_subscribe(bytes, subscribe),
        Packet::Unsubscribe(unsubscribe) => add_unsubscribe(bytes, unsubscribe),
        _ => bytes,
    }
}

fn add_subscribe(bytes: u64, subscribe: &Subscribe) -> u64
    ensures { result ≡ saturated (bytes
        + sum_by (λ (subscription : _). length subscription.filter) subscribe.now.filters) }
{
    let subscriptions = subscribe.filters.as_slice();
    let mut bytes = bytes;
    for subscription in subscriptions {
        bytes = add(bytes, subscription.filter.as_str().len());
    }
    bytes
}

fn add_unsubscribe(bytes: u64, unsubscribe: &Unsubscribe) -> u64
    ensures { result
        ≡ saturated (bytes + sum_by (λ (filter : _). length filter) unsubscribe.now.filters) }
{
    let filters = unsubscribe.filters.as_slice();
    let mut bytes = bytes;
    for filter in filters {
        bytes = add(bytes, filter.as_str().len());
    }
    bytes
}

fn add(bytes: u64, more: usize) -> u64
    ensures { result ≡ saturated (bytes + more) }
{
    bytes.saturating_add(more as u64)
}
