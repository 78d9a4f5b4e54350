// Appends commands to a vector. If memory runs out, a part may have been appended.

ghost use Rattle.std.specs.Prelude.{◌≡◌, [], ◌∷◌, ◌++◌, false, OnOk, OnErr};
ghost use Rattle.packet_base.specs.Spelling.{bit, text};
ghost use Rattle.packet.specs.Spelling.{spelling};
ghost use Rattle.links.specs.message_form.Commands.{command_bytes, name_bytes, IsCommand};
ghost use Rattle.links.specs.message_form.Numbers.{wide_number};
ghost use Rattle.links.specs.message_form.Room.{Appends, Lacks};

use crate::message_form::numbers::{write_bytes, write_text, write_wide_number};
use broker_spec::{Command, ConnectionName, SizedPacket};
use packet::{EncodeFault, encode, spelling_spells};
use packet_base::ClientId;
use std::alloc::AllocError;

/// Appends a command.
pub(crate) fn write_command(command: &Command, bytes: &mut Vec<u8>) -> Result<(), AllocError>
    ensures ok { OnOk result (bytes.new.items ≡ bytes.old.items ++ command_bytes command.now) }
    ensures err { OnErr result (Lacks bytes.old bytes.new (command_bytes command.now) false) }
    ensures fits { IsCommand command.now }
{
    ensure_ranges(command);
    match command {
        Command::Connect(name, client, clean) => write_connect(*name, client, *clean, bytes),
        Command::Packet(name, packet) => write_packet_command(*name, packet, bytes),
        Command::Lost(name) => write_lost(*name, bytes),
        Command::Start(ballot) => write_start(*ballot, bytes),
        Command::Expel(client) => write_expel(client, bytes),
    }
}

// Ensures, for a proof, that the parts of this command are in their ranges; it does nothing else.
fn ensure_ranges(command: &Command)
    ensures { IsCommand command.now }
{
    command.ensure_ranges();
    if let Command::Start(ballot) = command {
        let _ballot = *ballot;
    }
}

// Appends a Connect. Its flag is the last byte.
fn write_connect(
    name: ConnectionName,
    client: &ClientId,
    clean: bool,
    bytes: &mut Vec<u8>,
) -> Result<(), AllocError>
    ensures ok { OnOk result (Appends bytes.old bytes.new
        (1 ∷ (name_bytes name ++ (text client.now ++ bit clean ∷ [])))) }
    ensures err { OnErr result (Lacks bytes.old bytes.new
        (1 ∷ (name_bytes name ++ (text client.now ++ bit clean ∷ []))) false) }
{
    write_bytes(&[1], bytes)?;
    write_name(name, bytes)?;
    write_client(client, bytes)?;
    write_flag(clean, bytes)
}

// Appends a flag.
fn write_flag(flag: bool, bytes: &mut Vec<u8>) -> Result<(), AllocError>
    ensures ok { OnOk result (Appends bytes.old bytes.new (bit flag ∷ [])) }
    ensures err { OnErr result (Lacks bytes.old bytes.new (bit flag ∷ []) false) }
{
    write_bytes(&[u8::from(flag)], bytes)
}

// Appends a Packet.
fn write_packet_command(
    name: ConnectionName,
    packet: &SizedPacket,
    bytes: &mut Vec<u8>,
) -> Result<(), AllocError>
    ensures ok { OnOk result
        (bytes.new.items ≡ bytes.old.items ++ (2 ∷ (name_bytes name ++ spelling packet.now))) }
    ensures err { OnErr result
        (Lacks bytes.old bytes.new (2 ∷ (name_bytes name ++ spelling packet.now)) false) }
{
    write_bytes(&[2], bytes)?;
    write_name(name, bytes)?;
    write_packet(packet, bytes)
}

// Appends a Lost.
fn write_lost(name: ConnectionName, bytes: &mut Vec<u8>) -> Result<(), AllocError>
    ensures ok { OnOk result (Appends bytes.old bytes.new (3 ∷ name_bytes name)) }
    ensures err { OnErr result (Lacks bytes.old bytes.new (3 ∷ name_bytes name) false) }
{
    write_bytes(&[3], bytes)?;
    write_name(name, bytes)
}

// Appends a Start.
fn write_start(ballot: u64, bytes: &mut Vec<u8>) -> Result<(), AllocError>
    ensures ok { OnOk result (Appends bytes.old bytes.new (4 ∷ wide_number ballot)) }
    ensures err { OnErr result (Lacks bytes.old bytes.new (4 ∷ wide_number ballot) false) }
{
    write_bytes(&[4], bytes)?;
    write_wide_number(ballot, bytes)
}

// Appends an Expel.
fn write_expel(client: &ClientId, bytes: &mut Vec<u8>) -> Result<(), AllocError>
    ensures ok { OnOk result (Appends bytes.old bytes.new (5 ∷ text client.now)) }
    ensures err { OnErr result (Lacks bytes.old bytes.new (5 ∷ text client.now) false) }
{
    write_bytes(&[5], bytes)?;
    write_client(client, bytes)
}

// Appends the name of a connection: its ballot and its count.
fn write_name(name: ConnectionName, bytes: &mut Vec<u8>) -> Result<(), AllocError>
    ensures ok { OnOk result (Appends bytes.old bytes.new (name_bytes name)) }
    ensures err { OnErr result (Lacks bytes.old bytes.new (name_bytes name) false) }
{
    write_wide_number(name.ballot(), bytes)?;
    write_wide_number(name.count(), bytes)
}

// Appends a Client Identifier with its length before it.
#[tactic(auto, using(packet_base::proofs::Clients::client_short))]
fn write_client(client: &ClientId, bytes: &mut Vec<u8>) -> Result<(), AllocError>
    ensures ok { OnOk result (Appends bytes.old bytes.new (text client.now)) }
    ensures err { OnErr result (Lacks bytes.old bytes.new (text client.now) false) }
{
    write_text(client.as_str(), bytes)
}

// Appends a packet as MQTT spells it. It can be encoded, so the only error is that memory ran out.
fn write_packet(packet: &SizedPacket, bytes: &mut Vec<u8>) -> Result<(), AllocError>
    ensures ok { OnOk result (bytes.new.items ≡ bytes.old.items ++ spelling packet.now) }
    ensures err { OnErr result (Lacks bytes.old bytes.new (spelling packet.now) false) }
{
    spelling_spells();
    match encode(packet.packet(), bytes) {
        Ok(()) => Ok(()),
        Err(EncodeFault::Memory) => Err(AllocError),
        Err(EncodeFault::TooLarge) => unreachable!(),
    }
}
