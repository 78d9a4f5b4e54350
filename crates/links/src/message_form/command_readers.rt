// Reads commands from the front of a reader, which must not be used after an error.
//
// Memory is taken as late as it can be, so that no fault is hidden by the want of it: a client is
// copied once the whole command was read.

ghost use Rattle.std.specs.Prelude.{◌≡◌, Ok, true, IfOk};
ghost use Rattle.packet.specs.Verdict.{verdict, asks_memory};
ghost use Rattle.packet_base.specs.ClientId.{is_client};
ghost use Rattle.packet_base.specs.Outcome.{Gives, IsOutOfMemory, Reads, TakesNoMemory};
ghost use Rattle.session_base.specs.Form.{flag_at};
ghost use Rattle.broker_spec.specs.Sized.{IsSized};
ghost use Rattle.links.specs.message_form.CommandReading.{client_at, command_asks, command_at, connect_at};
ghost use Rattle.links.specs.message_form.CommandReading.{expel_at, if_faultless, lost_at, name_at};
ghost use Rattle.links.specs.message_form.CommandReading.{packet_asks, packet_at, start_at};

use crate::message_form::numbers::read_wide_number;
use broker_spec::{Command, ConnectionName, SizedPacket};
use packet::{DecodeFault, Packet, Step, decode};
use packet_base::{ClientId, Reader, Stop, has_client_length};
use std::alloc::Global;
use topics::MalformedKind;

/// Reads a command.
#[tactic(auto, unfolding(crate::specs::message_form::CommandReading::command_at, crate::specs::message_form::CommandReading::command_asks))]
pub(crate) fn read_command(alloc: Global, reader: &mut Reader) -> Result<Command, Stop>
    ensures exact { Reads (λ value. value) result reader.new (command_at reader.old) }
    ensures memory { IsOutOfMemory result → command_asks reader.old ≡ Ok true }
{
    match reader.byte()? {
        1 => read_connect(alloc, reader),
        2 => read_packet_command(alloc, reader),
        3 => read_lost(reader),
        4 => read_start(reader),
        5 => read_expel(alloc, reader),
        _ => Err(Stop::Malformed(MalformedKind::Shape)),
    }
}

#[tactic(auto, unfolding(crate::specs::message_form::CommandReading::connect_at))]
fn read_connect(alloc: Global, reader: &mut Reader) -> Result<Command, Stop>
    ensures exact { Reads (λ value. value) result reader.new (connect_at reader.old) }
    ensures memory { IsOutOfMemory result → if_faultless (connect_at reader.old) ≡ Ok true }
{
    let name = read_name(reader)?;
    let client = read_client(reader)?;
    let clean = read_flag(reader)?;
    let client = ClientId::of_checked(alloc, client)?;
    Ok(Command::Connect(name, client, clean))
}

#[tactic(auto, unfolding(crate::specs::message_form::CommandReading::packet_at, crate::specs::message_form::CommandReading::packet_asks))]
fn read_packet_command(alloc: Global, reader: &mut Reader) -> Result<Command, Stop>
    ensures exact { Reads (λ value. value) result reader.new (packet_at reader.old) }
    ensures memory { IsOutOfMemory result → packet_asks reader.old ≡ Ok true }
{
    let name = read_name(reader)?;
    let packet = read_packet(alloc, reader)?;
    Ok(Command::Packet(name, packet))
}

#[tactic(auto, unfolding(crate::specs::message_form::CommandReading::lost_at))]
fn read_lost(reader: &mut Reader) -> Result<Command, Stop>
    ensures exact { Reads (λ value. value) result reader.new (lost_at reader.old) }
    ensures memory { TakesNoMemory result }
{
    Ok(Command::Lost(read_name(reader)?))
}

#[tactic(auto, unfolding(crate::specs::message_form::CommandReading::start_at))]
fn read_start(reader: &mut Reader) -> Result<Command, Stop>
    ensures exact { Reads (λ value. value) result reader.new (start_at reader.old) }
    ensures memory { TakesNoMemory result }
{
    Ok(Command::Start(read_wide_number(reader)?))
}

#[tactic(auto, unfolding(crate::specs::message_form::CommandReading::expel_at))]
fn read_expel(alloc: Global, reader: &mut Reader) -> Result<Command, Stop>
    ensures exact { Reads (λ value. value) result reader.new (expel_at reader.old) }
    ensures memory { IsOutOfMemory result → if_faultless (expel_at reader.old) ≡ Ok true }
{
    let client = read_client(reader)?;
    let client = ClientId::of_checked(alloc, client)?;
    Ok(Command::Expel(client))
}

// Reads the name of a connection: its ballot and its count, both in their ranges.
#[tactic(auto, unfolding(crate::specs::message_form::CommandReading::name_at))]
fn read_name(reader: &mut Reader) -> Result<ConnectionName, Stop>
    ensures exact { Reads (λ value. value) result reader.new (name_at reader.old) }
    ensures memory { TakesNoMemory result }
{
    let ballot = read_wide_number(reader)?;
    let count = read_wide_number(reader)?;
    match ConnectionName::new(ballot, count) {
        Some(name) => Ok(name),
        None => Err(Stop::Malformed(MalformedKind::Shape)),
    }
}

// Reads the text of a Client Identifier; `Identifier` if it does not have 1 to 64 bytes.
#[tactic(auto, unfolding(crate::specs::message_form::CommandReading::client_at), using(packet_base::proofs::Clients::client_checked))]
fn read_client<'a>(reader: &mut Reader<'a>) -> Result<&'a str, Stop>
    ensures exact { Reads (λ text. text.now) result reader.new (client_at reader.old) }
    ensures checked { IfOk result (λ text. is_client text.now ≡ true) }
    ensures memory { TakesNoMemory result }
{
    let client = reader.text()?;
    if !has_client_length(client) {
        return Err(Stop::Malformed(MalformedKind::Identifier));
    }
    Ok(client)
}

// Reads a byte that is 0 or 1.
#[tactic(auto, unfolding(session_base::specs::Form::flag_at))]
fn read_flag(reader: &mut Reader) -> Result<bool, Stop>
    ensures exact { Reads (λ value. value) result reader.new (flag_at reader.old) }
    ensures memory { TakesNoMemory result }
{
    let byte = reader.byte()?;
    if byte > 1 {
        return Err(Stop::Malformed(MalformedKind::Shape));
    }
    Ok(byte == 1)
}

// Reads a packet, which can be encoded again.
fn read_packet(alloc: Global, reader: &mut Reader) -> Result<SizedPacket, Stop>
    ensures exact { Reads (λ value. value) result reader.new (verdict reader.old) }
    ensures memory { IsOutOfMemory result → asks_memory reader.old ≡ Ok true }
{
    match decode(alloc, reader.rest()) {
        Ok(Step::Whole(packet, len)) => {
            reader.front(len)?;
            sized(packet)
        }
        Ok(Step::More) => Err(Stop::More),
        Err(DecodeFault::Malformed(kind)) => Err(Stop::Malformed(kind)),
        Err(DecodeFault::Refused(code)) => Err(Stop::Refused(code)),
    }
}

// Returns the packet, if it can be encoded.
fn sized(packet: Packet) -> Result<SizedPacket, Stop>
    requires { IsSized packet }
    ensures exact { Gives (λ sized. sized) result (Ok packet) }
    ensures memory { TakesNoMemory result }
{
    match SizedPacket::new(packet) {
        Ok(sized) => Ok(sized),
        Err(_) => Err(Stop::Malformed(MalformedKind::Shape)),
    }
}
