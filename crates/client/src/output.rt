// Writing packets to the server.

ghost use Rattle.std.specs.Prelude.{◌≡◌, ◌<◌, false, length, map, IfOk, OnOk, OnErr, IsErrOf};
ghost use Rattle.packet.specs.Spelling.{IsListed, AppendsSpelling};
ghost use Rattle.packet.specs.declared.packet.Packet.TheVariants as packets;
ghost use Rattle.client_base.specs.State.{publish_kept};
ghost use Rattle.client.specs.Core.{AppendsAll};

use client_base::{ClientError, UnacknowledgedPublication};
use packet::{Connect, Packet, Publish, encode};
use packet_base::{ClientId, PacketId};
use session_base::delivery;
use std::alloc::AllocError;

/// Appends a packet to the written bytes. The callers ensure that it is not over the size limit.
/// After [`ClientError::Memory`] nothing was written.
pub(crate) fn write(packet: &Packet, out: &mut Vec<u8>) -> Result<(), ClientError>
    requires { IsListed packet.now }
    ensures ok { OnOk result (AppendsSpelling out.old.items out.new.items packet.now) }
    ensures memory { OnErr result (IsErrOf result ClientError.Memory) }
    ensures err { OnErr result (out.new.items ≡ out.old.items) }
{
    match encode(packet, out) {
        Ok(()) => Ok(()),
        Err(_) => Err(ClientError::Memory),
    }
}

/// Writes the CONNECT of a client, with CleanSession 0. The only error is [`ClientError::Memory`].
pub(crate) fn write_connect(
    client: &ClientId,
    keep_alive: u16,
    out: &mut Vec<u8>,
) -> Result<(), ClientError>
    ensures ok { OnOk result (AppendsSpelling out.old.items out.new.items
        (packets.Connect
        (record { client = client.now; clean = false; keep_alive = keep_alive }))) }
    ensures memory { OnErr result (IsErrOf result ClientError.Memory) }
{
    let connect = Packet::Connect(Connect {
        client: client.clone()?,
        clean: false,
        keep_alive,
    });
    write(&connect, out)
}

/// Returns the PUBLISH of a kept publication with this DUP. The only error is that memory ran out.
pub(crate) fn publish_again(
    kept: &UnacknowledgedPublication,
    dup: bool,
) -> Result<Packet, AllocError>
    ensures { IfOk result (λ packet. packet ≡ publish_kept dup kept.now) }
{
    let publication = &kept.publication;
    Ok(Packet::Publish(Publish {
        topic: publication.topic.clone()?,
        delivery: delivery(publication.qos, dup, kept.id),
        retain: publication.retain,
        payload: publication.payload.clone()?,
    }))
}

/// Writes PUBACK. After [`ClientError::Memory`] nothing was written.
pub(crate) fn write_puback(id: PacketId, out: &mut Vec<u8>) -> Result<(), ClientError>
    ensures ok { OnOk result (AppendsSpelling out.old.items out.new.items (packets.Puback id)) }
    ensures memory { OnErr result (IsErrOf result ClientError.Memory) }
    ensures err { OnErr result (out.new.items ≡ out.old.items) }
{
    write(&Packet::Puback(id), out)
}

/// Writes PUBREC. After [`ClientError::Memory`] nothing was written.
pub(crate) fn write_pubrec(id: PacketId, out: &mut Vec<u8>) -> Result<(), ClientError>
    ensures ok { OnOk result (AppendsSpelling out.old.items out.new.items (packets.Pubrec id)) }
    ensures memory { OnErr result (IsErrOf result ClientError.Memory) }
    ensures err { OnErr result (out.new.items ≡ out.old.items) }
{
    write(&Packet::Pubrec(id), out)
}

/// Writes PUBREL. After [`ClientError::Memory`] nothing was written.
pub(crate) fn write_pubrel(id: PacketId, out: &mut Vec<u8>) -> Result<(), ClientError>
    ensures ok { OnOk result (AppendsSpelling out.old.items out.new.items (packets.Pubrel id)) }
    ensures memory { OnErr result (IsErrOf result ClientError.Memory) }
    ensures err { OnErr result (out.new.items ≡ out.old.items) }
{
    write(&Packet::Pubrel(id), out)
}

/// Writes PUBCOMP. After [`ClientError::Memory`] nothing was written.
pub(crate) fn write_pubcomp(id: PacketId, out: &mut Vec<u8>) -> Result<(), ClientError>
    ensures ok { OnOk result (AppendsSpelling out.old.items out.new.items (packets.Pubcomp id)) }
    ensures memory { OnErr result (IsErrOf result ClientError.Memory) }
    ensures err { OnErr result (out.new.items ≡ out.old.items) }
{
    write(&Packet::Pubcomp(id), out)
}

/// Writes PUBREL for each of these, in order. After [`ClientError::Memory`] some may have been
/// written.
pub(crate) fn write_pubrels(ids: &[PacketId], out: &mut Vec<u8>) -> Result<(), ClientError>
    ensures ok { OnOk result (AppendsAll out.old.items out.new.items (map packets.Pubrel ids.now)) }
    ensures memory { OnErr result (IsErrOf result ClientError.Memory) }
    ensures some { OnErr result (0 < length ids.now) }
{
    for id in ids {
        write_pubrel(*id, out)?;
    }
    Ok(())
}

/// Writes the PUBLISH of a kept publication with this DUP. After [`ClientError::Memory`] nothing
/// was written.
pub(crate) fn write_publish(
    kept: &UnacknowledgedPublication,
    dup: bool,
    out: &mut Vec<u8>,
) -> Result<(), ClientError>
    ensures ok { OnOk result
        (AppendsSpelling out.old.items out.new.items (publish_kept dup kept.now)) }
    ensures memory { OnErr result (IsErrOf result ClientError.Memory) }
    ensures err { OnErr result (out.new.items ≡ out.old.items) }
{
    let packet = publish_again(kept, dup)?;
    write(&packet, out)
}

/// Writes PUBLISH for each of these, in order, with this DUP. After [`ClientError::Memory`] some
/// may have been written.
pub(crate) fn write_publishes(
    kept: &[UnacknowledgedPublication],
    dup: bool,
    out: &mut Vec<u8>,
) -> Result<(), ClientError>
    ensures ok { OnOk result
        (AppendsAll out.old.items out.new.items (map (publish_kept dup) kept.now)) }
    ensures memory { OnErr result (IsErrOf result ClientError.Memory) }
    ensures some { OnErr result (0 < length kept.now) }
{
    for one in kept {
        write_publish(one, dup, out)?;
    }
    Ok(())
}
