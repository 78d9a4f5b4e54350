// The packets of entries, and what a sent entry waits for.

ghost use Rattle.std.specs.Prelude.{◌≡◌, false, [], ◌∷◌, ◌++◌, IfOk, OnOk, OnErr};
ghost use Rattle.packet.specs.declared.packet.Packet.TheVariants as packets;
ghost use Rattle.session_base.specs.Publication.{publish_for};
ghost use Rattle.session_base.specs.Queue.{is_puback, is_pubrec, is_pubcomp, awaited};
ghost use Rattle.session_base.specs.EntryPackets.{sent_anew};

use packet::{Packet, Publish};
use packet_base::{PacketId, QoS};
use session_base::{Awaits, Publication, delivery};
use std::alloc::AllocError;

/// Returns true if the entry waits for PUBACK.
pub(crate) fn waits_for_puback(awaits: &Awaits) -> bool
    ensures { result ≡ is_puback awaits.now }
{
    matches!(awaits, Awaits::Puback(_))
}

/// Returns true if the entry waits for PUBREC.
pub(crate) fn waits_for_pubrec(awaits: &Awaits) -> bool
    ensures { result ≡ is_pubrec awaits.now }
{
    matches!(awaits, Awaits::Pubrec(_))
}

/// Returns true if the entry waits for PUBCOMP: it is released.
pub(crate) fn waits_for_pubcomp(awaits: &Awaits) -> bool
    ensures { result ≡ is_pubcomp awaits.now }
{
    matches!(awaits, Awaits::Pubcomp)
}

/// Returns what a publication waits for once it was sent.
pub(crate) fn awaits_of(publication: Publication) -> Awaits
    ensures { result ≡ awaited publication }
{
    match publication.qos {
        QoS::AtLeastOnce => Awaits::Puback(publication),
        QoS::AtMostOnce | QoS::ExactlyOnce => Awaits::Pubrec(publication),
    }
}

// Returns the PUBLISH that carries a publication.
fn publish_packet(publication: &Publication, dup: bool, id: PacketId) -> Result<Packet, AllocError>
    ensures { IfOk result (λ packet. packet
        ≡ packets.Publish (publish_for dup id publication.now)) }
{
    Ok(Packet::Publish(Publish {
        topic: publication.topic.clone()?,
        delivery: delivery(publication.qos, dup, id),
        retain: publication.retain,
        payload: publication.payload.clone()?,
    }))
}

/// Appends the first PUBLISH of a publication, with DUP 0.
pub(crate) fn send_publish(
    publication: &Publication,
    id: PacketId,
    out: &mut Vec<Packet>,
) -> Result<(), AllocError>
    ensures ok { OnOk result (out.new.items
        ≡ out.old.items ++ packets.Publish (publish_for false id publication.now) ∷ []) }
    ensures err { OnErr result (out.new.items ≡ out.old.items) }
{
    let packet = publish_packet(publication, false, id)?;
    out.push(packet)?;
    Ok(())
}

/// Returns the retransmission of an entry for a reconnecting client: PUBLISH with DUP 1, or PUBREL
/// for a released one (MQTT 4.4).
pub(crate) fn packet_anew(id: PacketId, awaits: &Awaits) -> Result<Packet, AllocError>
    ensures { IfOk result (λ packet. packet ≡ sent_anew id awaits.now) }
{
    match awaits {
        Awaits::Puback(publication) | Awaits::Pubrec(publication) => {
            publish_packet(publication, true, id)
        }
        Awaits::Pubcomp => Ok(Packet::Pubrel(id)),
    }
}
