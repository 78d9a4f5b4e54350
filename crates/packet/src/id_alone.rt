// The packets that hold a Packet Identifier and nothing else: PUBACK, PUBREC, PUBREL, PUBCOMP and
// UNSUBACK (MQTT 3.4 to 3.7, 3.11).

ghost use Rattle.std.specs.Prelude.{◌≡◌};
ghost use Rattle.packet_base.specs.Outcome.{Gives, TakesNoMemory};
ghost use Rattle.packet.specs.IdAlone.{id_alone_of};

use packet_base::{PacketId, Reader, Stop};

/// Reads a body that is a Packet Identifier alone (MQTT 3.4.2), up to its first fault.
#[tactic(auto, unfolding(crate::specs::IdAlone::id_alone_of))]
pub(crate) fn read_id_alone(body: &mut Reader) -> Result<PacketId, Stop>
    ensures exact { Gives (λ value. value) result (id_alone_of body.old) }
    ensures memory { TakesNoMemory result }
{
    let id = body.id()?;
    body.end()?;
    Ok(id)
}
