// Reads the parts of a frozen session from the front of a reader. Bytes that are not of the form
// stop the reading with `Shape`; the reader must not be used after an error.

ghost use Rattle.std.specs.Prelude.{◌≡◌, Ok};
ghost use Rattle.packet.specs.Spelling.{max_body};
ghost use Rattle.packet_base.specs.Outcome.{Gives, Reads, TakesNoMemory};
ghost use Rattle.session_base.specs.Counted.{check_form};
ghost use Rattle.session_base.specs.Form.{flag_at, long_number_at, qos_at, body_length};
ghost use Rattle.session_base.specs.Form.{publication_at, granted_subscription_at, waiting_at, sent_at};
ghost use Rattle.session_base.specs.Form.{awaits_at, flight_at};

use crate::{Awaits, Publication};
use packet::MAX_BODY;
use packet_base::{OUT_OF_MEMORY, PacketId, Payload, QoS, Reader, Stop};
use std::alloc::Global;
use topics::{Filter, MalformedKind};

/// Returns `Shape` unless the test holds.
pub fn check_form(test: bool) -> Result<(), Stop>
    ensures exact { Gives (λ value. value) result (check_form test) }
    ensures memory { TakesNoMemory result }
{
    if test {
        return Ok(());
    }
    Err(Stop::Malformed(MalformedKind::Shape))
}

/// Reads a byte that is 0 or 1.
#[tactic(auto, unfolding(crate::specs::Form::flag_at))]
pub fn read_flag(reader: &mut Reader) -> Result<bool, Stop>
    ensures { Reads (λ value. value) result reader.new (flag_at reader.old) }
{
    let byte = reader.byte()?;
    check_form(byte < 2)?;
    Ok(byte == 1)
}

/// Reads a number of four bytes, the high one first.
#[tactic(auto, unfolding(crate::specs::Form::long_number_at))]
pub fn read_long_number(reader: &mut Reader) -> Result<u32, Stop>
    ensures { Reads (λ value. value) result reader.new (long_number_at reader.old) }
{
    let front = reader.front(4)?;
    Ok(u32::from_be_bytes([front[0], front[1], front[2], front[3]]))
}

/// Reads a QoS in one byte, 0 to 2.
#[tactic(auto, unfolding(crate::specs::Form::qos_at))]
pub fn read_qos(reader: &mut Reader) -> Result<QoS, Stop>
    ensures { Reads (λ value. value) result reader.new (qos_at reader.old) }
{
    QoS::of(reader.byte()?)
}

/// Reads a publication. Its PUBLISH must be within the size limit of a packet.
#[tactic(auto, unfolding(crate::specs::Form::publication_at))]
pub fn read_publication(alloc: Global, reader: &mut Reader) -> Result<Publication, Stop>
    ensures { Reads (λ value. value) result reader.new (publication_at reader.old) }
{
    let retain = read_flag(reader)?;
    let qos = read_qos(reader)?;
    let topic = reader.topic(alloc)?;
    let len = read_long_number(reader)?;
    let payload = payload_of(alloc, reader.front(len as usize)?)?;
    let publication = Publication {
        retain,
        qos,
        topic,
        payload,
    };
    check_form(body_length(&publication) <= MAX_BODY)?;
    Ok(publication)
}

/// Copies the bytes into a payload. The only error is that memory ran out.
pub fn payload_of(alloc: Global, bytes: &[u8]) -> Result<Payload, Stop>
    ensures { Gives (λ value. value) result (Ok bytes.now) }
{
    match Payload::new(alloc, bytes) {
        Ok(payload) => Ok(payload),
        Err(_) => Err(OUT_OF_MEMORY),
    }
}

/// Returns the length in bytes of the body of the PUBLISH that carries the publication.
pub fn body_length(publication: &Publication) -> usize
    ensures { result ≡ body_length publication.now }
{
    let id = if publication.qos == QoS::AtMostOnce {
        0
    } else {
        2
    };
    2 + publication.topic.as_str().len() + id + publication.payload.as_slice().len()
}

/// Reads a filter with its QoS.
#[tactic(auto, unfolding(crate::specs::Form::granted_subscription_at))]
pub fn read_granted_subscription(alloc: Global, reader: &mut Reader) -> Result<(Filter, QoS), Stop>
    ensures { Reads (λ value. value) result reader.new (granted_subscription_at reader.old) }
{
    let filter = reader.filter(alloc)?;
    let qos = read_qos(reader)?;
    Ok((filter, qos))
}

/// Reads a waiting publication, which has QoS 1 or 2.
#[tactic(auto, unfolding(crate::specs::Form::waiting_at))]
pub fn read_waiting(alloc: Global, reader: &mut Reader) -> Result<Publication, Stop>
    ensures { Reads (λ value. value) result reader.new (waiting_at reader.old) }
{
    let publication = read_publication(alloc, reader)?;
    check_form(publication.qos != QoS::AtMostOnce)?;
    Ok(publication)
}

/// Reads an entry in flight: its identifier, and what it waits for.
#[tactic(auto, unfolding(crate::specs::Form::flight_at))]
pub fn read_flight(alloc: Global, reader: &mut Reader) -> Result<(PacketId, Awaits), Stop>
    ensures { Reads (λ value. value) result reader.new (flight_at reader.old) }
{
    let id = reader.id()?;
    let awaits = read_awaits(alloc, reader)?;
    Ok((id, awaits))
}

// Reads which acknowledgement an entry waits for, and its publication if it still has one.
#[tactic(auto, unfolding(crate::specs::Form::awaits_at))]
fn read_awaits(alloc: Global, reader: &mut Reader) -> Result<Awaits, Stop>
    ensures { Reads (λ value. value) result reader.new (awaits_at reader.old) }
{
    let state = reader.byte()?;
    check_form(state < 3)?;
    if state == 2 {
        return Ok(Awaits::Pubcomp);
    }
    read_sent(alloc, state == 0, reader)
}

// Reads the publication of a sent entry: QoS 1 if it waits for PUBACK, QoS 2 if for PUBREC.
#[tactic(auto, unfolding(crate::specs::Form::sent_at))]
fn read_sent(alloc: Global, acknowledged: bool, reader: &mut Reader) -> Result<Awaits, Stop>
    ensures { Reads (λ value. value) result reader.new (sent_at acknowledged reader.old) }
{
    let publication = read_waiting(alloc, reader)?;
    check_form(acknowledged == (publication.qos == QoS::AtLeastOnce))?;
    if acknowledged {
        return Ok(Awaits::Puback(publication));
    }
    Ok(Awaits::Pubrec(publication))
}
