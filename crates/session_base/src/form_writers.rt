// Appends the parts of a frozen session to a vector.

ghost use Rattle.std.specs.Prelude.{◌≡◌, ◌<◌, ◌^◌, ◌++◌, length, OnOk};
ghost use Rattle.packet_base.specs.Spelling.{number, text};
ghost use Rattle.session_base.specs.Form.{long_number, publication_bytes, granted_subscription_bytes, flight_bytes};
ghost use Rattle.session_base.specs.Form.{HasLength, IsWritable};

use crate::{Awaits, Publication};
use packet_base::{PacketId, QoS};
use std::alloc::AllocError;
use topics::Filter;

/// Appends a number of two bytes, the high one first. If memory runs out, this and the other
/// functions here may have appended a part.
pub fn write_number(value: u16, bytes: &mut Vec<u8>) -> Result<(), AllocError>
    ensures { OnOk result (bytes.new.items ≡ bytes.old.items ++ number value) }
{
    bytes.extend_from_slice(&value.to_be_bytes())
}

/// Appends a text with its length before it (MQTT 1.5.3).
pub fn write_text(value: &str, bytes: &mut Vec<u8>) -> Result<(), AllocError>
    requires { length value.now < 2 ^ 16 }
    ensures { OnOk result (bytes.new.items ≡ bytes.old.items ++ text value.now) }
{
    write_number(value.len() as u16, bytes)?;
    bytes.extend_from_slice(value.as_bytes())
}

/// Appends a payload with its length in four bytes before it.
pub fn write_payload(payload: &[u8], bytes: &mut Vec<u8>) -> Result<(), AllocError>
    requires { length payload.now < 2 ^ 32 }
    ensures { OnOk result
        (bytes.new.items ≡ bytes.old.items ++ (long_number (length payload.now) ++ payload.now)) }
{
    let len = payload.len() as u32;
    bytes.extend_from_slice(&len.to_be_bytes())?;
    bytes.extend_from_slice(payload)
}

/// Appends a publication: RETAIN, QoS, topic, payload.
pub fn write_publication(publication: &Publication, bytes: &mut Vec<u8>) -> Result<(), AllocError>
    requires { HasLength publication.now }
    ensures { OnOk result (bytes.new.items ≡ bytes.old.items ++ publication_bytes publication.now) }
{
    bytes.push(u8::from(publication.retain))?;
    bytes.push(publication.qos.number())?;
    write_text(publication.topic.as_str(), bytes)?;
    write_payload(publication.payload.as_slice(), bytes)
}

/// Appends a filter with its QoS.
pub fn write_granted_subscription(
    filter: &Filter,
    qos: QoS,
    bytes: &mut Vec<u8>,
) -> Result<(), AllocError>
    ensures { OnOk result
        (bytes.new.items ≡ bytes.old.items ++ granted_subscription_bytes (filter.now, qos)) }
{
    write_text(filter.as_str(), bytes)?;
    bytes.push(qos.number())?;
    Ok(())
}

/// Appends an entry in flight: its identifier, what it waits for, and its publication if it has
/// one.
pub fn write_flight(id: PacketId, awaits: &Awaits, bytes: &mut Vec<u8>) -> Result<(), AllocError>
    requires { IsWritable awaits.now }
    ensures { OnOk result (bytes.new.items ≡ bytes.old.items ++ flight_bytes (id, awaits.now)) }
{
    write_number(id.number(), bytes)?;
    match awaits {
        Awaits::Puback(publication) => {
            bytes.push(0)?;
            write_publication(publication, bytes)
        }
        Awaits::Pubrec(publication) => {
            bytes.push(1)?;
            write_publication(publication, bytes)
        }
        Awaits::Pubcomp => {
            bytes.push(2)?;
            Ok(())
        }
    }
}
