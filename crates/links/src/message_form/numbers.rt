// Numbers of eight and of four bytes, the high one first; bytes and texts. If memory runs out, a
// part may have been appended.

ghost use Rattle.std.specs.Prelude.{◌≡◌, ◌<◌, ◌^◌, false, length, OnOk, OnErr};
ghost use Rattle.packet_base.specs.Outcome.{Reads, TakesNoMemory};
ghost use Rattle.packet_base.specs.Spelling.{text};
ghost use Rattle.session_base.specs.Form.{long_number_at};
ghost use Rattle.links.specs.message_form.Numbers.{wide_number, wide_number_at, IsWide};
ghost use Rattle.links.specs.message_form.Room.{Appends, Lacks};

use packet_base::{Reader, Stop};
use std::alloc::AllocError;

/// Appends bytes.
pub(crate) fn write_bytes(part: &[u8], bytes: &mut Vec<u8>) -> Result<(), AllocError>
    ensures ok { OnOk result (Appends bytes.old bytes.new part.now) }
    ensures err { OnErr result (Lacks bytes.old bytes.new part.now false) }
{
    bytes.extend_from_slice(part)
}

/// Appends a number of eight bytes.
pub(crate) fn write_wide_number(value: u64, bytes: &mut Vec<u8>) -> Result<(), AllocError>
    ensures ok { OnOk result (Appends bytes.old bytes.new (wide_number value)) }
    ensures err { OnErr result (Lacks bytes.old bytes.new (wide_number value) false) }
    ensures fits { IsWide value }
{
    write_bytes(&value.to_be_bytes(), bytes)
}

/// Appends a text with its length in two bytes before it (MQTT 1.5.3).
pub(crate) fn write_text(value: &str, bytes: &mut Vec<u8>) -> Result<(), AllocError>
    requires { length value.now < 2 ^ 16 }
    ensures ok { OnOk result (Appends bytes.old bytes.new (text value.now)) }
    ensures err { OnErr result (Lacks bytes.old bytes.new (text value.now) false) }
{
    let len = value.len() as u16;
    write_bytes(&len.to_be_bytes(), bytes)?;
    write_bytes(value.as_bytes(), bytes)
}

/// Reads a number of eight bytes.
#[tactic(auto, unfolding(crate::specs::message_form::Numbers::wide_number_at))]
pub(crate) fn read_wide_number(reader: &mut Reader) -> Result<u64, Stop>
    ensures exact { Reads (λ value. value) result reader.new (wide_number_at reader.old) }
    ensures memory { TakesNoMemory result }
{
    let front = reader.front(8)?;
    Ok(u64::from_be_bytes([
        front[0], front[1], front[2], front[3], front[4], front[5], front[6], front[7],
    ]))
}

/// Reads a number of four bytes.
#[tactic(auto, unfolding(session_base::specs::Form::long_number_at))]
pub(crate) fn read_long_number(reader: &mut Reader) -> Result<u32, Stop>
    ensures exact { Reads (λ value. value) result reader.new (long_number_at reader.old) }
    ensures memory { TakesNoMemory result }
{
    let front = reader.front(4)?;
    Ok(u32::from_be_bytes([front[0], front[1], front[2], front[3]]))
}
