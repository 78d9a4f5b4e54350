// The Remaining Length of a packet: one to four bytes (MQTT 2.2.3).

ghost use Rattle.std.specs.Prelude.{◌≡◌, ◌+◌, ◌<◌, ◌≤◌, ◌^◌, ◌++◌, IfOk, vec_len, vec_capacity};
ghost use Rattle.packet_base.specs.Spelling.{AppendsLength, length_bytes, remaining_length};
ghost use Rattle.packet_base.specs.Readers.{length_at};
ghost use Rattle.packet_base.specs.Outcome.{Gives, TakesNoMemory};
ghost use Rattle.packet_base.specs.Inside.{length_limit};

use crate::stop::Stop;
use topics::MalformedKind;

/// Reads the Remaining Length at the front and returns it with the bytes after it. `Length` if a
/// fourth byte says that another follows, or if the number is not in its shortest form; `More` if
/// the bytes end before the length does.
pub fn take_length(bytes: &[u8]) -> Result<(u32, &[u8]), Stop>
    ensures exact { Gives (λ taken. (taken.0, taken.1.now)) result (length_at 3 bytes.now) }
    ensures small { IfOk result (λ taken. taken.0 < 2 ^ 28) }
    ensures memory { TakesNoMemory result }
{
    length_from(bytes, 3)
}

// Reads a length of which at most `follow` bytes may come after the next one.
#[tactic(auto, unfolding(crate::specs::Readers::length_at), using(crate::proofs::Lengths::limits))]
fn length_from(bytes: &[u8], follow: u8) -> Result<(u32, &[u8]), Stop>
    requires { follow < 4 }
    ensures exact { Gives (λ taken. (taken.0, taken.1.now)) result (length_at follow bytes.now) }
    ensures limit { IfOk result (λ taken. taken.0 < length_limit follow) }
    ensures memory { TakesNoMemory result }
{
    match bytes {
        [] => Err(Stop::More),
        [byte, rest @ ..] => {
            if *byte < 128 {
                return Ok((u32::from(*byte), rest));
            }
            if follow == 0 {
                return Err(Stop::Malformed(MalformedKind::Length));
            }
            let (high, rest) = length_from(rest, follow - 1)?;
            if high == 0 {
                return Err(Stop::Malformed(MalformedKind::Length));
            }
            Ok((u32::from(*byte - 128) + 128 * high, rest))
        }
    }
}

/// Returns how many bytes the Remaining Length takes.
pub fn length_size(length: u32) -> usize
    ensures { result ≡ length_bytes length }
{
    if length < 128 {
        1
    } else if length < 16_384 {
        2
    } else if length < 2_097_152 {
        3
    } else {
        4
    }
}

/// Appends the Remaining Length, in its shortest form.
pub fn put_length(out: &mut Vec<u8>, length: u32)
    requires small { length < 2 ^ 28 }
    requires room { vec_len out.old + length_bytes length ≤ vec_capacity out.old }
    ensures exact { out.new.items ≡ out.old.items ++ remaining_length length }
    ensures spelled { AppendsLength out.old.items out.new.items length }
    ensures len { vec_len out.new ≡ vec_len out.old + length_bytes length }
    ensures capacity { vec_capacity out.old ≤ vec_capacity out.new }
{
    let mut rest = length;
    while rest >= 128 {
        out.push_reserved((rest % 128 + 128) as u8);
        rest /= 128;
    }
    out.push_reserved(rest as u8);
}
