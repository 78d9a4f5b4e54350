// Reading the packet at the front of a slice.
//
// `decode` is stateless: it looks at the bytes from their beginning and returns a whole packet with
// its length, `More`, or the first fault from the left. First byte, Remaining Length, the limit on
// the body, the presence of the whole body and its fields are checked in this order. So a packet
// over the limit is refused as soon as its length is there, before its body was received or any
// memory taken, and a fault stays the same whatever bytes follow (`faults_stay`). Each packet has
// one spelling and no spelling is a prefix of another, so a packet that is returned does not depend
// on the bytes after it.

ghost use Rattle.std.specs.Prelude.{◌≤◌, length, drop, ◌∷◌, IfOk, IsErrOf};
ghost use Rattle.packet_base.specs.Outcome.{Gives, IsOutOfMemory};
ghost use Rattle.packet.specs.Verdict.{verdict, Decodes, IsWithin, IsSpelledSo};
ghost use Rattle.packet.specs.Verdict.{ReadsWhatIsSpelled, MayNeedMemory};

use crate::error::DecodeFault;
use crate::packet::{MAX_BODY, Packet};
use packet_base::{Header, Reader, Stop, take_length};
use std::alloc::Global;
use topics::MalformedKind;

/// The result of looking at the front of a slice.
#[derive(Debug, PartialEq, Eq, Drop)]
pub enum Step {
    /// A whole packet, and its length in bytes.
    Whole(Packet, usize),
    /// Less than a packet, which more bytes may complete.
    More,
}

/// Reads the packet at the front of the bytes; more bytes may follow it.
///
/// The first fault from the left is returned. In the first byte it is `PacketType`, `Qos` or
/// `Flags`; in the Remaining Length it is `Length`, or `TooLarge` if it is over `MAX_BODY`.
///
/// Once the whole body is there, its fields are checked in order:
///
/// - `Protocol` and `Refused`: a CONNECT; a length of the Client Identifier that is refused comes
///   last.
/// - `Text`: any text. `Topic`, `Filter` and `TooDeep`: a Topic Name or a Topic Filter.
/// - `Identifier`: a Packet Identifier.
/// - `Qos`: the QoS of a filter, or a return code of a SUBACK.
/// - `Shape`: a field that does not fit, bytes left over, an empty list, or a byte of a CONNACK
///   outside its table.
///   outside its table.
///
/// `Memory` may come once the whole body is there, and only for a packet with a text or a list: a
/// CONNECT or a PUBLISH without a fault, or a SUBSCRIBE, a SUBACK or an UNSUBSCRIBE whose
/// identifier and first item have none.
pub fn decode(alloc: Global, bytes: &[u8]) -> Result<Step, DecodeFault>
    ensures exact { Decodes bytes.now result }
    ensures within { IfOk result (IsWithin bytes.now) }

    // What is read has that spelling, and what is spelled is read.
    ensures found { IfOk result (IsSpelledSo bytes.now) }
    ensures only { ReadsWhatIsSpelled bytes.now result }

    // Memory runs out only if it is needed.
    ensures memory { IsErrOf result (DecodeFault.Malformed MalformedKind.Memory)
        → MayNeedMemory bytes.now }
{
    front_step(alloc, bytes)
}

// Reads the packet at the front of the bytes; its clauses give the exact result, not its spelling.
#[tactic(auto, unfolding(crate::specs::Verdict::verdict))]
fn front_step(alloc: Global, bytes: &[u8]) -> Result<Step, DecodeFault>
    ensures exact { Decodes bytes.now result }
    ensures within { IfOk result (IsWithin bytes.now) }
    ensures memory { IsErrOf result (DecodeFault.Malformed MalformedKind.Memory)
        → MayNeedMemory bytes.now }
{
    match bytes {
        [] => Ok(Step::More),
        [first, more @ ..] => match front_packet(alloc, *first, more) {
            Ok((packet, len)) => Ok(Step::Whole(packet, 1 + len)),
            Err(Stop::More) => Ok(Step::More),
            Err(Stop::Malformed(kind)) => Err(DecodeFault::Malformed(kind)),
            Err(Stop::Refused(code)) => Err(DecodeFault::Refused(code)),
        },
    }
}

// Reads the packet that begins with `first` from the bytes after it, `more`, and returns with it
// how many bytes of `more` it takes.
#[tactic(auto, unfolding(crate::specs::Verdict::verdict, crate::specs::Verdict::asks_memory))]
fn front_packet(alloc: Global, first: u8, more: &[u8]) -> Result<(Packet, usize), Stop>
    ensures exact { Gives (λ front. (front.0, drop front.1 more.now)) result
        (verdict (first ∷ more.now)) }
    ensures within { IfOk result (λ front. front.1 ≤ length more.now) }
    ensures memory { IsOutOfMemory result → MayNeedMemory (first ∷ more.now) }
{
    let header = Header::of(first)?;
    let (len, rest) = take_length(more)?;
    let len = len as usize;
    if len > MAX_BODY {
        return Err(Stop::Malformed(MalformedKind::TooLarge));
    }
    if len > rest.len() {
        return Err(Stop::More);
    }
    let (body, after) = rest.split_at(len);
    let packet = Packet::read(alloc, header, &mut Reader::new(body))?;
    Ok((packet, more.len() - after.len()))
}
