// Packets as answers: their bytes.

ghost use Rattle.std.specs.Prelude.{◌≡◌, ◌++◌, IfOk, OnOk, map};
ghost use Rattle.rows.specs.Answers.{word};
ghost use Rattle.packet.specs.Spelling.{spelling};
ghost use Rattle.broker_rows.specs.Values.{packet_fields};

use packet::{EncodeFault, Packet, encode, spelling_spells};
use rows::{Field, Fields, StepFault};
use std::alloc::{AllocError, Global};

/// Returns the answer of these bytes.
pub(crate) fn bytes_answer(alloc: Global, bytes: Vec<u8>) -> Result<Fields, AllocError>
    ensures { IfOk result (λ answer. answer ≡ word bytes.items) }
{
    let mut answer = Fields::new(alloc);
    answer.push(Field::new(bytes))?;
    Ok(answer)
}

/// Returns the answers that are these packets.
pub(crate) fn packet_answers(alloc: Global, packets: &[Packet]) -> Result<Vec<Fields>, StepFault>
    ensures { IfOk result (λ answers. answers.items ≡ map packet_fields packets.now) }
{
    let mut answers = Vec::new(alloc);
    append_packets(alloc, packets, &mut answers)?;
    Ok(answers)
}

// Appends the answer of each packet.
fn append_packets(
    alloc: Global,
    packets: &[Packet],
    answers: &mut Vec<Fields>,
) -> Result<(), StepFault>
    ensures { OnOk result
        (answers.new.items ≡ answers.old.items ++ map packet_fields packets.now) }
{
    if let [packet, rest @ ..] = packets {
        let mut answer = Fields::new(alloc);
        put_packet(alloc, packet, &mut answer)?;
        answers.push(answer)?;
        append_packets(alloc, rest, answers)?;
    }
    Ok(())
}

/// Appends the field of a packet's bytes.
#[tactic(auto, using(crate::proofs::PacketAnswers::put_bytes))]
pub(crate) fn put_packet(
    alloc: Global,
    packet: &Packet,
    answer: &mut Fields,
) -> Result<(), StepFault>
    ensures { OnOk result (answer.new ≡ answer.old ++ packet_fields packet.now) }
{
    let bytes = bytes_of(alloc, packet)?;
    answer.push(Field::new(bytes))?;
    Ok(())
}

// Returns the bytes of a packet.
fn bytes_of(alloc: Global, packet: &Packet) -> Result<Vec<u8>, StepFault>
    ensures { IfOk result (λ bytes. bytes.items ≡ spelling packet.now) }
{
    spelling_spells();
    if !packet.has_no_empty_list() {
        return Err(StepFault::Form);
    }
    let mut out = Vec::new(alloc);
    match encode(packet, &mut out) {
        Ok(()) => Ok(out),
        Err(EncodeFault::TooLarge) => Err(StepFault::Form),
        Err(EncodeFault::Memory) => Err(StepFault::Memory),
    }
}
