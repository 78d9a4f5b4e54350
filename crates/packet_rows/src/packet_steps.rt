// Steps about one packet: its bytes, read and written (MQTT 2, 3).

ghost use Rattle.std.specs.Prelude.{◌≡◌, ◌<◌, ◌≤◌, ◌^◌, ◌↔◌, ◌≢◌, ◌∷◌, [], Some, IfOk, OnOk};
ghost use Rattle.std.specs.Prelude.{length, take, drop, Decides};
ghost use Rattle.packet_base.specs.Spelling.{remaining_length};
ghost use Rattle.packet_base.specs.Readers.{length_at};
ghost use Rattle.packet.specs.Spelling.{IsListed, IsPacket, Spells};
ghost use Rattle.packet.specs.Verdict.{verdict};
ghost use Rattle.topics.specs.Text.{topic_fault};
ghost use Rattle.packet_rows.specs.PacketFields.{packet_fields};
ghost use Rattle.packet_rows.specs.PacketSteps.{LengthAnswer, PacketStep, left_answers, read_back, digits_of};
ghost use Rattle.packet_rows.specs.PacketSteps.{read_answers, spelled, publish_of};
ghost use Rattle.packet_rows.specs.StreamSteps.{fault_answer};
ghost use Rattle.packet_rows.specs.TopicSteps.{unless};

use crate::answers::refused;
use crate::packet_fields::packet_fields;
use packet::{
    DecodeFault, Delivery, EncodeFault, Packet, Payload, Publish, Step, decode, encode,
    spelling_spells,
};
use packet_base::{length_size, put_length, take_length};
use rows::{Field, Fields, StepFault, Tested, counted, only, word};
use std::alloc::Global;
use topics::{MalformedKind, TopicName};

/// Packets, which no step changes.
#[derive(Drop)]
pub(crate) struct Packets;

impl Tested for Packets {
    ghost use Rattle.packet_rows.specs.PacketSteps.{PacketStep};

    ghost Does = { λ old step answers new. PacketStep step answers };

    fn step(&mut self, alloc: Global, step: &Fields) -> Result<Vec<Fields>, StepFault> {
        match step.as_slice() {
            [word, value] => Ok(asked(alloc, word, value)?),
            [word, topic, payload] => Ok(asked_to_write(alloc, word, topic, payload)?),
            _ => Err(StepFault::Form),
        }
    }
}

// Returns the answers to a question about bytes, or about a Remaining Length.
#[tactic(auto, using(crate::proofs::PacketAnswers::read_step, crate::proofs::PacketAnswers::length_step))]
fn asked(alloc: Global, word: &Field, value: &Field) -> Result<Vec<Fields>, StepFault>
    ensures { IfOk result (λ answers. PacketStep (word.now ∷ value.now ∷ []) answers.items) }
{
    if word.is(b"read") {
        Ok(read(alloc, value.as_slice())?)
    } else if word.is(b"length") {
        Ok(only(alloc, length(alloc, value)?)?)
    } else {
        Err(StepFault::Form)
    }
}

// Returns the answer to a question about a PUBLISH.
#[tactic(auto, using(crate::proofs::PacketAnswers::write_step))]
fn asked_to_write(
    alloc: Global,
    word: &Field,
    topic: &Field,
    payload: &Field,
) -> Result<Vec<Fields>, StepFault>
    ensures { IfOk result (λ answers.
        PacketStep (word.now ∷ topic.now ∷ payload.now ∷ []) answers.items) }
{
    if word.is(b"write") {
        Ok(only(alloc, written(alloc, topic, payload)?)?)
    } else {
        Err(StepFault::Form)
    }
}

// Returns what bytes are read as. What is not read, and what is written otherwise, are answers of
// their own.
fn read(alloc: Global, bytes: &[u8]) -> Result<Vec<Fields>, StepFault>
    ensures { IfOk result (λ answers. answers.items ≡ read_answers (verdict bytes.now)) }
{
    match &decode(alloc, bytes) {
        Ok(Step::Whole(packet, len)) => whole(alloc, packet, bytes, *len),
        Ok(Step::More) => Ok(only(alloc, word(alloc, "more")?)?),
        Err(fault) => Ok(only(alloc, fault_fields(alloc, *fault)?)?),
    }
}

/// Returns the answer for bytes that are no packet.
pub(crate) fn fault_fields(alloc: Global, fault: DecodeFault) -> Result<Fields, StepFault>
    ensures value { IfOk result (λ answer. answer ≡ fault_answer fault) }
    ensures memory { OnOk result (fault ≢ DecodeFault.Malformed MalformedKind.Memory) }
{
    match fault {
        DecodeFault::Malformed(kind) => refused(alloc, kind),
        DecodeFault::Refused(code) => Ok(counted(alloc, "code", u64::from(code.number()))?),
    }
}

// Returns the answers for a packet at the front of bytes, of this length.
fn whole(alloc: Global, packet: &Packet, bytes: &[u8], len: usize) -> Result<Vec<Fields>, StepFault>
    requires within { len ≤ length bytes.now }
    requires spelled { Spells packet.now (take len bytes.now) }
    requires packet { IsPacket packet.now }
    ensures { IfOk result (λ answers.
        answers.items ≡ packet_fields packet.now ∷ left_answers (drop len bytes.now)) }
{
    let mut answers = only(alloc, packet_fields(alloc, packet)?)?;
    let (front, rest) = bytes.split_at(len);
    if !is_written_so(alloc, packet, front)? {
        answers.push(word(alloc, "written_otherwise")?)?;
    }
    if !rest.is_empty() {
        answers.push(counted(alloc, "left", rest.len() as u64)?)?;
    }
    Ok(answers)
}

// Returns true if a packet is written as these bytes.
fn is_written_so(alloc: Global, packet: &Packet, bytes: &[u8]) -> Result<bool, StepFault>
    requires { IsPacket packet.now }
    ensures { IfOk result (λ is_so. Decides is_so (Spells packet.now bytes.now)) }
{
    spelling_spells();
    let mut out = Vec::new(alloc);
    match encode(packet, &mut out) {
        Ok(()) => Ok(out.as_slice() == bytes),
        Err(EncodeFault::TooLarge) => Ok(false),
        Err(EncodeFault::Memory) => Err(StepFault::Memory),
    }
}

// Returns the bytes of a PUBLISH at QoS 0, or with which number it is refused.
fn written(alloc: Global, topic: &Field, payload: &Field) -> Result<Fields, StepFault>
    ensures { IfOk result (λ answer. answer
        ≡ unless (topic_fault topic.now) (spelled (publish_of topic.now payload.now))) }
{
    let Some(topic) = topic.as_text() else {
        return Err(StepFault::Form);
    };
    match TopicName::new(alloc, topic) {
        Ok(topic) => published(alloc, topic, payload.as_slice()),
        Err(kind) => refused(alloc, kind),
    }
}

// Returns the bytes of a PUBLISH at QoS 0, or the number with which it is refused.
fn published(alloc: Global, topic: TopicName, payload: &[u8]) -> Result<Fields, StepFault>
    ensures { IfOk result (λ answer. answer ≡ spelled (publish_of topic payload.now)) }
{
    let payload = Payload::new(alloc, payload)?;
    let packet = Packet::Publish(Publish {
        topic,
        delivery: Delivery::AtMostOnce,
        retain: false,
        payload,
    });
    spelled(alloc, &packet)
}

// Returns the bytes of a packet, or with which number it is refused.
#[tactic(auto, using(crate::proofs::PacketAnswers::spelled_large))]
fn spelled(alloc: Global, packet: &Packet) -> Result<Fields, StepFault>
    requires { IsListed packet.now }
    ensures { IfOk result (λ answer. answer ≡ spelled packet.now) }
{
    spelling_spells();
    let mut out = Vec::new(alloc);
    match encode(packet, &mut out) {
        Ok(()) => {
            let mut answer = Fields::new(alloc);
            answer.push(Field::new(out))?;
            Ok(answer)
        }
        Err(EncodeFault::TooLarge) => {
            Ok(counted(alloc, "refused", u64::from(EncodeFault::TooLarge.number()))?)
        }
        Err(EncodeFault::Memory) => Err(StepFault::Memory),
    }
}

// Returns the bytes of a Remaining Length, and the number that is read from them (MQTT 2.2.3).
#[tactic(auto, using(crate::proofs::PacketAnswers::length_answer))]
fn length(alloc: Global, digits: &Field) -> Result<Fields, StepFault>
    ensures { IfOk result (LengthAnswer digits.now) }
{
    match digits.number() {
        Some(number) if number < 268_435_456 => Ok(length_fields(alloc, number as u32)?),
        _ => Err(StepFault::Form),
    }
}

fn length_fields(alloc: Global, length: u32) -> Result<Fields, StepFault>
    requires { length < 2 ^ 28 }
    ensures { IfOk result (λ answer. answer
        ≡ remaining_length length ∷ digits_of (read_back (length_at 3 (remaining_length length)))) }
{
    let mut bytes = Vec::new(alloc);
    bytes.reserve(length_size(length))?;
    put_length(&mut bytes, length);
    let read = length_of(bytes.as_slice());
    let mut answer = Fields::new(alloc);
    answer.push(Field::new(bytes))?;
    if let Some(read) = read {
        answer.number(u64::from(read))?;
    }
    Ok(answer)
}

// Returns the length that all of these bytes are.
fn length_of(bytes: &[u8]) -> Option<u32>
    ensures { result ≡ read_back (length_at 3 bytes.now) }
{
    match take_length(bytes) {
        Ok((read, rest)) if rest.is_empty() => Some(read),
        _ => None,
    }
}
