// Steps of a stream: pieces of bytes, and the packets that come of them (MQTT 2.2, 4.8).

ghost use Rattle.std.specs.Prelude.{◌≡◌, ◌++◌, ◌∷◌, [], not, IfOk, OnOk};
ghost use Rattle.rows.specs.Playing.{Agrees};
ghost use Rattle.packet_rows.specs.PacketFields.{packet_fields};
ghost use Rattle.packet_rows.specs.StreamSteps.{Adds, Feeds, StreamDoes, TakesAll, fault_answer};
ghost use Rattle.packet_rows.specs.StreamRuns.{BringSame, StepDoes, StreamAgrees, fresh, pieces_of};

use crate::packet_fields::packet_fields;
use crate::packet_steps::fault_fields;
use crate::stream_pieces::play_in_other_pieces;
use cutter::{CutError, Cutter};
use packet::{DecodeFault, Packet};
use rows::{Field, Fields, Line, Outcome, StepFault, Tested, counted, play_steps};
use std::alloc::Global;

/// A stream of bytes.
pub(crate) struct Pieces {
    cutter: Cutter,
}

impl Drop for Pieces {
    fn drop(self) {
        let Pieces { cutter: _cutter } = self;
    }
}

impl Tested for Pieces {
    ghost use Rattle.packet_rows.specs.StreamRuns.{StepDoes};

    ghost Does = { StepDoes };

    fn step(&mut self, alloc: Global, step: &Fields) -> Result<Vec<Fields>, StepFault> {
        match step.as_slice() {
            [word, piece] => Ok(asked(alloc, &mut self.cutter, word, piece)?),
            _ => Err(StepFault::Form),
        }
    }
}

// Feeds a piece, if that is the word, and returns its answers.
#[tactic(auto, using(crate::proofs::StreamAnswers::feed_step))]
fn asked(
    alloc: Global,
    cutter: &mut Cutter,
    word: &Field,
    piece: &Field,
) -> Result<Vec<Fields>, StepFault>
    ensures { IfOk result (λ answers.
        StreamDoes cutter.old (word.now ∷ piece.now ∷ []) answers.items cutter.new) }
{
    if !word.is(b"feed") {
        return Err(StepFault::Form);
    }
    let mut answers = Vec::new(alloc);
    feed(alloc, cutter, piece.as_slice(), &mut answers)?;
    Ok(answers)
}

/// Feeds a piece, and appends the packets that come, and the fault after them, if there is one.
/// Returns true if there is none.
#[tactic(auto, using(crate::proofs::StreamAnswers::feed_piece, crate::proofs::StreamAnswers::feed_failed))]
pub(crate) fn feed(
    alloc: Global,
    cutter: &mut Cutter,
    piece: &[u8],
    answers: &mut Vec<Fields>,
) -> Result<bool, StepFault>
    ensures { IfOk result (λ goes_on. (goes_on ≡ not cutter.new.failed)
        × Adds answers.old.items answers.new.items
        (λ came. Feeds cutter.old piece.now came cutter.new)) }
{
    match cutter.feed(piece) {
        Ok(()) => {
            let goes_on = take_all(alloc, cutter, answers)?;
            Ok(goes_on)
        }
        Err(CutError::Failed) => {
            answers.push(counted(alloc, "refused", 13)?)?;
            Ok(false)
        }
        Err(_) => Err(StepFault::Memory),
    }
}

// Appends the packets that are there, and the fault after them, if there is one. Returns true if
// there is none.
#[tactic(auto, using(crate::proofs::StreamAnswers::take_none, crate::proofs::StreamAnswers::take_fault, crate::proofs::StreamAnswers::take_more))]
fn take_all(
    alloc: Global,
    cutter: &mut Cutter,
    answers: &mut Vec<Fields>,
) -> Result<bool, StepFault>
    ensures { IfOk result (λ goes_on. (goes_on ≡ not cutter.new.failed)
        × Adds answers.old.items answers.new.items
        (λ came. TakesAll cutter.old came cutter.new)) }
{
    match cutter.next() {
        Ok(Some(packet)) => {
            let is_put = put_packet(alloc, &packet, answers);
            drop(packet);
            is_put?;
            let goes_on = take_all(alloc, cutter, answers)?;
            Ok(goes_on)
        }
        Ok(None) => Ok(true),
        Err(CutError::Decode(fault)) => {
            put_fault(alloc, fault, answers)?;
            Ok(false)
        }
        Err(_) => Err(StepFault::Memory),
    }
}

// Appends the answer of a packet.
fn put_packet(alloc: Global, packet: &Packet, answers: &mut Vec<Fields>) -> Result<(), StepFault>
    ensures { OnOk result (answers.new.items ≡ answers.old.items ++ packet_fields packet.now ∷ []) }
{
    answers.push(packet_fields(alloc, packet)?)?;
    Ok(())
}

// Appends the answer of a fault.
fn put_fault(alloc: Global, fault: DecodeFault, answers: &mut Vec<Fields>) -> Result<(), StepFault>
    ensures { OnOk result (answers.new.items ≡ answers.old.items ++ fault_answer fault ∷ []) }
{
    answers.push(fault_fields(alloc, fault)?)?;
    Ok(())
}

/// Plays the steps of a stream: as they are written, and with their bytes in other pieces.
pub(crate) fn play_stream(alloc: Global, steps: &[Line]) -> Outcome
    ensures written { result ≡ Outcome.Agrees → StreamAgrees steps.now }
    ensures pieces { result ≡ Outcome.Agrees → BringSame (pieces_of steps.now) }
{
    let outcome = play_as_written(alloc, steps);
    if !outcome.is_agreement() {
        return outcome;
    }
    drop(outcome);
    // All steps were done before, so none is malformed.
    match play_in_other_pieces(alloc, steps) {
        Ok(outcome) => outcome,
        Err(_) => Outcome::Memory,
    }
}

fn play_as_written(alloc: Global, steps: &[Line]) -> Outcome
    ensures { result ≡ Outcome.Agrees → Agrees StepDoes (record { cutter = fresh }) steps.now }
{
    let mut pieces = Pieces {
        cutter: Cutter::new(alloc),
    };
    let outcome = play_steps(alloc, &mut pieces, steps);
    drop(pieces);
    outcome
}
