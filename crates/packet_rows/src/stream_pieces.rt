// The bytes of a stream in other pieces than those of its row: cut in two at every byte, and byte
// by byte.

ghost use Rattle.std.specs.Prelude.{◌≡◌, ◌++◌, ◌∷◌, [], Ok, IfOk, OnOk};
ghost use Rattle.rows.specs.Fields.{texts};
ghost use Rattle.packet_rows.specs.StreamSteps.{Adds};
ghost use Rattle.packet_rows.specs.StreamRuns.{BringSame, BringSameCut, Brings, BringsSame};
ghost use Rattle.packet_rows.specs.StreamRuns.{FeedsAll, bytewise, joined, piece_of, pieces_of};

use crate::stream_steps::feed;
use cutter::Cutter;
use rows::{Cut, Field, Fields, Line, Outcome, StepFault, are_equal};
use std::alloc::{AllocError, Global};

/// Feeds the bytes of the steps in other pieces. The answers, up to the first fault, have to be
/// those that they get in the pieces of the steps.
pub(crate) fn play_in_other_pieces(alloc: Global, steps: &[Line]) -> Result<Outcome, StepFault>
    ensures { result ≡ Ok Outcome.Agrees → BringSame (pieces_of steps.now) }
{
    let mut pieces = Vec::new(alloc);
    append_pieces(steps, &mut pieces)?;
    play_joined(alloc, pieces.as_slice())
}

// Feeds the bytes of these pieces in others.
fn play_joined(alloc: Global, pieces: &[&[u8]]) -> Result<Outcome, StepFault>
    ensures { result ≡ Ok Outcome.Agrees → BringSame (texts pieces.now) }
{
    let wanted = answers_of(alloc, pieces)?;
    let mut bytes = Vec::new(alloc);
    append_joined(pieces, &mut bytes)?;
    play_bytes(alloc, bytes.as_slice(), wanted.as_slice())
}

// Feeds bytes cut in two at every byte, and byte by byte.
fn play_bytes(alloc: Global, bytes: &[u8], wanted: &[Fields]) -> Result<Outcome, StepFault>
    ensures cut { result ≡ Ok Outcome.Agrees → BringSameCut wanted.now bytes.now }
    ensures each { result ≡ Ok Outcome.Agrees → BringsSame wanted.now (bytewise bytes.now) }
{
    let outcome = play_cut(alloc, bytes, wanted)?;
    if !outcome.is_agreement() {
        return Ok(outcome);
    }
    drop(outcome);
    play_bytewise(alloc, bytes, wanted)
}

// Appends the pieces that the steps feed.
fn append_pieces<'a>(steps: &'a [Line], pieces: &mut Vec<&'a [u8]>) -> Result<(), StepFault>
    ensures { OnOk result
        (texts pieces.new.items ≡ texts pieces.old.items ++ pieces_of steps.now) }
{
    if let [step, rest @ ..] = steps {
        append_piece(step, pieces)?;
        append_pieces(rest, pieces)?;
    }
    Ok(())
}

// Appends the piece that a line feeds, if it feeds one: an answer does not.
fn append_piece<'a>(line: &'a Line, pieces: &mut Vec<&'a [u8]>) -> Result<(), StepFault>
    ensures { OnOk result
        (texts pieces.new.items ≡ texts pieces.old.items ++ piece_of line.now.fields) }
{
    match line.fields.as_slice() {
        [word, piece] => append_fed(word, piece, pieces),
        _ => Ok(()),
    }
}

// Appends a piece, if the word feeds it.
fn append_fed<'a>(
    word: &Field,
    piece: &'a Field,
    pieces: &mut Vec<&'a [u8]>,
) -> Result<(), StepFault>
    ensures { OnOk result (texts pieces.new.items
        ≡ texts pieces.old.items ++ piece_of (word.now ∷ piece.now ∷ [])) }
{
    if word.is(b"feed") {
        pieces.push(piece.as_slice())?;
    }
    Ok(())
}

// Appends the bytes of the pieces.
fn append_joined(pieces: &[&[u8]], bytes: &mut Vec<u8>) -> Result<(), AllocError>
    ensures { OnOk result (bytes.new.items ≡ bytes.old.items ++ joined (texts pieces.now)) }
{
    if let [piece, rest @ ..] = pieces {
        bytes.extend_from_slice(piece)?;
        append_joined(rest, bytes)?;
    }
    Ok(())
}

// Appends each byte as a piece.
fn append_bytewise<'a>(bytes: &'a [u8], pieces: &mut Vec<&'a [u8]>) -> Result<(), AllocError>
    ensures { OnOk result (texts pieces.new.items ≡ texts pieces.old.items ++ bytewise bytes.now) }
{
    if !bytes.is_empty() {
        let (byte, rest) = bytes.split_at(1);
        pieces.push(byte)?;
        append_bytewise(rest, pieces)?;
    }
    Ok(())
}

// Returns the answers that pieces get, up to the first fault.
fn answers_of(alloc: Global, pieces: &[&[u8]]) -> Result<Vec<Fields>, StepFault>
    ensures { IfOk result (λ answers. Brings (texts pieces.now) answers.items) }
{
    let mut cutter = Cutter::new(alloc);
    let mut answers = Vec::new(alloc);
    feed_all(alloc, &mut cutter, pieces, &mut answers)?;
    Ok(answers)
}

// Feeds pieces up to the first fault, and appends the answers.
fn feed_all(
    alloc: Global,
    cutter: &mut Cutter,
    pieces: &[&[u8]],
    answers: &mut Vec<Fields>,
) -> Result<(), StepFault>
    ensures { OnOk result (Adds answers.old.items answers.new.items
        (λ came. FeedsAll cutter.old (texts pieces.now) came cutter.new)) }
{
    let [piece, rest @ ..] = pieces else {
        return Ok(());
    };
    if !feed(alloc, cutter, piece, answers)? {
        return Ok(());
    }
    feed_all(alloc, cutter, rest, answers)?;
    Ok(())
}

// Feeds the bytes cut in two at every byte.
fn play_cut(alloc: Global, bytes: &[u8], wanted: &[Fields]) -> Result<Outcome, StepFault>
    ensures { result ≡ Ok Outcome.Agrees → BringSameCut wanted.now bytes.now }
{
    for at in 0..bytes.len() + 1 {
        let (front, back) = bytes.split_at(at);
        let answers = answers_of(alloc, &[front, back])?;
        if !are_equal(answers.as_slice(), wanted) {
            return Ok(Outcome::DiffersCut(Cut::At(at), answers));
        }
    }
    Ok(Outcome::Agrees)
}

// Feeds the bytes one by one.
fn play_bytewise(alloc: Global, bytes: &[u8], wanted: &[Fields]) -> Result<Outcome, StepFault>
    ensures { result ≡ Ok Outcome.Agrees → BringsSame wanted.now (bytewise bytes.now) }
{
    let mut pieces = Vec::new(alloc);
    append_bytewise(bytes, &mut pieces)?;
    let answers = answers_of(alloc, pieces.as_slice())?;
    if !are_equal(answers.as_slice(), wanted) {
        return Ok(Outcome::DiffersCut(Cut::EachByte, answers));
    }
    Ok(Outcome::Agrees)
}
