// The kinds of rows.

ghost use Rattle.std.specs.Prelude.{◌≡◌};
ghost use Rattle.packet_rows.specs.Kinds.{KindAgrees, NamedAgrees};

use crate::packet_steps::Packets;
use crate::stream_steps::play_stream;
use crate::topic_steps::Texts;
use rows::{Field, Line, Outcome, Player, play_steps};
use std::alloc::Global;

/// The kinds `topic`, `packet` and `stream`.
pub(crate) struct Kinds;

impl Player for Kinds {
    ghost use Rattle.packet_rows.specs.Kinds.{RowAgrees};

    ghost RowAgrees = { RowAgrees };

    fn play(&self, alloc: Global, row: &[Line]) -> Outcome {
        match row {
            [] => Outcome::Malformed(0),
            [first, steps @ ..] => play_named(alloc, first.number, first.fields.as_slice(), steps),
        }
    }
}

// Plays the steps of a row whose first line has this number and these fields.
fn play_named(alloc: Global, number: u64, fields: &[Field], steps: &[Line]) -> Outcome
    ensures { result ≡ Outcome.Agrees → NamedAgrees fields.now steps.now }
{
    match fields {
        [kind, _] => play_kind(alloc, number, kind, steps),
        _ => Outcome::Malformed(number),
    }
}

// Plays the steps of a row of this kind.
#[tactic(auto, using(crate::proofs::KindAnswers::topic_kind, crate::proofs::KindAnswers::packet_kind, crate::proofs::KindAnswers::stream_kind))]
fn play_kind(alloc: Global, number: u64, kind: &Field, steps: &[Line]) -> Outcome
    ensures { result ≡ Outcome.Agrees → KindAgrees kind.now steps.now }
{
    if kind.is(b"topic") {
        play_steps(alloc, &mut Texts, steps)
    } else if kind.is(b"packet") {
        play_steps(alloc, &mut Packets, steps)
    } else if kind.is(b"stream") {
        play_stream(alloc, steps)
    } else {
        Outcome::Malformed(number)
    }
}
