// The kinds of rows.

ghost use Rattle.std.specs.Prelude.{◌≡◌};
ghost use Rattle.broker_rows.specs.Kinds.{KindAgrees, NamedAgrees};

use crate::broker_steps::play_broker;
use crate::index_steps::play_index;
use crate::session_steps::play_session;
use crate::store_steps::play_store;
use rows::{Field, Line, Outcome, Player};
use std::alloc::Global;

/// The kinds `index`, `store`, `session` and `broker`.
pub(crate) struct Kinds;

impl Player for Kinds {
    ghost use Rattle.broker_rows.specs.Kinds.{RowAgrees};

    ghost RowAgrees = { RowAgrees };

    fn play(&self, alloc: Global, row: &[Line]) -> Outcome {
        match row {
            [] => Outcome::Malformed(0),
            [first, steps @ ..] => play_named(alloc, first.number, first.fields.as_slice(), steps),
        }
    }
}

// Plays the steps of a row whose first line has this number and these fields.
fn play_named(alloc: Global, number: u64, fields: &[Field], steps: &[Line]) -> Outcome
    ensures { result ≡ Outcome.Agrees → NamedAgrees fields.now steps.now }
{
    match fields {
        [kind, _] => play_kind(alloc, number, kind, steps),
        _ => Outcome::Malformed(number),
    }
}

// Plays the steps of a row of this kind.
#[tactic(auto, using(crate::proofs::KindAnswers::index_kind, crate::proofs::KindAnswers::store_kind, crate::proofs::KindAnswers::session_kind, crate::proofs::KindAnswers::broker_kind))]
fn play_kind(alloc: Global, number: u64, kind: &Field, steps: &[Line]) -> Outcome
    ensures { result ≡ Outcome.Agrees → KindAgrees kind.now steps.now }
{
    if kind.is(b"index") {
        play_index(alloc, steps)
    } else if kind.is(b"store") {
        play_store(alloc, steps)
    } else if kind.is(b"session") {
        play_session(alloc, steps)
    } else if kind.is(b"broker") {
        play_broker(alloc, steps)
    } else {
        Outcome::Malformed(number)
    }
}
