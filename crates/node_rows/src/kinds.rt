// The kinds of rows.

ghost use Rattle.std.specs.Prelude.{◌≡◌};
ghost use Rattle.node_rows.specs.Kinds.{KindAgrees, NamedAgrees};

use crate::client_steps::{play_cut_client, play_whole_client};
use crate::cut_pieces::play_cut;
use crate::group_steps::play_group;
use crate::openings::play_openings;
use rows::{Field, Line, Outcome, Player};
use std::alloc::Global;

// Up to how many bytes the first part of a piece has, in a row `node` and in a row `flood`.
const NODE_CUTS: usize = 16_400;

const FLOOD_CUTS: usize = 30;

/// The kinds `opening`, `node`, `flood`, `group`, `client` and `whole`.
pub(crate) struct Kinds;

impl Player for Kinds {
    ghost use Rattle.node_rows.specs.Kinds.{RowAgrees};

    ghost RowAgrees = { RowAgrees };

    fn play(&self, alloc: Global, row: &[Line]) -> Outcome {
        match row {
            [] => Outcome::Malformed(0),
            [first, steps @ ..] => play_named(alloc, first.number, first.fields.as_slice(), steps),
        }
    }
}

// Plays the steps of a row whose first line has this number and these fields.
fn play_named(alloc: Global, number: u64, fields: &[Field], steps: &[Line]) -> Outcome
    ensures { result ≡ Outcome.Agrees → NamedAgrees fields.now steps.now }
{
    match fields {
        [kind, _] => play_kind(alloc, number, kind, steps),
        _ => Outcome::Malformed(number),
    }
}

// Plays the steps of a row of this kind.
#[tactic(auto, using(crate::proofs::KindAnswers::opening_kind, crate::proofs::KindAnswers::node_kind, crate::proofs::KindAnswers::flood_kind, crate::proofs::KindAnswers::group_kind, crate::proofs::KindAnswers::client_kind, crate::proofs::KindAnswers::whole_kind))]
fn play_kind(alloc: Global, number: u64, kind: &Field, steps: &[Line]) -> Outcome
    ensures { result ≡ Outcome.Agrees → KindAgrees kind.now steps.now }
{
    if kind.is(b"opening") {
        play_openings(alloc, steps)
    } else if kind.is(b"node") {
        play_cut(alloc, steps, NODE_CUTS)
    } else if kind.is(b"flood") {
        play_cut(alloc, steps, FLOOD_CUTS)
    } else if kind.is(b"group") {
        play_group(alloc, steps)
    } else if kind.is(b"client") {
        play_cut_client(alloc, steps)
    } else if kind.is(b"whole") {
        play_whole_client(alloc, steps)
    } else {
        Outcome::Malformed(number)
    }
}
