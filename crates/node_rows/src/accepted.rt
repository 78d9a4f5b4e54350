// The answers that are accepted publications.

ghost use Rattle.std.specs.Prelude.{◌≡◌, ◌++◌, IfOk, OnOk, map};
ghost use Rattle.node_rows.specs.ClientAnswers.{accepted_fields, content_fields, flag_fields, mark_fields};

use crate::answers::put_number;
use client_base::Accepted;
use rows::Fields;
use std::alloc::{AllocError, Global};

/// Appends a word and a flag, 0 or 1.
pub(crate) fn put_flag(word: &str, flag: bool, out: &mut Fields) -> Result<(), AllocError>
    ensures { OnOk result (out.new ≡ out.old ++ flag_fields word.now flag) }
{
    put_number(word, u64::from(flag), out)
}

/// Appends an answer for each accepted publication.
pub(crate) fn append_accepted(
    alloc: Global,
    accepted: &[Accepted],
    answers: &mut Vec<Fields>,
) -> Result<(), AllocError>
    ensures { OnOk result
        (answers.new.items ≡ answers.old.items ++ map accepted_fields accepted.now) }
{
    if let [one, rest @ ..] = accepted {
        answers.push(accepted_fields(alloc, one)?)?;
        append_accepted(alloc, rest, answers)?;
    }
    Ok(())
}

#[tactic(auto, unfolding(crate::specs::ClientAnswers::accepted_fields))]
fn accepted_fields(alloc: Global, accepted: &Accepted) -> Result<Fields, AllocError>
    ensures { IfOk result (λ answer. answer ≡ accepted_fields accepted.now) }
{
    let mut answer = Fields::new(alloc);
    put_marks(accepted, &mut answer)?;
    put_content(accepted, &mut answer)?;
    Ok(answer)
}

fn put_marks(accepted: &Accepted, out: &mut Fields) -> Result<(), AllocError>
    ensures { OnOk result (out.new ≡ out.old ++ mark_fields accepted.now) }
{
    put_number("session", accepted.session, out)?;
    put_number("qos", u64::from(accepted.qos.number()), out)?;
    put_flag("retain", accepted.retain, out)
}

fn put_content(accepted: &Accepted, out: &mut Fields) -> Result<(), AllocError>
    ensures { OnOk result (out.new ≡ out.old ++ content_fields accepted.now) }
{
    out.text("topic")?;
    out.text(accepted.topic.as_str())?;
    out.text("payload")?;
    out.bytes(accepted.payload.as_slice())
}
