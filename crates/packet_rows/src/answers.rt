// Answers that several kinds of rows have.

ghost use Rattle.std.specs.Prelude.{◌≡◌, ◌≢◌, IfOk, OnOk};
ghost use Rattle.packet_rows.specs.AnswerFields.{refused};

use rows::{Fields, StepFault, counted};
use std::alloc::Global;
use topics::MalformedKind;

/// Returns the answer that a text or bytes are refused: the number of the refusal. That memory ran
/// out is no answer.
pub(crate) fn refused(alloc: Global, kind: MalformedKind) -> Result<Fields, StepFault>
    ensures value { IfOk result (λ answer. answer ≡ refused kind) }
    ensures memory { OnOk result (kind ≢ MalformedKind.Memory) }
{
    match kind {
        MalformedKind::Memory => Err(StepFault::Memory),
        kind => Ok(counted(alloc, "refused", u64::from(kind.number()))?),
    }
}
