// Writing whole texts to the output.

ghost use Rattle.std.specs.Prelude.{OnErr, OnOk, IsErrOf};
ghost use Rattle.std.specs.Io.KnownBytes.{Appends};

use crate::job_error::JobError;
use std::io::Write;

/// Writes all of the bytes.
pub(crate) fn write<O: Write>(bytes: &[u8], output: &mut O) -> Result<(), JobError>
    ensures whole { OnOk result
        (Appends (O.contents output.old) (O.contents output.new) bytes.now) }
    ensures err { OnErr result (IsErrOf result JobError.Output) }
{
    output.write_all(bytes).ok().ok_or(JobError::Output)?;
    output.flush().ok().ok_or(JobError::Output)
}
