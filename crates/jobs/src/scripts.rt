// Playing scripts, and printing their transcripts.

ghost use Rattle.std.specs.Prelude.{◌≡◌, ◌<◌, ℕ, IfOk, OnOk, IsErrOf};
ghost use Rattle.script.specs.Scripts.{Refuses, lines_of};
ghost use Rattle.script.specs.declared.error.ScriptFault.TheVariants.{Line};
ghost use Rattle.play.specs.Recoveries.{HasNoRecovery};
ghost use Rattle.jobs.specs.Transcripts.{IsScriptText, PlaysScript, Prints, PrintsRecovery, PrintsRecoveryOf};

use crate::job_error::JobError;
use crate::whole_input::{bytes_of, rest_of};
use crate::whole_output::write;
use ballot_base::errors::OpeningError;
use command_line::{Escape, Play};
use packet_base::ClientId;
use play::{PlayError, escape, play};
use script::orders::{WordFault, client_of, members_of};
use std::alloc::Global;
use std::io::{BufRead, Write};
use std::rt::Files;

/// Plays the script of a file, or of the input if no file is named. Prints its transcript, or a
/// recovery from the world in which it ends if the words ask for one.
pub(crate) fn run<R, I, O>(
    rt: &R,
    job: &Play<'_>,
    input: &mut I,
    output: &mut O,
) -> Result<(), JobError>
where
    R: Files + AllocGlobal,
    I: BufRead,
    O: Write,
    ensures { OnOk result (PlaysScript job.now (I.remaining input.old)
        (O.contents output.old) (O.contents output.new)) }
{
    let text = text_of(rt, job, input)?;
    match &job.escape {
        Some(escape) => print_recovery(rt.alloc(), text.as_slice(), escape, output),
        None => play_text(rt.alloc(), text.as_slice(), output),
    }
}

// Returns the text of the script of a file, or of the input if no file is named.
fn text_of<R, I>(rt: &R, job: &Play<'_>, input: &mut I) -> Result<Vec<u8>, JobError>
where
    R: Files + AllocGlobal,
    I: BufRead,
    ensures { IfOk result (λ text. IsScriptText job.now (I.remaining input.old) text.items) }
{
    match job.script {
        Some(file) => bytes_of(rt, file),
        None => rest_of(rt.alloc(), input),
    }
}

// Plays a script, and prints a recovery from the world in which it ends, for the members and the
// client that the words name.
fn print_recovery<O: Write>(
    alloc: Global,
    text: &[u8],
    job: &Escape<'_>,
    output: &mut O,
) -> Result<(), JobError>
    ensures { OnOk result
        (PrintsRecoveryOf job.now text.now (O.contents output.old) (O.contents output.new)) }
{
    let members = match members_of(alloc, job.members) {
        Ok(members) => members,
        Err(WordFault::Memory) => return Err(JobError::Memory),
        Err(WordFault::Refused(_)) => {
            return Err(JobError::Refused(OpeningError::BadMembers.number()));
        }
    };
    let client = match client_of(alloc, job.client) {
        Ok(client) => client,
        Err(WordFault::Memory) => return Err(JobError::Memory),
        Err(WordFault::Refused(number)) => return Err(JobError::Refused(number)),
    };
    escape_text(alloc, text, members.as_slice(), &client, output)
}

// Plays a script, and writes a recovery from the world in which it ends, as lines that may follow
// the script.
fn escape_text<O: Write>(
    alloc: Global,
    text: &[u8],
    members: &[u8],
    client: &ClientId,
    output: &mut O,
) -> Result<(), JobError>
    ensures printed { OnOk result (PrintsRecovery text.now members.now client.now
        (O.contents output.old) (O.contents output.new)) }

    // If there is none, nothing is written.
    ensures idle { IsErrOf result JobError.Idle → HasNoRecovery text.now members.now client.now }
    ensures untouched { IsErrOf result JobError.Idle
        → O.contents output.new ≡ O.contents output.old }

    // A text that is no script is refused for its first malformed line.
    ensures refused { (number : ℕ) → IsErrOf result (JobError.Script number)
        → Refuses (lines_of text.now) (Line number) }
{
    let mut way = Vec::new(alloc);
    match escape(alloc, text, members, client, &mut way) {
        Ok(()) => write(way.as_slice(), output),
        Err(error) => Err(JobError::from(error)),
    }
}

/// Plays a script, and writes its transcript if that is complete.
pub fn play_text<O: Write>(alloc: Global, text: &[u8], output: &mut O) -> Result<(), JobError>
    ensures played { OnOk result
        (Prints text.now (O.contents output.old) (O.contents output.new) 0) }

    // If memory ran out in the world, the transcript is still written.
    ensures out_of_memory { IsErrOf result JobError.Losses → (losses : ℕ) × ((0 < losses)
        × Prints text.now (O.contents output.old) (O.contents output.new) losses) }

    // A text that is no script is refused for its first malformed line, and nothing is written.
    ensures refused { (number : ℕ) → IsErrOf result (JobError.Script number)
        → Refuses (lines_of text.now) (Line number) }
    ensures untouched { (number : ℕ) → IsErrOf result (JobError.Script number)
        → O.contents output.new ≡ O.contents output.old }
{
    let mut transcript = Vec::new(alloc);
    match play(alloc, text, &mut transcript) {
        Ok(()) => write(transcript.as_slice(), output),
        Err(error) => {
            if error == PlayError::Losses {
                write(transcript.as_slice(), output)?;
            }
            Err(JobError::from(error))
        }
    }
}
