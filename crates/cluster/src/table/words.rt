// Parsing the words of a command line.
//
// `clap` decides what the words mean and which refusal they get; this crate adds no rule of its
// own. The declaration of the commands, `Program` of specs, is what clauses speak of: a job is
// returned exactly with the matches of its subcommand, and a refusal only for a fault that the
// words have. The texts of a job are the user's words, unchecked.

ghost use Rattle.std.specs.Prelude.{◌≡◌, ◌≢◌, [], IfOk, IfErr, OnOk, IsErrOf, map};
ghost use Rattle.cluster.specs.declared.table.job.Job.{Job};
ghost use Rattle.clap.specs.Words.{HasKind, Kinds, fault_of, subcommand_of};
ghost use Rattle.cluster.specs.table.Program.{program};
ghost use Rattle.cluster.specs.table.Jobs.{IsJob, IsRefusal};

use crate::table::commands;
use crate::table::fault::LineFault;
use crate::table::job::Job;
use crate::table::job_matches::job_of;
use clap::Error;
use clap::error::ErrorKind;
use std::alloc::Global;
use std::convert::AsStr;

/// Parses the words of a command line, the first of which is the program's name. The texts of the
/// job are the words themselves.
pub fn line<'a, S: AsStr>(alloc: Global, words: &'a [S]) -> Result<Job<'a>, LineFault>
    // The job is that of the subcommand, with the values of its matches.
    ensures job { IfOk result (IsJob (subcommand_of program (map S.text words.entry.now))) }
    ensures taken { OnOk result (fault_of program (map S.text words.entry.now) ≡ []) }

    // Words are refused only for a fault that they have.
    ensures refused { IfErr result (IsRefusal (fault_of program (map S.text words.entry.now))) }
    ensures missing { IsErrOf result LineFault.Incomplete
        → (job : Job) → IsJob (subcommand_of program (map S.text words.entry.now)) job → ⊥ }
{
    let command = commands::program(alloc)?;
    match command.try_get_matches_from(words) {
        Ok(matches) => job_of(&matches),
        Err(error) => Err(refusal(error)),
    }
}

// Returns the refusal of the words, or that memory ran out.
fn refusal(error: Error) -> LineFault
    ensures refused { (kinds : Kinds) → HasKind kinds error → IsRefusal kinds result }
    ensures whole { result ≢ LineFault.Incomplete }
{
    if error.kind() == ErrorKind::OutOfMemory {
        LineFault::Memory
    } else {
        LineFault::Words(error)
    }
}
