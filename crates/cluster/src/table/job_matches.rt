// The job of a command line, from its matches.

ghost use Rattle.std.specs.Prelude.{◌≡◌, [], ℕ, Some, None, IfOk, IfErr, IsErrOf};
ghost use Rattle.command_line.specs.Jobs.{HasNumber};
ghost use Rattle.cluster.specs.declared.table.job.Job.{Job};
ghost use Rattle.clap.specs.Words.{first_of, found_of, rows_of, subcommand_rows_of};
ghost use Rattle.cluster.specs.declared.table.job.RunNode.{RunNode};
ghost use Rattle.cluster.specs.table.Jobs.{IsJob, IsNode, IsRefusal};

use crate::table::fault::LineFault;
use crate::table::job::{Job, MakeKey, RunMaster, RunNode};
use clap::ArgMatches;

/// Returns the job of the subcommand that was found, with the values of its arguments.
pub(crate) fn job_of<'a>(matches: &ArgMatches<'a>) -> Result<Job<'a>, LineFault>
    ensures job { IfOk result (IsJob (subcommand_rows_of matches.now)) }
    ensures refused { IfErr result (IsRefusal []) }
    ensures missing { IsErrOf result LineFault.Incomplete
        → (job : Job) → IsJob (subcommand_rows_of matches.now) job → ⊥ }
{
    if let Some(found) = matches.subcommand_matches("node") {
        return Ok(Job::Node(node(found)?));
    }
    if let Some(found) = matches.subcommand_matches("master") {
        let config = text(found, "config")?;
        return Ok(Job::Master(RunMaster { config }));
    }
    if let Some(found) = matches.subcommand_matches("key") {
        let file = text(found, "file")?;
        return Ok(Job::Key(MakeKey { file }));
    }
    Err(LineFault::Incomplete)
}

// Returns the words of `node`.
fn node<'a>(found: &ArgMatches<'a>) -> Result<RunNode<'a>, LineFault>
    ensures job { IfOk result (IsNode (rows_of (found_of found.now))) }
    ensures refused { IfErr result (IsRefusal []) }
    ensures missing { IsErrOf result LineFault.Incomplete
        → (job : RunNode) → IsNode (rows_of (found_of found.now)) job → ⊥ }
{
    let config = text(found, "config")?;
    let row = number(found, "row")?;
    Ok(RunNode { config, row })
}

// Returns the text of an argument.
fn text<'a>(found: &ArgMatches<'a>, id: &str) -> Result<&'a str, LineFault>
    ensures value { IfOk result (λ text.
        first_of id.now (rows_of (found_of found.now)) ≡ Some text.now) }
    ensures refused { IfErr result (IsRefusal []) }
    ensures missing { IsErrOf result LineFault.Incomplete
        → first_of id.now (rows_of (found_of found.now)) ≡ None }
{
    match found.get_str(id) {
        Some(text) => Ok(text),
        None => Err(LineFault::Incomplete),
    }
}

// Returns the number of an argument.
fn number(found: &ArgMatches<'_>, id: &str) -> Result<u32, LineFault>
    ensures value { IfOk result (HasNumber id.now (rows_of (found_of found.now))) }
    ensures refused { IfErr result (IsRefusal []) }
    ensures missing { IsErrOf result LineFault.Incomplete
        → (number : ℕ) → HasNumber id.now (rows_of (found_of found.now)) number → ⊥ }
{
    match found.get_one::<u32>(id) {
        Some(number) => Ok(number),
        None => Err(LineFault::Incomplete),
    }
}
