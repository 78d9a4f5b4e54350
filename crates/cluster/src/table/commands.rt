// The program's subcommands, as they are declared to `clap`.

ghost use Rattle.std.specs.Prelude.{◌≡◌, IfOk};
ghost use Rattle.clap.specs.Words.{App, Rule, new_app, with_rule, with_subcommand};
ghost use Rattle.cluster.specs.table.Program.{IsArgument, IsCommand, bare_program, key_app, master_app, node_app, program};

use crate::table::arguments;
use clap::{Arg, Command};
use std::alloc::{AllocError, Global};

/// What `vcluster --help` prints at its end.
const AFTER_HELP: &str = "Exit status: 0 done; 1 a fault of file, network, memory, clock or threads,
or a node that reaches nobody; 2 a refused command line, or help; 3 a refused table,
row, key or state.

Example:
  vcluster key /etc/vcluster/key
  vcluster master --config /etc/vcluster/cluster.toml
  vcluster node --config /etc/vcluster/cluster.toml --row 1";

/// What `vcluster node --help` prints at its end.
const AFTER_NODE: &str = "It runs until it is killed, and ends by itself with status 1 once it has
reached neither another node nor the master for a minute. Each start is a new node to
its cluster, with a number of its own; a master's order makes it a member.";

/// What `vcluster master --help` prints at its end.
const AFTER_MASTER: &str =
    "It runs until standard input ends or brings the line `quit`. Other orders
are `status`, `assign 1,2,3 1`, `expel CLIENT` and `crash 1`.";

/// What `vcluster key --help` prints at its end.
const AFTER_KEY: &str =
    "Copy the file to each machine of the cluster, readable by its owner alone.";

/// Returns the whole command line.
pub(crate) fn program<'a>(alloc: Global) -> Result<Command<'a>, AllocError>
    ensures { IfOk result (IsCommand program) }
{
    let command = bare_program(alloc);
    let command = enter(command, node(alloc)?)?;
    let command = enter(command, master(alloc)?)?;
    enter(command, key(alloc)?)
}

// Returns the program without its subcommands.
fn bare_program<'a>(alloc: Global) -> Command<'a>
    ensures { IsCommand bare_program result }
{
    Command::new(alloc, "vcluster")
        .version("0.1.0")
        .about("Nodes of the broker as processes on machines of their own")
        .after_help(AFTER_HELP)
        .subcommand_required(true)
        .arg_required_else_help(true)
        .disable_help_subcommand(true)
}

// Returns a subcommand without its arguments.
fn bare<'a>(alloc: Global, name: &'a str, about: &'a str, after_help: &'a str) -> Command<'a>
    ensures { IsCommand (new_app name.entry.now) result }
{
    Command::new(alloc, name)
        .about(about)
        .after_help(after_help)
}

fn add<'a>(command: Command<'a>, arg: Arg<'a>) -> Result<Command<'a>, AllocError>
    ensures { (app : App) (rule : Rule) → IsCommand app command.entry → IsArgument rule arg.entry
        → IfOk result (IsCommand (with_rule app rule)) }
{
    command.arg(arg)
}

fn enter<'a>(command: Command<'a>, subcommand: Command<'a>) -> Result<Command<'a>, AllocError>
    ensures { (app sub_app : App) → IsCommand app command.entry
        → IsCommand sub_app subcommand.entry
        → IfOk result (IsCommand (with_subcommand app sub_app.top)) }
{
    command.subcommand(subcommand)
}

// Returns `node`.
fn node<'a>(alloc: Global) -> Result<Command<'a>, AllocError>
    ensures { IfOk result (IsCommand node_app) }
{
    let about = "Runs a node of a cluster: serves clients, and keeps its links";
    let command = bare(alloc, "node", about, AFTER_NODE);
    let command = add(command, arguments::config(alloc))?;
    add(command, arguments::row(alloc))
}

// Returns `master`.
fn master<'a>(alloc: Global) -> Result<Command<'a>, AllocError>
    ensures { IfOk result (IsCommand master_app) }
{
    let about = "Runs the master of a cluster";
    let command = bare(alloc, "master", about, AFTER_MASTER);
    add(command, arguments::config(alloc))
}

// Returns `key`.
fn key<'a>(alloc: Global) -> Result<Command<'a>, AllocError>
    ensures { IfOk result (IsCommand key_app) }
{
    let about =
        "Makes the key of a cluster: a file of 32 random bytes that its owner alone may read";
    let command = bare(alloc, "key", about, AFTER_KEY);
    add(command, arguments::file(alloc))
}
