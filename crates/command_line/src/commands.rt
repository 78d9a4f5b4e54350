// The program's subcommands, as they are declared to `clap`.

ghost use Rattle.std.specs.Prelude.{◌≡◌, IfOk};
ghost use Rattle.clap.specs.Words.{App, Rule, new_app, with_rule, with_subcommand};
ghost use Rattle.command_line.specs.Program.{IsArgument, IsCommand, bare_program, play_app, program, publish_app, serve_app, subscribe_app};

use crate::arguments;
use clap::{Arg, Command};
use std::alloc::{AllocError, Global};

/// What `vbroker --help` prints at its end.
const AFTER_HELP: &str = "Exit status: 0 done; 1 a fault of file, network, memory, clock or threads,
`session present` or `lost`; 2 a refused command line, or help;
3 a refused table, script, topic or other argument, or no way out.

Example:
  vbroker serve --config examples/one.toml";

/// What `vbroker serve --help` prints at its end.
const AFTER_SERVE: &str = "It serves until standard input ends or brings the line `quit`.

Example:
  vbroker serve --config examples/one.toml";

/// What `vbroker pub --help` prints at its end.
const AFTER_PUBLISH: &str = "It prints nothing if all goes well.

Example:
  vbroker pub --id switch --topic house/lamp --qos 2 --message on 127.0.0.1:1883";

/// What `vbroker sub --help` prints at its end.
const AFTER_SUBSCRIBE: &str = "Each message is one line: QoS, retain, topic, payload.

Example:
  vbroker sub --id meter --filter 'house/#' --qos 2 --count 3 127.0.0.1:1883";

/// What `vbroker play --help` prints at its end.
const AFTER_PLAY: &str =
    "The first line opens the world: nodes, members, primary, clients. Each later
line is one event, and is answered by its result. With --escape and --client it
prints lines that may follow the script instead: they lead to a ballot of these
members, the first of them its primary, and to the client back with its session.
If there are none, it prints `vbroker: idle`, with status 3.

Examples:
  vbroker play examples/primary_crashes.script
  vbroker play --escape 2 --client a examples/primary_crashes.script";

/// Returns the whole command line.
pub(crate) fn program<'a>(alloc: Global) -> Result<Command<'a>, AllocError>
    ensures { IfOk result (IsCommand program) }
{
    let command = bare_program(alloc);
    let command = enter(command, serve(alloc)?)?;
    let command = enter(command, publish(alloc)?)?;
    let command = enter(command, subscribe(alloc)?)?;
    enter(command, play(alloc)?)
}

// Returns the program without its subcommands.
fn bare_program<'a>(alloc: Global) -> Command<'a>
    ensures { IsCommand bare_program result }
{
    Command::new(alloc, "vbroker")
        .version("0.1.0")
        .about("An MQTT 3.1.1 broker, and two small clients of it")
        .after_help(AFTER_HELP)
        .subcommand_required(true)
        .arg_required_else_help(true)
        .disable_help_subcommand(true)
}

// Returns a subcommand without its arguments.
fn bare<'a>(alloc: Global, name: &'a str, about: &'a str, after_help: &'a str) -> Command<'a>
    ensures { IsCommand (new_app name.entry.now) result }
{
    Command::new(alloc, name)
        .about(about)
        .after_help(after_help)
}

fn add<'a>(command: Command<'a>, arg: Arg<'a>) -> Result<Command<'a>, AllocError>
    ensures { (app : App) (rule : Rule) → IsCommand app command.entry → IsArgument rule arg.entry
        → IfOk result (IsCommand (with_rule app rule)) }
{
    command.arg(arg)
}

fn enter<'a>(command: Command<'a>, subcommand: Command<'a>) -> Result<Command<'a>, AllocError>
    ensures { (app sub_app : App) → IsCommand app command.entry
        → IsCommand sub_app subcommand.entry
        → IfOk result (IsCommand (with_subcommand app sub_app.top)) }
{
    command.subcommand(subcommand)
}

// Returns `serve`.
fn serve<'a>(alloc: Global) -> Result<Command<'a>, AllocError>
    ensures { IfOk result (IsCommand serve_app) }
{
    let about = "Serves MQTT clients over TCP";
    let command = bare(alloc, "serve", about, AFTER_SERVE);
    let command = add(command, arguments::config(alloc))?;
    let command = add(command, arguments::log(alloc))?;
    add(command, arguments::admin(alloc))
}

// Returns `pub`.
fn publish<'a>(alloc: Global) -> Result<Command<'a>, AllocError>
    ensures { IfOk result (IsCommand publish_app) }
{
    let about = "Publishes one message, and waits until it is acknowledged";
    let command = bare(alloc, "pub", about, AFTER_PUBLISH);
    let command = add(command, arguments::id(alloc))?;
    let command = add(command, arguments::topic(alloc))?;
    let command = add(command, arguments::qos(alloc))?;
    let command = add(command, arguments::message(alloc))?;
    let command = add(command, arguments::retain(alloc))?;
    let command = add(command, arguments::tries(alloc))?;
    add(command, arguments::addresses(alloc))
}

// Returns `sub`.
fn subscribe<'a>(alloc: Global) -> Result<Command<'a>, AllocError>
    ensures { IfOk result (IsCommand subscribe_app) }
{
    let about = "Prints messages as they come, and ends after the last";
    let command = bare(alloc, "sub", about, AFTER_SUBSCRIBE);
    let command = add(command, arguments::id(alloc))?;
    let command = add(command, arguments::filter(alloc))?;
    let command = add(command, arguments::qos(alloc))?;
    let command = add(command, arguments::count(alloc))?;
    let command = add(command, arguments::tries(alloc))?;
    add(command, arguments::addresses(alloc))
}

// Returns `play`.
fn play<'a>(alloc: Global) -> Result<Command<'a>, AllocError>
    ensures { IfOk result (IsCommand play_app) }
{
    let about = "Plays a script of nodes and clients in memory, and prints a transcript";
    let command = bare(alloc, "play", about, AFTER_PLAY);
    let command = add(command, arguments::escape(alloc))?;
    let command = add(command, arguments::client(alloc))?;
    add(command, arguments::file(alloc))
}
