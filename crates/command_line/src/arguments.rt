// The arguments of the subcommands.

ghost use Rattle.std.specs.Prelude.{codes};
ghost use Rattle.command_line.specs.Program.{IsArgument, address_rule, count_rule, file_rule, free_option, log_rule, qos_rule, required_option, retain_rule, tries_rule};

use clap::builder::ValueParser;
use clap::{Arg, ArgAction};
use std::alloc::Global;

// Returns `--NAME VALUE`, which is required.
fn option<'a>(alloc: Global, name: &'a str, value: &'a str, help: &'a str) -> Arg<'a>
    ensures { IsArgument (required_option name.entry.now) result }
{
    Arg::new(alloc, name)
        .long(name)
        .value_name(value)
        .required(true)
        .help(help)
}

/// Returns `--config FILE`.
pub(crate) fn config<'a>(alloc: Global) -> Arg<'a>
    ensures { IsArgument (required_option (codes "config")) result }
{
    option(alloc, "config", "FILE", "The table of nodes, in TOML")
}

/// Returns `--id ID`.
pub(crate) fn id<'a>(alloc: Global) -> Arg<'a>
    ensures { IsArgument (required_option (codes "id")) result }
{
    let help = "The client identifier, 1 to 64 bytes, used by no other client";
    option(alloc, "id", "ID", help)
}

/// Returns `--topic T`.
pub(crate) fn topic<'a>(alloc: Global) -> Arg<'a>
    ensures { IsArgument (required_option (codes "topic")) result }
{
    option(alloc, "topic", "T", "The topic, without wildcards")
}

/// Returns `--filter F`.
pub(crate) fn filter<'a>(alloc: Global) -> Arg<'a>
    ensures { IsArgument (required_option (codes "filter")) result }
{
    let help = "Which topics: `+` stands for one level, `#` at the end for all further ones";
    option(alloc, "filter", "F", help)
}

/// Returns `--qos Q`.
pub(crate) fn qos<'a>(alloc: Global) -> Arg<'a>
    ensures { IsArgument qos_rule result }
{
    let help = "0 at most once, 1 at least once, 2 exactly once";
    option(alloc, "qos", "Q", help).value_parser(ValueParser::signed(0, 2))
}

/// Returns `--message TEXT`.
pub(crate) fn message<'a>(alloc: Global) -> Arg<'a>
    ensures { IsArgument (required_option (codes "message")) result }
{
    let help = "The payload; write one that begins with a hyphen as --message=-5";
    option(alloc, "message", "TEXT", help)
}

/// Returns `--retain`.
pub(crate) fn retain<'a>(alloc: Global) -> Arg<'a>
    ensures { IsArgument retain_rule result }
{
    Arg::new(alloc, "retain")
        .long("retain")
        .action(ArgAction::SetTrue)
        .help("Has the broker keep it for later subscribers; an empty message clears it")
}

/// Returns `--count N`.
pub(crate) fn count<'a>(alloc: Global) -> Arg<'a>
    ensures { IsArgument count_rule result }
{
    let help = "How many messages to print, 1 to 1000000";
    option(alloc, "count", "N", help).value_parser(ValueParser::signed(1, 1_000_000))
}

/// Returns `--tries N`.
pub(crate) fn tries<'a>(alloc: Global) -> Arg<'a>
    ensures { IsArgument tries_rule result }
{
    Arg::new(alloc, "tries")
        .long("tries")
        .value_name("N")
        .value_parser(ValueParser::signed(1, 1000))
        .default_value("10")
        .help("How many connections to open at most, 1 to 1000")
}

/// Returns `ADDR...`.
pub(crate) fn addresses<'a>(alloc: Global) -> Arg<'a>
    ensures { IsArgument address_rule result }
{
    Arg::new(alloc, "address")
        .value_name("ADDR")
        .required(true)
        .action(ArgAction::Append)
        .help("Servers, as 127.0.0.1:1883, tried in turn")
}

/// Returns `--log LEVEL`.
pub(crate) fn log<'a>(alloc: Global) -> Arg<'a>
    ensures { IsArgument log_rule result }
{
    let help = "What is told on standard error: off, error, warn, info, debug";
    free_option(alloc, "log", "LEVEL", help).default_value("info")
}

/// Returns `--admin ADDR`.
pub(crate) fn admin<'a>(alloc: Global) -> Arg<'a>
    ensures { IsArgument (free_option (codes "admin")) result }
{
    let help = "Where a monitor may ask over HTTP, as 127.0.0.1:8883";
    free_option(alloc, "admin", "ADDR", help)
}

// Returns `--NAME VALUE`, which is optional.
fn free_option<'a>(alloc: Global, name: &'a str, value: &'a str, help: &'a str) -> Arg<'a>
    ensures { IsArgument (free_option name.entry.now) result }
{
    Arg::new(alloc, name)
        .long(name)
        .value_name(value)
        .help(help)
}

/// Returns `--escape MEMBERS`.
pub(crate) fn escape<'a>(alloc: Global) -> Arg<'a>
    ensures { IsArgument (free_option (codes "escape")) result }
{
    let help = "Prints the way out to these members, as 1,2, instead of the transcript";
    free_option(alloc, "escape", "MEMBERS", help)
}

/// Returns `--client ID`.
pub(crate) fn client<'a>(alloc: Global) -> Arg<'a>
    ensures { IsArgument (free_option (codes "client")) result }
{
    let help = "The client that the way out brings back; used with --escape";
    free_option(alloc, "client", "ID", help)
}

/// Returns `[FILE]`.
pub(crate) fn file<'a>(alloc: Global) -> Arg<'a>
    ensures { IsArgument file_rule result }
{
    Arg::new(alloc, "file")
        .value_name("FILE")
        .help("The script (default: standard input)")
}
