// The arguments of the subcommands.

ghost use Rattle.cluster.specs.table.Program.{IsArgument, config_rule, file_rule, row_rule};

use clap::Arg;
use clap::builder::ValueParser;
use std::alloc::Global;

/// Returns `--config FILE`.
pub(crate) fn config<'a>(alloc: Global) -> Arg<'a>
    ensures { IsArgument config_rule result }
{
    Arg::new(alloc, "config")
        .long("config")
        .value_name("FILE")
        .required(true)
        .help("The table of the cluster, in TOML")
}

/// Returns `--row N`.
pub(crate) fn row<'a>(alloc: Global) -> Arg<'a>
    ensures { IsArgument row_rule result }
{
    Arg::new(alloc, "row")
        .long("row")
        .value_name("N")
        .required(true)
        .value_parser(ValueParser::signed(1, 15))
        .help("The row of this machine in the table, 1 to 15")
}

/// Returns `FILE`.
pub(crate) fn file<'a>(alloc: Global) -> Arg<'a>
    ensures { IsArgument file_rule result }
{
    Arg::new(alloc, "file")
        .value_name("FILE")
        .required(true)
        .help("The file that gets the key; it must not exist yet")
}
