// Command lines, and what they ask for.

use clap::error::ErrorKind;
use cluster::table::{Job, LineFault, line};
use std::alloc::Global;

// What the words ask for: the subcommand and its values, or the kind of a refusal.
#[derive(Clone, Copy, Debug, PartialEq, Eq)]
enum Asked<'a> {
    Node(&'a str, u32),
    Master(&'a str),
    Key(&'a str),
    Refused(ErrorKind),
    Other,
}

// Words after the program's name, and what they ask for.
const ROWS: &[(&[&str], Asked<'static>)] = &[
    (
        &["vcluster", "master", "--config", "a.toml"],
        Asked::Master("a.toml"),
    ),
    (
        &["vcluster", "master", "--config=a.toml"],
        Asked::Master("a.toml"),
    ),
    (&["vcluster", "key", "/etc/key"], Asked::Key("/etc/key")),
    (
        &["vcluster", "master"],
        Asked::Refused(ErrorKind::MissingRequiredArgument),
    ),
    (
        &["vcluster", "master", "a.toml"],
        Asked::Refused(ErrorKind::UnknownArgument),
    ),
    (
        &["vcluster", "key"],
        Asked::Refused(ErrorKind::MissingRequiredArgument),
    ),
    (
        &["vcluster", "key", "a", "b"],
        Asked::Refused(ErrorKind::UnknownArgument),
    ),
    (
        &["vcluster", "node", "--config", "a.toml", "--row", "15"],
        Asked::Node("a.toml", 15),
    ),
    (
        &["vcluster", "node", "--config", "a.toml"],
        Asked::Refused(ErrorKind::MissingRequiredArgument),
    ),
    (
        &["vcluster", "node", "--config", "a.toml", "--row", "0"],
        Asked::Refused(ErrorKind::ValueValidation),
    ),
    (
        &["vcluster", "node", "--config", "a.toml", "--row", "16"],
        Asked::Refused(ErrorKind::ValueValidation),
    ),
    (
        &["vcluster", "client"],
        Asked::Refused(ErrorKind::InvalidSubcommand),
    ),
    (
        &["vcluster", "--version"],
        Asked::Refused(ErrorKind::DisplayVersion),
    ),
    (
        &["vcluster", "--help"],
        Asked::Refused(ErrorKind::DisplayHelp),
    ),
    (
        &["vcluster"],
        Asked::Refused(ErrorKind::DisplayHelpOnMissingArgumentOrSubcommand),
    ),
];

// Returns what words ask for.
fn job_of<'a>(alloc: Global, words: &'a [&'a str]) -> Asked<'a> {
    match line(alloc, words) {
        Ok(Job::Node(job)) => Asked::Node(job.config, job.row),
        Ok(Job::Master(job)) => Asked::Master(job.config),
        Ok(Job::Key(job)) => Asked::Key(job.file),
        Err(LineFault::Words(error)) => Asked::Refused(error.kind()),
        Err(_) => Asked::Other,
    }
}

#[test]
fn words_ask_for_a_job(rt: HostRuntime) {
    for (words, wanted) in ROWS {
        assert_eq!(rt; job_of(rt.alloc(), words), *wanted, "{words:?}");
    }
}
