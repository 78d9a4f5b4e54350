// The job of a command line, from its matches.

ghost use Rattle.std.specs.Prelude.{◌≡◌, ℕ, [], Option, Some, None, IfOk, IfErr, IsErrOf, codes};
ghost use Rattle.packet_base.specs.declared.qos.QoS.{QoS};
ghost use Rattle.command_line.specs.declared.job.Job.{Job};
ghost use Rattle.command_line.specs.declared.job.Serve.{Serve};
ghost use Rattle.command_line.specs.declared.job.Publish.{Publish};
ghost use Rattle.command_line.specs.declared.job.Subscribe.{Subscribe};
ghost use Rattle.command_line.specs.declared.job.Play.{Play};
ghost use Rattle.command_line.specs.declared.job.Escape.{Escape};
ghost use Rattle.packet_base.specs.QoS.{qos_number};
ghost use Rattle.clap.specs.Walk.{texts};
ghost use Rattle.clap.specs.Words.{all_of, first_of, found_of, rows_of, subcommand_rows_of};
ghost use Rattle.command_line.specs.Jobs.{HasNumber, IsEscape, IsJob, IsPlay, IsPublish, IsRefusal, IsServe, IsSubscribe};

use crate::fault::LineFault;
use crate::job::{Escape, Job, Play, Publish, Serve, Subscribe};
use clap::ArgMatches;
use packet_base::QoS;
use std::alloc::Global;

/// Returns the job of the subcommand that was found, with the values of its arguments.
pub(crate) fn job_of<'a>(alloc: Global, matches: &ArgMatches<'a>) -> Result<Job<'a>, LineFault>
    ensures job { IfOk result (IsJob (subcommand_rows_of matches.now)) }
    ensures refused { IfErr result (IsRefusal []) }
    ensures missing { IsErrOf result LineFault.Incomplete
        → (job : Job) → IsJob (subcommand_rows_of matches.now) job → ⊥ }
{
    if let Some(found) = matches.subcommand_matches("serve") {
        return Ok(Job::Serve(serve(found)?));
    }
    if let Some(found) = matches.subcommand_matches("pub") {
        return Ok(Job::Publish(publish(alloc, found)?));
    }
    if let Some(found) = matches.subcommand_matches("sub") {
        return Ok(Job::Subscribe(subscribe(alloc, found)?));
    }
    if let Some(found) = matches.subcommand_matches("play") {
        return Ok(Job::Play(play(found)?));
    }
    Err(LineFault::Incomplete)
}

fn serve<'a>(found: &ArgMatches<'a>) -> Result<Serve<'a>, LineFault>
    ensures job { IfOk result (IsServe (rows_of (found_of found.now))) }
    ensures refused { IfErr result (IsRefusal []) }
    ensures missing { IsErrOf result LineFault.Incomplete
        → (job : Serve) → IsServe (rows_of (found_of found.now)) job → ⊥ }
{
    let config = text(found, "config")?;
    let log = text(found, "log")?;
    Ok(Serve {
        config,
        log,
        admin: found.get_str("admin"),
    })
}

fn publish<'a>(alloc: Global, found: &ArgMatches<'a>) -> Result<Publish<'a>, LineFault>
    ensures job { IfOk result (IsPublish (rows_of (found_of found.now))) }
    ensures refused { IfErr result (IsRefusal []) }
    ensures missing { IsErrOf result LineFault.Incomplete
        → (job : Publish) → IsPublish (rows_of (found_of found.now)) job → ⊥ }
{
    let id = text(found, "id")?;
    let topic = text(found, "topic")?;
    let qos = qos(found)?;
    let message = text(found, "message")?;
    let tries = number(found, "tries")?;
    let addresses = addresses(alloc, found)?;
    Ok(Publish {
        id,
        topic,
        qos,
        message,
        retain: found.get_flag("retain"),
        tries,
        addresses,
    })
}

fn subscribe<'a>(alloc: Global, found: &ArgMatches<'a>) -> Result<Subscribe<'a>, LineFault>
    ensures job { IfOk result (IsSubscribe (rows_of (found_of found.now))) }
    ensures refused { IfErr result (IsRefusal []) }
    ensures missing { IsErrOf result LineFault.Incomplete
        → (job : Subscribe) → IsSubscribe (rows_of (found_of found.now)) job → ⊥ }
{
    let id = text(found, "id")?;
    let filter = text(found, "filter")?;
    let qos = qos(found)?;
    let count = number(found, "count")?;
    let tries = number(found, "tries")?;
    let addresses = addresses(alloc, found)?;
    Ok(Subscribe {
        id,
        filter,
        qos,
        count,
        tries,
        addresses,
    })
}

fn play<'a>(found: &ArgMatches<'a>) -> Result<Play<'a>, LineFault>
    ensures job { IfOk result (IsPlay (rows_of (found_of found.now))) }
    ensures refused { IfErr result (IsRefusal []) }
    ensures missing { IsErrOf result LineFault.Incomplete
        → (job : Play) → IsPlay (rows_of (found_of found.now)) job → ⊥ }
{
    let escape = escape(found)?;
    Ok(Play {
        script: found.get_str("file"),
        escape,
    })
}

// Returns the recovery that the words ask for: both of its arguments are present, or neither.
fn escape<'a>(found: &ArgMatches<'a>) -> Result<Option<Escape<'a>>, LineFault>
    ensures job { IfOk result (IsEscape (rows_of (found_of found.now))) }
    ensures refused { IfErr result (IsRefusal []) }
    ensures missing { IsErrOf result LineFault.Incomplete
        → (job : Option Escape) → IsEscape (rows_of (found_of found.now)) job → ⊥ }
{
    match (found.get_str("escape"), found.get_str("client")) {
        (None, None) => Ok(None),
        (Some(members), Some(client)) => Ok(Some(Escape { members, client })),
        _ => Err(LineFault::Incomplete),
    }
}

// Returns the first value of an argument.
fn text<'a>(found: &ArgMatches<'a>, id: &str) -> Result<&'a str, LineFault>
    ensures value { IfOk result (λ text.
        first_of id.now (rows_of (found_of found.now)) ≡ Some text.now) }
    ensures refused { IfErr result (IsRefusal []) }
    ensures missing { IsErrOf result LineFault.Incomplete
        → first_of id.now (rows_of (found_of found.now)) ≡ None }
{
    match found.get_str(id) {
        Some(text) => Ok(text),
        None => Err(LineFault::Incomplete),
    }
}

// Returns the number of an argument.
fn number(found: &ArgMatches<'_>, id: &str) -> Result<u32, LineFault>
    ensures value { IfOk result (HasNumber id.now (rows_of (found_of found.now))) }
    ensures refused { IfErr result (IsRefusal []) }
    ensures missing { IsErrOf result LineFault.Incomplete
        → (number : ℕ) → HasNumber id.now (rows_of (found_of found.now)) number → ⊥ }
{
    match found.get_one::<u32>(id) {
        Some(number) => Ok(number),
        None => Err(LineFault::Incomplete),
    }
}

fn qos(found: &ArgMatches<'_>) -> Result<QoS, LineFault>
    ensures value { IfOk result (λ qos.
        HasNumber (codes "qos") (rows_of (found_of found.now)) (qos_number qos)) }
    ensures refused { IfErr result (IsRefusal []) }
    ensures missing { IsErrOf result LineFault.Incomplete → (qos : QoS)
        → HasNumber (codes "qos") (rows_of (found_of found.now)) (qos_number qos) → ⊥ }
{
    match number(found, "qos")? {
        0 => Ok(QoS::AtMostOnce),
        1 => Ok(QoS::AtLeastOnce),
        2 => Ok(QoS::ExactlyOnce),
        _ => Err(LineFault::Incomplete),
    }
}

fn addresses<'a>(alloc: Global, found: &ArgMatches<'a>) -> Result<Vec<&'a str>, LineFault>
    ensures value { IfOk result (λ all.
        all_of (codes "address") (rows_of (found_of found.now)) ≡ Some (texts all.items)) }
    ensures refused { IfErr result (IsRefusal []) }
    ensures missing { IsErrOf result LineFault.Incomplete
        → all_of (codes "address") (rows_of (found_of found.now)) ≡ None }
{
    match found.get_strs("address") {
        Some(texts) => Ok(Vec::from_slice(alloc, texts)?),
        None => Err(LineFault::Incomplete),
    }
}
