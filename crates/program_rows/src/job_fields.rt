// The fields that state a job of a command line.

ghost use Rattle.std.specs.Prelude.{◌≡◌, ◌++◌, ◌∷◌, [], IfOk, OnOk, codes};
ghost use Rattle.std.specs.List.{flat_map};
ghost use Rattle.rows.specs.Fields.{texts};
ghost use Rattle.packet_base.specs.QoS.{qos_number};
ghost use Rattle.program_rows.specs.AnswerFields.{flag_fields, number_fields};
ghost use Rattle.program_rows.specs.JobFields.{address_fields, asked_fields, content_fields};
ghost use Rattle.program_rows.specs.JobFields.{escape_fields, file_fields, job_fields};
ghost use Rattle.program_rows.specs.JobFields.{message_fields, play_fields};
ghost use Rattle.program_rows.specs.JobFields.{publish_fields, serve_fields, subscribe_fields};
ghost use Rattle.program_rows.specs.JobFields.{admin_fields, told_fields, tries_fields};

use crate::answers::{put_flag, put_number, put_text};
use command_line::{Escape, Job, Play, Publish, Serve, Subscribe};
use packet_base::QoS;
use rows::Fields;
use std::alloc::{AllocError, Global};

/// Returns the fields that state a job.
pub(crate) fn job_fields(alloc: Global, job: &Job<'_>) -> Result<Fields, AllocError>
    ensures { IfOk result (λ fields. fields ≡ job_fields job.now) }
{
    let mut out = Fields::new(alloc);
    put_job(job, &mut out)?;
    Ok(out)
}

fn put_job(job: &Job<'_>, out: &mut Fields) -> Result<(), AllocError>
    ensures { OnOk result (out.new ≡ out.old ++ job_fields job.now) }
{
    match job {
        Job::Serve(job) => put_serve(job, out),
        Job::Publish(job) => put_publish(job, out),
        Job::Subscribe(job) => put_subscribe(job, out),
        Job::Play(job) => put_play(job, out),
    }
}

fn put_serve(job: &Serve<'_>, out: &mut Fields) -> Result<(), AllocError>
    ensures { OnOk result (out.new ≡ out.old ++ serve_fields job.now) }
{
    out.text("serve")?;
    put_text("config", job.config, out)?;
    put_told(job, out)
}

fn put_told(job: &Serve<'_>, out: &mut Fields) -> Result<(), AllocError>
    ensures { OnOk result (out.new ≡ out.old ++ told_fields job.now) }
{
    put_text("log", job.log, out)?;
    put_admin(job.admin, out)
}

fn put_admin(admin: Option<&str>, out: &mut Fields) -> Result<(), AllocError>
    ensures { OnOk result (out.new ≡ out.old ++ admin_fields admin.entry) }
{
    match admin {
        Some(admin) => put_text("admin", admin, out),
        None => Ok(()),
    }
}

fn put_publish(job: &Publish<'_>, out: &mut Fields) -> Result<(), AllocError>
    ensures { OnOk result (out.new ≡ out.old ++ publish_fields job.now) }
{
    out.text("pub")?;
    put_message(job, out)?;
    put_tries(job.tries, job.addresses.as_slice(), out)
}

fn put_message(job: &Publish<'_>, out: &mut Fields) -> Result<(), AllocError>
    ensures { OnOk result (out.new ≡ out.old ++ message_fields job.now) }
{
    put_text("id", job.id, out)?;
    put_text("topic", job.topic, out)?;
    put_content(job, out)
}

fn put_content(job: &Publish<'_>, out: &mut Fields) -> Result<(), AllocError>
    ensures { OnOk result (out.new ≡ out.old ++ content_fields job.now) }
{
    put_qos(job.qos, out)?;
    put_payload(job.message, job.retain, out)
}

fn put_payload(message: &str, retain: bool, out: &mut Fields) -> Result<(), AllocError>
    ensures { OnOk result (out.new
        ≡ out.old ++ codes "message" ∷ message.now ∷ flag_fields (codes "retain") retain) }
{
    put_text("message", message, out)?;
    put_flag("retain", retain, out)
}

fn put_qos(qos: QoS, out: &mut Fields) -> Result<(), AllocError>
    ensures { OnOk result (out.new ≡ out.old ++ number_fields (codes "qos") (qos_number qos)) }
{
    put_number("qos", u64::from(qos.number()), out)
}

fn put_subscribe(job: &Subscribe<'_>, out: &mut Fields) -> Result<(), AllocError>
    ensures { OnOk result (out.new ≡ out.old ++ subscribe_fields job.now) }
{
    out.text("sub")?;
    put_asked(job, out)?;
    put_tries(job.tries, job.addresses.as_slice(), out)
}

fn put_asked(job: &Subscribe<'_>, out: &mut Fields) -> Result<(), AllocError>
    ensures { OnOk result (out.new ≡ out.old ++ asked_fields job.now) }
{
    put_text("id", job.id, out)?;
    put_text("filter", job.filter, out)?;
    put_amount(job.qos, job.count, out)
}

fn put_amount(qos: QoS, count: u32, out: &mut Fields) -> Result<(), AllocError>
    ensures { OnOk result (out.new ≡ out.old ++ number_fields (codes "qos") (qos_number qos)
        ++ number_fields (codes "count") count) }
{
    put_qos(qos, out)?;
    put_number("count", u64::from(count), out)
}

fn put_tries(tries: u32, addresses: &[&str], out: &mut Fields) -> Result<(), AllocError>
    ensures { OnOk result (out.new ≡ out.old ++ tries_fields tries (texts addresses.now)) }
{
    put_number("tries", u64::from(tries), out)?;
    put_addresses(addresses, out)
}

fn put_addresses(addresses: &[&str], out: &mut Fields) -> Result<(), AllocError>
    ensures { OnOk result (out.new ≡ out.old ++ flat_map address_fields (texts addresses.now)) }
{
    if let [address, rest @ ..] = addresses {
        put_text("address", address, out)?;
        put_addresses(rest, out)?;
    }
    Ok(())
}

fn put_play(job: &Play<'_>, out: &mut Fields) -> Result<(), AllocError>
    ensures { OnOk result (out.new ≡ out.old ++ play_fields job.now) }
{
    out.text("play")?;
    put_file(job.script, out)?;
    put_escape(&job.escape, out)
}

fn put_file(file: Option<&str>, out: &mut Fields) -> Result<(), AllocError>
    ensures { OnOk result (out.new ≡ out.old ++ file_fields file.entry) }
{
    match file {
        Some(file) => put_text("file", file, out),
        None => Ok(()),
    }
}

fn put_escape(way: &Option<Escape<'_>>, out: &mut Fields) -> Result<(), AllocError>
    ensures { OnOk result (out.new ≡ out.old ++ escape_fields way.now) }
{
    match way {
        Some(way) => {
            put_text("escape", way.members, out)?;
            put_text("client", way.client, out)
        }
        None => Ok(()),
    }
}
