// Running a job.
//
// A job gets its input, output and standard error as parameters, so tests run it in memory. What
// clauses say is about refused texts, what is printed on the output, and the exit status; no clause
// says what is printed on standard error, or sent over a network. An error is one line on standard
// error and one exit status, both of `JobError`, and often a second line with its cause; nothing
// below this crate prints or exits. Output that cannot be written is an error of `play` and `sub`;
// `serve` goes on without it, but fails at the end if it cannot write `bye`.

ghost use Rattle.std.specs.Prelude.{◌≡◌, ◌≢◌, IfErr, OnOk};
ghost use Rattle.jobs.specs.Done.{IsJobDone};
ghost use Rattle.jobs.specs.Failures.{EndsByError, FailsAt};
ghost use Rattle.jobs.specs.Errors.{exit_status};

use crate::causes::print_cause;
use crate::job_error::JobError;
use crate::{scripts, serving_table, tcp_clients};
use command_line::Job;
use std::io::{BufRead, Write};
use std::net::{Net, TcpListener, TcpStream};
use std::rt::Files;
use std::sync::Wait;
use std::thread::Threads;
use std::time::Clock;

/// Runs a job over one reader and two writers, and returns the exit status. Prints an error in one
/// line, and in a second line its cause, if more is known of it. No clause says what is printed
/// there.
pub fn perform<R, I, O, E>(
    rt: &R,
    job: &Job<'_>,
    input: &mut I,
    output: &mut O,
    faults: &mut E,
) -> u8
where
    R: Files + Threads + Wait + Clock + Sync + AllocGlobal,
    R: Net<Listener = TcpListener, Stream = TcpStream>,
    I: BufRead + Send + Drop,
    O: Write + Drop,
    E: Write + Drop,
    ensures done { result ≡ 0
        → IsJobDone O.contents job.now (I.remaining input.old) output.old output.new }
    ensures failed { result ≢ 0 → EndsByError job.now result }
{
    match do_job(rt, job, input, output, faults) {
        Ok(()) => 0,
        Err(error) => fail(rt, job, &error, faults),
    }
}

// Prints why a job failed and, if more is known, the cause, and returns the exit status.
fn fail<R: Files + AllocGlobal, E: Write>(
    rt: &R,
    job: &Job<'_>,
    error: &JobError,
    faults: &mut E,
) -> u8
    ensures { result ≡ exit_status error.now }
{
    let status = print_fault(faults, error);
    print_cause(rt, job, error, faults);
    status
}

// Runs a job over one reader and two writers.
fn do_job<R, I, O, E>(
    rt: &R,
    job: &Job<'_>,
    input: &mut I,
    output: &mut O,
    faults: &mut E,
) -> Result<(), JobError>
where
    R: Files + Threads + Wait + Clock + Sync + AllocGlobal,
    R: Net<Listener = TcpListener, Stream = TcpStream>,
    I: BufRead + Send + Drop,
    O: Write + Drop,
    E: Write + Drop,
    ensures done { OnOk result
        (IsJobDone O.contents job.now (I.remaining input.old) output.old output.new) }
    ensures failed { IfErr result (FailsAt job.now) }
{
    match job {
        Job::Serve(job) => serving_table::run(rt, job, input, output, faults),
        Job::Publish(job) => tcp_clients::publish(rt, job),
        Job::Subscribe(job) => tcp_clients::subscribe(rt, job, output),
        Job::Play(job) => scripts::run(rt, job, input, output),
    }
}

/// Prints an error in one line, and returns its exit status. No clause says what is printed.
pub fn print_fault<E: Write>(faults: &mut E, error: &JobError) -> u8
    ensures { result ≡ exit_status error.now }
{
    // There is nowhere else to print it.
    let _ = writeln!(faults, "vbroker: {error}");
    error.status()
}
