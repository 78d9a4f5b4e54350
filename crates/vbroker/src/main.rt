//! The broker as a program: serves MQTT clients over TCP, publishes or prints as a client itself,
//! and plays scripts of nodes and clients in memory.
#![tactic(auto)]

mod standard_error;

ghost use Rattle.std.specs.Prelude.{◌≡◌, ◌≢◌};

use jobs::{JobError, line, perform, print_fault, refuse};
use standard_error::StandardError;
use std::io::ErrorKind;
use std::net::{Net, TcpListener, TcpStream};
use std::process::ExitCode;
use std::rt::{Env, Files};
use std::sync::Wait;
use std::thread::Threads;
use std::time::Clock;
use std::{env, io};

// Runs the program, and ends with its exit status.
fn main(rt: HostRuntime) -> ExitCode {
    ExitCode::from(run(&rt))
}

// Runs the job of the command line over the standard streams, and returns the exit status.
fn run<R>(rt: &R) -> u8
where
    R: Env + Files + Input + Print + Eprint + Threads + Wait + Clock + Sync + AllocGlobal,
    R: Net<Listener = TcpListener, Stream = TcpStream>,
    R::Reader: Send,
{
    let mut faults = StandardError::new(rt);
    let words = match words(rt) {
        Ok(words) => words,
        Err(error) => return print_fault(&mut faults, &error),
    };
    match line(rt.alloc(), words.as_slice()) {
        Ok(job) => {
            let mut input = rt.reader();
            let mut output = io::writer(rt);
            perform(rt, &job, &mut input, &mut output, &mut faults)
        }
        Err(fault) => refuse(&fault, &mut io::writer(rt), &mut faults),
    }
}

// Returns the words of the command line.
fn words<R: Env + AllocGlobal>(rt: &R) -> Result<Vec<String>, JobError> {
    match env::args(rt) {
        Ok(words) => Ok(words.collect(rt.alloc())?),
        Err(error) => Err(error_of(error.kind())),
    }
}

// Returns why there are no words: memory ran out, or one of them is not UTF-8.
fn error_of(kind: ErrorKind) -> JobError
    ensures memory { kind ≡ ErrorKind.OutOfMemory → result ≡ JobError.Memory }
    ensures words { kind ≢ ErrorKind.OutOfMemory → result ≡ JobError.Words }
{
    match kind {
        ErrorKind::OutOfMemory => JobError::Memory,
        _ => JobError::Words,
    }
}
