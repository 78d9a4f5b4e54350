//! The nodes and the master of a cluster as a program, and the maker of its key.
#![tactic(auto)]

mod faults;

ghost use Rattle.std.specs.Prelude.{◌≡◌, ◌≢◌};

use cluster::master::{MasterError, Opened, open_desk, run_key, run_master};
use cluster::table::{Job, RunNode, line};
use cluster_node::{NodeError, OpenedNode, run_node};
use faults::{print_fault, print_node_fault, print_table_fault, refuse};
use link_threads::{Dials, NetDials};
use std::io::ErrorKind;
use std::net::{Net, TcpListener, TcpStream};
use std::process::ExitCode;
use std::random::RandomSource;
use std::rt::{Env, Files};
use std::sync::Wait;
use std::thread::Threads;
use std::time::Clock;
use std::{env, io};

// Runs the job of the command line over the standard streams, and ends with its exit status. That
// threads may use the file of the state, and open connections, is proved of this runtime alone, so
// the desk is opened here.
fn main(rt: HostRuntime) -> ExitCode {
    let words = match words(&rt) {
        Ok(words) => words,
        Err(error) => return ExitCode::from(print_fault(&rt, &error)),
    };
    ExitCode::from(match line(rt.alloc(), words.as_slice()) {
        Ok(Job::Node(job)) => status_of_node(&rt, job.config, run(&rt, &NetDials::new(&rt), &job)),
        Ok(Job::Key(job)) => status_of(&rt, None, run_key(&rt, job.file)),
        Ok(Job::Master(job)) => match Opened::new(&rt, job.config) {
            Ok(master) => {
                let done = match open_desk(&rt, master.state()) {
                    Ok(desk) => {
                        run_master(&rt, &master, desk, &mut rt.reader(), &mut io::writer(&rt))
                    }
                    Err(error) => Err(error),
                };
                master.close(&rt);
                status_of(&rt, Some(job.config), done)
            }
            Err(error) => status_of(&rt, Some(job.config), Err(error)),
        },
        Err(fault) => refuse(&rt, &fault),
    })
}

// Runs a node.
fn run<R, D>(rt: &R, dials: &D, job: &RunNode<'_>) -> Result<(), NodeError>
where
    R: AllocGlobal + Files + Threads + Wait + Clock + RandomSource + Eprint + Sync,
    R: Net<Listener = TcpListener, Stream = TcpStream>,
    D: Dials + Sync,
{
    run_node(rt, dials, OpenedNode::new(rt, job.config, job.row)?)
}

// Returns the exit status of a node. Prints why it ended.
fn status_of_node<R>(rt: &R, config: &str, done: Result<(), NodeError>) -> u8
where
    R: Files + Eprint + AllocGlobal,
{
    match done {
        Ok(()) => 0,
        Err(NodeError::Opening(error)) => status_of(rt, Some(config), Err(error)),
        Err(error) => print_node_fault(rt, &error),
    }
}

// Returns the exit status of a job. Prints why it failed and, after a fault of its table, what is
// wrong there.
fn status_of<R>(rt: &R, config: Option<&str>, done: Result<(), MasterError>) -> u8
where
    R: Files + Eprint + AllocGlobal,
{
    let Err(error) = done else {
        return 0;
    };
    if let (MasterError::Table(fault), Some(config)) = (&error, config) {
        let status = print_fault(rt, &error);
        print_table_fault(rt, config, fault);
        return status;
    }
    print_fault(rt, &error)
}

// Returns the words of the command line.
fn words<R: Env + AllocGlobal>(rt: &R) -> Result<Vec<String>, MasterError> {
    match env::args(rt) {
        Ok(words) => Ok(words.collect(rt.alloc())?),
        Err(error) => Err(error_of(error.kind())),
    }
}

// Returns why there are no words: memory ran out, or one of them is not UTF-8.
fn error_of(kind: ErrorKind) -> MasterError
    ensures memory { kind ≡ ErrorKind.OutOfMemory → result ≡ MasterError.Memory }
    ensures words { kind ≢ ErrorKind.OutOfMemory → result ≡ MasterError.Words }
{
    match kind {
        ErrorKind::OutOfMemory => MasterError::Memory,
        _ => MasterError::Words,
    }
}
