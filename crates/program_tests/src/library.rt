// The program `vbroker` as a library.

use jobs::{Job, line, perform, table};
use std::alloc::Global;
use std::net::{Net, TcpListener, TcpStream};
use std::rt::Files;
use std::sync::Wait;
use std::thread::Threads;
use std::time::Clock;

// A table of one node.
const TABLE: &str = "members = [1]\nprimary = 1\n[[node]]\nid = 1\nlisten = \"127.0.0.1:1883\"\n";

// A script in which a client connects to one node.
const SCRIPT: &str = "world 1 1 1 a\nopen a 1\nup 1 all\ndown 1 all\n";

// Its transcript.
const TRANSCRIPT: &str = "0 ok msgs=0 agreed=0\n\
    1 ok msgs=0 agreed=1\n\
    2 ok msgs=0 agreed=1\n\
    end agreed=1 active=1\n";

// Returns true if the table is read; none if it is refused.
fn has_one_node(alloc: Global) -> Option<bool> {
    let table = table(alloc, TABLE).ok()?;
    let is_one = table.config.members.as_slice() == [1].as_slice()
        && table
            .nodes
            .iter()
            .all(|node| node.listen.as_str() == "127.0.0.1:1883");
    drop(table);
    Some(is_one)
}

#[test]
fn a_table_is_read(rt: HostRuntime) {
    assert_eq!(rt; has_one_node(rt.alloc()), Some(true));
}

// Returns true if the script is played, and nothing else is written.
fn plays<R>(rt: &R, alloc: Global, job: &Job<'_>) -> bool
where
    R: Files + Threads + Wait + Clock + Sync + AllocGlobal,
    R: Net<Listener = TcpListener, Stream = TcpStream>,
{
    let mut input = SCRIPT.as_bytes();
    let (mut output, mut faults) = (Vec::new(alloc), Vec::new(alloc));
    let status = perform(rt, job, &mut input, &mut output, &mut faults);
    status == 0 && output.as_slice() == TRANSCRIPT.as_bytes() && faults.is_empty()
}

// Returns true if the words ask for a script of standard input, which is played; none if they are
// refused.
fn plays_words<R>(rt: &R, alloc: Global) -> Option<bool>
where
    R: Files + Threads + Wait + Clock + Sync + AllocGlobal,
    R: Net<Listener = TcpListener, Stream = TcpStream>,
{
    match line(alloc, &["vbroker", "play"]) {
        Ok(job) => {
            let is_play = matches!(&job, Job::Play(play) if play.script.is_none());
            let is_played = plays(rt, alloc, &job);
            drop(job);
            Some(is_play && is_played)
        }
        Err(fault) => {
            drop(fault);
            None
        }
    }
}

#[test]
fn words_are_a_job_which_is_done(rt: HostRuntime) {
    assert_eq!(rt; plays_words(&rt, rt.alloc()), Some(true));
}
