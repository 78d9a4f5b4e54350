// A master with nodes over loopback, in threads.

use crate::node_end::{KEY, NodeEnd, connect, told, welcomed};
use cluster::desk::{Desk, Keeper, NotKept};
use cluster::master::{Hall, ServeFault, serve};
use links::seal::Membership;
use std::alloc::Global;
use std::io::{BufReader, ErrorKind, Read, Write};
use std::net::{Net, SocketAddr, TcpListener, TcpStream};
use std::random::RandomSource;
use std::sync::{Mutex, Wait};
use std::thread::Threads;
use std::time::{Clock, Duration, Instant};
use std::{io, thread};

// Keeps bytes in memory.
#[derive(Drop)]
struct Paper {
    alloc: Global,
    bytes: Vec<u8>,
}

impl Keeper for Paper {
    ghost use Rattle.std.specs.Prelude.{[], ◌∷◌};

    ghost keeps = { λ old bytes kept new. Unit {0} };

    ghost stands = { λ paper. paper.bytes.items ∷ [] };

    #[tactic(auto, using(cluster::proofs::of_desk::Among::nothing_written))]
    fn keep(&mut self, bytes: &[u8]) -> Result<(), NotKept> {
        match Vec::from_slice(self.alloc, bytes) {
            Ok(bytes) => {
                self.bytes = bytes;
                Ok(())
            }
            Err(_) => Err(NotKept),
        }
    }
}

// What an administrator writes, which the master reads, until `is_over`.
#[derive(Drop)]
struct Lines {
    text: Vec<u8>,
    is_over: bool,
}

// The master's end of it.
#[derive(Drop)]
struct LineReader<'a, R> {
    rt: &'a R,
    lines: &'a Mutex<Lines>,
}

impl<'a, R: Wait + Clock> Read for LineReader<'a, R> {
    fn read(&mut self, buf: &mut [u8]) -> io::Result<usize> {
        for _ in 0..60_000 {
            let mut lines = self.lines.lock(self.rt);
            let count = lines.text.len().min(buf.len());
            if count > 0 || lines.is_over {
                buf[..count].copy_from_slice(&lines.text[..count]);
                lines.text.clear();
                return Ok(count);
            }
            drop(lines);
            thread::sleep(self.rt, Duration::from_millis(1));
        }
        Err(io::Error::from(ErrorKind::TimedOut))
    }
}

// What the master answers.
#[derive(Drop)]
struct AnswerWriter<'a, R> {
    rt: &'a R,
    answers: &'a Mutex<Vec<u8>>,
}

impl<'a, R: Wait> Write for AnswerWriter<'a, R> {
    fn write(&mut self, buf: &[u8]) -> io::Result<usize> {
        self.answers.lock(self.rt).extend_from_slice(buf)?;
        Ok(buf.len())
    }

    fn flush(&mut self) -> io::Result<()> {
        Ok(())
    }
}

// What an administrator and the master's thread share.
#[derive(Drop)]
struct Table {
    lines: Mutex<Lines>,
    answers: Mutex<Vec<u8>>,
}

// Runs a master, and ends when the lines are over.
fn run<R>(
    rt: &R,
    hall: &Hall<'_, Paper>,
    listener: &TcpListener,
    table: &Table,
) -> Result<(), ServeFault>
where
    R: AllocGlobal + Threads + Wait + Clock + RandomSource + Eprint + Sync,
{
    let reader = LineReader {
        rt,
        lines: &table.lines,
    };
    let mut output = AnswerWriter {
        rt,
        answers: &table.answers,
    };
    match BufReader::new(rt.alloc(), reader) {
        Ok(mut input) => serve(rt, hall, listener, None, &mut input, &mut output),
        Err(_) => Err(ServeFault::Input),
    }
}

// Gives an order.
fn order<R: Wait>(rt: &R, table: &Table, line: &[u8]) -> Option<()> {
    table.lines.lock(rt).text.extend_from_slice(line).ok()
}

// Waits until the master has answered this, and forgets it.
fn is_answered<R: Wait + Clock>(rt: &R, table: &Table, answer: &[u8]) -> bool {
    for _ in 0..3000 {
        let mut answers = table.answers.lock(rt);
        if answers.as_slice() == answer {
            answers.clear();
            return true;
        }
        drop(answers);
        thread::sleep(rt, Duration::from_millis(1));
    }
    false
}

// What is tried while a master serves; none if something else came than should.
fn visit<R>(rt: &R, address: SocketAddr, table: &Table) -> Option<()>
where
    R: AllocGlobal + Wait + Clock + RandomSource + Net<Stream = TcpStream>,
{
    let newcomer = Membership::Newcomer;
    let mut first = NodeEnd::meet(rt, connect(rt, address)?, 0, newcomer)?;
    (welcomed(first.next()) == Some(1)).then_some(())?;
    let mut second = NodeEnd::meet(rt, connect(rt, address)?, 0, newcomer)?;
    (welcomed(second.next()) == Some(2)).then_some(())?;
    stranger(rt, address)?;
    assigned(rt, table, &mut second)?;
    replaced(rt, address, first)
}

// A stranger's connection is ended.
fn stranger<R: Net<Stream = TcpStream>>(rt: &R, address: SocketAddr) -> Option<()> {
    let mut stream = connect(rt, address)?;
    stream.write_all(b"GET / HTTP/1.1\r\n\r\n").ok()?;
    let mut buffer = [0; 64];
    for _ in 0..64 {
        match stream.read(&mut buffer) {
            Ok(0) => return Some(()),
            Ok(_) => {}
            Err(error) => return (error.kind() == ErrorKind::ConnectionReset).then_some(()),
        }
    }
    None
}

// A ballot is told to its primary until it is activated.
fn assigned<R>(rt: &R, table: &Table, node: &mut NodeEnd<'_, R>) -> Option<()>
where
    R: AllocGlobal + Wait + Clock + RandomSource,
{
    order(rt, table, b"assign 1,3 1\n")?;
    is_answered(rt, table, b"refused 20\n").then_some(())?;
    order(rt, table, b"assign 1,2 2\n")?;
    is_answered(rt, table, b"ballot 2\n").then_some(())?;
    for _ in 0..3 {
        (told(node.next()) == Some(('N', 2))).then_some(())?;
        node.report(1)?;
    }
    node.activate(2, 2)?;
    node.activate(2, 1)?;
    (answer(node) == Some(('A', 2))).then_some(())?;
    (answer(node) == Some(('S', 1))).then_some(())
}

// Returns the next message that is no NewBallot.
fn answer<R: AllocGlobal + Wait + Clock + RandomSource>(
    node: &mut NodeEnd<'_, R>,
) -> Option<(char, u64)> {
    for _ in 0..50 {
        match told(node.next()) {
            Some(('N', _)) => {}
            answer => return answer,
        }
    }
    None
}

// A node that comes again by its number takes the place of its older connection, and one of a
// number that was not given is refused. A connection that is silent is cut.
fn replaced<R>(rt: &R, address: SocketAddr, mut first: NodeEnd<'_, R>) -> Option<()>
where
    R: AllocGlobal + Wait + Clock + RandomSource + Net<Stream = TcpStream>,
{
    let member = Membership::Node(first.cluster);
    let mut again = NodeEnd::meet(rt, connect(rt, address)?, 1, member)?;
    first.ends(100).then_some(())?;
    let mut unknown = NodeEnd::meet(rt, connect(rt, address)?, 9, member)?;
    unknown.ends(100).then_some(())?;
    // (it gets a sign of life each fifth of a second, and says nothing for three seconds)
    again.ends(100).then_some(())
}

// Serves while it is visited. Returns whether all came as it should.
fn serve_visited<R>(rt: &R, hall: &Hall<'_, Paper>, listener: &TcpListener, table: &Table) -> bool
where
    R: AllocGlobal + Threads + Wait + Clock + RandomSource + Eprint + Sync,
    R: Net<Listener = TcpListener, Stream = TcpStream>,
{
    thread::scope(thread::scope_env(), rt, move |scope| {
        let is_started = scope
            .spawn(move || run(rt, hall, listener, table).is_ok())
            .is_ok();
        let is_so = match listener.local_addr() {
            Ok(address) if is_started => visit(rt, address, table).is_some(),
            _ => false,
        };
        table.lines.lock(rt).is_over = true;
        is_so
    })
}

#[test]
fn a_master_serves_two_nodes(rt: HostRuntime) {
    let alloc = rt.alloc();
    let paper = Paper {
        alloc,
        bytes: Vec::new(alloc),
    };
    let desk = Desk::new(alloc, paper, [7; 16]).ok();
    let listener = TcpListener::bind(&rt, "127.0.0.1:0").ok();
    let now = Instant::now(&rt).ok();
    let table = Table {
        lines: Mutex::new(Lines {
            text: Vec::new(alloc),
            is_over: false,
        }),
        answers: Mutex::new(Vec::new(alloc)),
    };
    let is_so = match (desk, listener, now) {
        (Some(desk), Some(listener), Some(now)) => {
            let hall = Hall::new(alloc, KEY, desk, now);
            listener.set_nonblocking(true).is_ok() && serve_visited(&rt, &hall, &listener, &table)
        }
        _ => false,
    };
    assert!(rt; is_so);
}
