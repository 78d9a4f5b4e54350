// Serving the nodes of a table over TCP.

ghost use Rattle.std.specs.Prelude.{◌≡◌, IfErr, OnOk, option_map};
ghost use Rattle.notices.specs.LogWords.{log_filter};
ghost use Rattle.jobs.specs.Done.{SaysBye};
ghost use Rattle.jobs.specs.Failures.{FailsToServe, IsTable};

use crate::clerk::Clerk;
use crate::desk::Desk;
use crate::input_reader::read_input;
use crate::job_error::JobError;
use crate::monitors::{MONITORS, MonitorDoor};
use crate::orders::obey;
use crate::whole_input::bytes_of;
use crate::whole_output::write;
use ballot_base::Config;
use command_line::{ListeningNode, NodeTable, Serve, table};
use log::LevelFilter;
use notices::log_filter;
use post::Cluster;
use run_history::{RunNaming, SeenRun};
use server::{Attendant, serve_while};
use std::fs::File;
use std::io::{BufRead, Write};
use std::net::{Net, TcpListener, TcpStream};
use std::rt::Files;
use std::sync::{Mutex, Wait};
use std::thread::Threads;
use std::time::Clock;
use std::{str, thread};
use streams::{Listener, MAX_CONNECTIONS};

/// How many files a node may have open at once: its listener, its connections, a refused one, and
/// one by which its listener is closed. None of them is open yet when this is tried.
const FILES: usize = MAX_CONNECTIONS as usize + 3;

/// How many files monitors may have open at once: their listener, as many connections as are served
/// at once, and one by which their threads are woken at the end.
const MONITOR_FILES: usize = MONITORS + 2;

/// What an operator is told while nodes are served, and where monitors may ask.
#[derive(Clone, Copy, Debug)]
pub struct Operation<'a> {
    /// Which lines are told on standard error.
    pub log: LevelFilter,
    /// The address at which a monitor may ask over HTTP, which is not checked here.
    pub admin: Option<&'a str>,
}

impl<'a> Operation<'a> {
    /// Returns what these words of the command line ask for: the level and the address. `None` if
    /// the first is no level.
    pub fn of(log: &str, admin: Option<&'a str>) -> Option<Operation<'a>>
        ensures { option_map (λ operation. operation.log) result ≡ log_filter log.now }
    {
        match log_filter(log) {
            Some(log) => Some(Operation { log, admin }),
            None => None,
        }
    }

    // Returns how many files it may have open at once.
    fn files(&self) -> usize {
        match self.admin {
            Some(_) => MONITOR_FILES,
            None => 0,
        }
    }
}

/// Serves the nodes of a file's table, if as many files can be open at once as they need.
pub(crate) fn run<R, I, O, E>(
    rt: &R,
    job: &Serve<'_>,
    input: &mut I,
    output: &mut O,
    faults: &mut E,
) -> Result<(), JobError>
where
    R: Files + Threads + Wait + Clock + Sync + AllocGlobal,
    R: Net<Listener = TcpListener, Stream = TcpStream>,
    I: BufRead + Send,
    O: Write,
    E: Write,
    ensures { OnOk result (SaysBye O.contents output.new) }
{
    let operation = Operation::of(job.log, job.admin).ok_or(JobError::LogWord)?;
    let bytes = bytes_of(rt, job.config)?;
    let text = str::from_utf8(bytes.as_slice())
        .ok()
        .ok_or(JobError::Table)?;
    let table = table(rt.alloc(), text)?;
    let count = table.nodes.len().saturating_mul(FILES);
    find_files(rt, count.saturating_add(operation.files()))?;
    serve_nodes(rt, &table, operation, input, output, faults)
}

// Fails if fewer than `count` more files can be open at once.
fn find_files<R: Files + AllocGlobal>(rt: &R, count: usize) -> Result<(), JobError> {
    let mut files = Vec::with_capacity(rt.alloc(), count)?;
    for _ in 0..count {
        match File::open(rt, "/dev/null") {
            Ok(file) => files.push(file)?,
            Err(_) => return Err(JobError::Files(count.saturating_sub(files.len()))),
        }
    }
    Ok(())
}

/// Serves the nodes of a table, and carries out the orders of the input until its end or the line
/// `quit`. Prints on `faults`, which is standard error, where each node listens, and which
/// listeners other machines may reach. Fails if the input cannot be read. No clause says any of
/// this: the clauses are about refused texts, and about `bye` at the end.
pub fn serve_table<R, I, O, E>(
    rt: &R,
    text: &str,
    operation: Operation<'_>,
    input: &mut I,
    output: &mut O,
    faults: &mut E,
) -> Result<(), JobError>
where
    R: Threads + Wait + Clock + Sync + AllocGlobal,
    R: Net<Listener = TcpListener, Stream = TcpStream>,
    I: BufRead + Send,
    O: Write,
    E: Write,
    ensures ok { OnOk result (IsTable text.now) }
    ensures bye { OnOk result (SaysBye O.contents output.new) }

    // A text that is no table is refused, and nothing is printed.
    ensures refused { IfErr result (FailsToServe text.now) }
    ensures untouched { (IsTable text.now → ⊥) → O.contents output.new ≡ O.contents output.old }
    ensures unsaid { (IsTable text.now → ⊥) → E.contents faults.new ≡ E.contents faults.old }
{
    serve_nodes(
        rt,
        &table(rt.alloc(), text)?,
        operation,
        input,
        output,
        faults,
    )
}

fn serve_nodes<R, I, O, E>(
    rt: &R,
    table: &NodeTable,
    operation: Operation<'_>,
    input: &mut I,
    output: &mut O,
    faults: &mut E,
) -> Result<(), JobError>
where
    R: Threads + Wait + Clock + Sync + AllocGlobal,
    R: Net<Listener = TcpListener, Stream = TcpStream>,
    I: BufRead + Send,
    O: Write,
    E: Write,
    ensures { OnOk result (SaysBye O.contents output.new) }
{
    let nodes = table.nodes.as_slice();
    let listeners = listen_all(rt, nodes, faults)?;
    let door = door_of(rt, operation.admin, faults)?;
    let desk = Desk::new(rt.alloc(), MONITORS)?;
    let clerk = Clerk::new(rt, rt.alloc(), nodes, &table.config, operation.log, faults)?;
    let input = Mutex::new(input);
    let attending = Attending {
        rt,
        desk: &desk,
        clerk,
        output,
    };
    serve_all(
        rt,
        &desk,
        &door,
        listeners.as_slice(),
        &table.config,
        attending,
        &input,
    )?;
    write(b"bye\n", output)
}

// Opens the door for monitors, if there is an address for it, and prints where it is.
fn door_of<R, E>(
    rt: &R,
    address: Option<&str>,
    faults: &mut E,
) -> Result<Option<MonitorDoor>, JobError>
where
    R: AllocGlobal + Net<Listener = TcpListener, Stream = TcpStream>,
    E: Write,
{
    let Some(address) = address else {
        return Ok(None);
    };
    let door = MonitorDoor::open(rt, address)?;
    door.print(faults);
    Ok(Some(door))
}

// Who obeys the orders of the desk, and answers them.
#[derive(Drop)]
struct Attending<'a, 'b, 'c, 'd, 'e, R, O, E> {
    rt: &'a R,
    desk: &'b Desk,
    clerk: Clerk<'c, 'd, E>,
    output: &'e mut O,
}

impl<'a, 'b, 'c, 'd, 'e, R, O, E> Attendant for Attending<'a, 'b, 'c, 'd, 'e, R, O, E>
where
    R: AllocGlobal + Wait + Clock,
    O: Write,
    E: Write,
{
    type Answer = Result<(), JobError>;

    // No clause says which orders are obeyed.
    ghost attends = { λ _ _ _ _. Unit {0} };

    fn attend<H: RunNaming + Send + Sync>(
        self,
        cluster: &Cluster<H>,
        _seen: &mut SeenRun<H>,
    ) -> Result<(), JobError> {
        let Attending {
            rt,
            desk,
            mut clerk,
            output,
        } = self;
        obey(rt, cluster, desk, &mut clerk, output)
    }
}

// Serves the nodes of these listeners while the attendant obeys, beside the threads that read the
// input and serve monitors.
fn serve_all<R, I, A>(
    rt: &R,
    desk: &Desk,
    door: &Option<MonitorDoor>,
    listeners: &[Listener],
    config: &Config,
    attendant: A,
    input: &Mutex<&mut I>,
) -> Result<(), JobError>
where
    R: Threads + Wait + Clock + Sync + AllocGlobal + Net<Stream = TcpStream>,
    I: BufRead + Send,
    A: Attendant<Answer = Result<(), JobError>>,
{
    thread::scope(thread::scope_env(), rt, move |scope| {
        let mut all = scope.spawn(move || read_input(rt, desk, input)).is_ok();
        let mut begun = 0usize;
        if let Some(door) = door {
            for _ in 0..MONITORS {
                let is_begun = scope.spawn(move || door.serve(rt, desk)).is_ok();
                begun = begun.saturating_add(usize::from(is_begun));
                all &= is_begun;
            }
        }
        let served = if all {
            serve_listeners(rt, listeners, config, attendant)
        } else {
            Err(JobError::Threads)
        };
        desk.end(rt);
        close(rt, door, begun);
        served
    })
}

// Serves the nodes of these listeners while the attendant obeys.
fn serve_listeners<R, A>(
    rt: &R,
    listeners: &[Listener],
    config: &Config,
    attendant: A,
) -> Result<(), JobError>
where
    R: Threads + Wait + Clock + Sync + AllocGlobal + Net<Stream = TcpStream>,
    A: Attendant<Answer = Result<(), JobError>>,
{
    let (obeyed, _run) = serve_while(rt, rt.alloc(), listeners, config, attendant)?;
    obeyed
}

// Closes the door for monitors, if there is one, at which `begun` threads serve.
fn close<R: Clock + Net<Stream = TcpStream>>(rt: &R, door: &Option<MonitorDoor>, begun: usize) {
    if let Some(door) = door {
        door.close(rt, begun);
    }
}

// Opens the listener of each node, and then prints where all listen.
fn listen_all<R, E>(
    rt: &R,
    nodes: &[ListeningNode],
    faults: &mut E,
) -> Result<Vec<Listener>, JobError>
where
    R: AllocGlobal + Net<Listener = TcpListener, Stream = TcpStream>,
    E: Write,
{
    let mut listeners = Vec::new(rt.alloc());
    for node in nodes {
        listeners.push(Listener::new(node.id, listen(rt, node)?))?;
    }
    for (node, listener) in nodes.iter().zip(&listeners) {
        print_address(listener, node.id, faults);
    }
    Ok(listeners)
}

// Opens the listener of a node. The error has its address.
fn listen<R>(rt: &R, node: &ListeningNode) -> Result<TcpListener, JobError>
where
    R: AllocGlobal + Net<Listener = TcpListener, Stream = TcpStream>,
{
    let address = node.listen.as_str();
    match TcpListener::bind(rt, address) {
        Ok(listener) => Ok(listener),
        Err(error) => {
            let named = String::from_str(rt.alloc(), address)?;
            Err(JobError::Address(named, error.kind()))
        }
    }
}

// Prints where a node listens, and whether other machines may reach it. Serving goes on even if
// nothing can be printed.
fn print_address<E: Write>(listener: &Listener, id: u8, faults: &mut E) {
    if let Ok(address) = listener.address() {
        let _ = writeln!(faults, "node {id} listens on {address}");
        if !address.ip().is_loopback() {
            let _ = writeln!(
                faults,
                "node {id} is not on a loopback address: whoever reaches it can publish"
            );
        }
    }
}
