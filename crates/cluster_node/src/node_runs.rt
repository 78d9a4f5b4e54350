// Running a node by its table.

ghost use Rattle.cluster_node.specs.Errors.{EndsSo};

use crate::carrying::Carrier;
use crate::node_error::NodeError;
use cluster::master::{MasterError, listen, open_key, read_table};
use cluster::table::{ClusterTable, NodeRow};
use link_threads::{
    Dials, Doors, Life, LinkClock, LinkDesk, LinkHall, LinksEnd, Strangers, Welcome, ask_number,
    keep_links,
};
use server::{ServeError, serve_linked};
use std::alloc::Global;
use std::net::{Net, TcpListener, TcpStream};
use std::random::RandomSource;
use std::rt::Files;
use std::sync::{Mutex, Wait};
use std::thread;
use std::thread::Threads;
use std::time::{Clock, Duration, Instant};
use streams::Listener;

/// How long a node waits before it asks again for a number, in milliseconds.
const ASK_MILLIS: u64 = 1000;

/// What a node runs by: its table, its key, and where it listens.
#[derive(Drop)]
pub struct OpenedNode {
    place: Place,
    // Where clients connect.
    clients: TcpListener,
}

// What the links of a node run by.
#[derive(Drop)]
struct Place {
    table: ClusterTable,
    // The row, counted from 0.
    row: usize,
    key: Vec<u8>,
    // The addresses of the links of all rows.
    links: Vec<String>,
    // Where other nodes connect.
    nodes: TcpListener,
}

impl OpenedNode {
    /// Opens what the table in a file names for a row, counted from 1: the key, and the sockets for
    /// clients and for other nodes.
    pub fn new<R>(rt: &R, config: &str, row: u32) -> Result<OpenedNode, NodeError>
    where
        R: Files + AllocGlobal + Net<Listener = TcpListener, Stream = TcpStream>,
    {
        let table = read_table(rt, config)?;
        let at = usize::try_from(row).unwrap_or(0).wrapping_sub(1);
        let Some(own) = table.nodes.get(at) else {
            return Err(NodeError::Row(row));
        };
        let key = open_key(rt, table.key.as_str())?;
        let clients = listen(rt, own.listen.as_str(), false)?;
        let nodes = listen(rt, own.link.as_str(), true)?;
        let links = links_of(rt.alloc(), &table.nodes)?;
        let place = Place {
            table,
            row: at,
            key,
            links,
            nodes,
        };
        Ok(OpenedNode { place, clients })
    }
}

// Returns the addresses of the links of all rows.
fn links_of(alloc: Global, rows: &[NodeRow]) -> Result<Vec<String>, NodeError> {
    let mut links = Vec::new(alloc);
    for row in rows {
        links.push(String::from_str(alloc, row.link.as_str())?)?;
    }
    Ok(links)
}

/// Runs a node until it looked for others for a minute in vain: asks the master for a number, which
/// nobody had before, and then serves clients and keeps the links. Prints on standard error what it
/// does.
pub fn run_node<R, D>(rt: &R, dials: &D, opened: OpenedNode) -> Result<(), NodeError>
where
    R: AllocGlobal + Threads + Wait + Clock + RandomSource + Eprint + Sync,
    R: Net<Listener = TcpListener, Stream = TcpStream>,
    D: Dials + Sync,
{
    let OpenedNode { place, clients } = opened;
    let Ok(start) = Instant::now(rt) else {
        return Err(NodeError::Opening(MasterError::Clock));
    };
    let master = place.table.master.as_str();
    let welcome = await_number(rt, dials, start, place.key.as_slice(), master);
    let number = welcome.number();
    if let Ok(address) = clients.local_addr() {
        // There is nowhere else to print it.
        let _ = eprintln!(rt; "vcluster: node {number} listens on {address}");
    }
    let listener = Listener::new(number, clients);
    serve(rt, dials, &place, &listener, welcome, start)
}

// Serves a node of this life, and keeps its links.
fn serve<R, D>(
    rt: &R,
    dials: &D,
    place: &Place,
    listener: &Listener,
    welcome: Welcome,
    start: Instant,
) -> Result<(), NodeError>
where
    R: AllocGlobal + Threads + Wait + Clock + RandomSource + Eprint + Sync,
    R: Net<Listener = TcpListener, Stream = TcpStream>,
    D: Dials + Sync,
{
    let life = Life {
        key: place.key.as_slice(),
        cluster: welcome.cluster(),
        number: welcome.number(),
        row: place.row,
    };
    let rows = place.links.len();
    let desk = LinkDesk::new(rt.alloc(), rows)?;
    let hall = LinkHall::new(rt.alloc(), life, rows, &desk, start)?;
    let doors = Doors {
        dials,
        master: place.table.master.as_str(),
        rows: place.links.as_slice(),
        listener: &place.nodes,
    };
    let end = Mutex::new(None);
    let served = serve_beside(rt, &hall, &doors, &desk, listener, rows, &end);
    let end = *end.lock(rt);
    ended(end, served)
}

// Serves a node while another thread keeps its links, and notes how those ended.
fn serve_beside<R, D>(
    rt: &R,
    hall: &LinkHall<'_>,
    doors: &Doors<'_, D>,
    desk: &LinkDesk,
    listener: &Listener,
    rows: usize,
    end: &Mutex<Option<LinksEnd>>,
) -> Result<(), ServeError>
where
    R: AllocGlobal + Threads + Wait + Clock + RandomSource + Eprint + Sync,
    R: Net<Listener = TcpListener, Stream = TcpStream>,
    D: Dials + Sync,
{
    thread::scope(thread::scope_env(), rt, move |scope| {
        let is_kept = scope.spawn(move || keep(rt, hall, doors, end)).is_ok();
        let served = if is_kept {
            carried(rt, desk, listener, rows)
        } else {
            Err(ServeError::Threads)
        };
        hall.close();
        served
    })
}

// Keeps the links, and notes how they ended.
fn keep<R, D>(rt: &R, hall: &LinkHall<'_>, doors: &Doors<'_, D>, end: &Mutex<Option<LinksEnd>>)
where
    R: AllocGlobal + Threads + Wait + Clock + RandomSource + Eprint + Sync,
    D: Dials + Sync,
{
    let kept = keep_links(rt, hall, doors);
    *end.lock(rt) = Some(kept);
}

// Serves a node, and carries between it and the desk until the links end.
fn carried<R>(rt: &R, desk: &LinkDesk, listener: &Listener, rows: usize) -> Result<(), ServeError>
where
    R: AllocGlobal + Threads + Wait + Clock + Eprint + Sync + Net<Stream = TcpStream>,
{
    let ((), _run) = serve_linked(rt, rt.alloc(), listener, rows, Carrier { rt, desk })?;
    Ok(())
}

// Returns how a node ended that was served so, and whose links ended so. Where both failed, the
// node did first.
fn ended(end: Option<LinksEnd>, served: Result<(), ServeError>) -> Result<(), NodeError>
    ensures { EndsSo end served result }
{
    if let Err(error) = served {
        return Err(NodeError::Serving(error));
    }
    match end {
        Some(LinksEnd::Closed) => Ok(()),
        Some(LinksEnd::Lonely) => Err(NodeError::Lonely),
        Some(LinksEnd::Threads) | None => Err(NodeError::Serving(ServeError::Threads)),
    }
}

// Asks the master for a number until it gives one. Names why it does not, at most each minute.
fn await_number<R, D>(rt: &R, dials: &D, start: Instant, key: &[u8], master: &str) -> Welcome
where
    R: AllocGlobal + Wait + Clock + RandomSource + Eprint,
    D: Dials,
{
    let strangers = Strangers::new();
    let clock = LinkClock::new(start);
    for _ in rt.forever() {
        match ask_number(rt, dials, key, master) {
            Ok(welcome) => return welcome,
            Err(stranger) => {
                if strangers.may_name(rt, clock.now(rt)) {
                    let _ = eprintln!(rt; "vcluster: no number from {master}: {stranger}");
                }
            }
        }
        thread::sleep(rt, Duration::from_millis(ASK_MILLIS));
    }
    unreachable!()
}
