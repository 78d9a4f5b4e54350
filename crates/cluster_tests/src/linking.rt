// Links of nodes over loopback, in threads.

use crate::loop_node::{LoopNode, Told, held};
use crate::node_end::KEY;
use link_threads::{
    Dials, Doors, Introduction, Life, LinkHall, LinksEnd, NetDials, keep_links, meet,
};
use links::LinkWriter;
use links::seal::Side;
use std::alloc::Global;
use std::io::Write;
use std::net::{Net, TcpListener, TcpStream};
use std::random::RandomSource;
use std::sync::Wait;
use std::thread;
use std::thread::Threads;
use std::time::{Clock, Duration, Instant};

/// The name of the cluster.
const CLUSTER: [u8; 16] = [7; 16];

/// An address at which nobody listens.
const NOBODY: &str = "127.0.0.1:1";

/// How often something is looked at, each five milliseconds.
const LOOKS: u32 = 4000;

// Returns a node's life.
fn life(number: u8, row: usize) -> Life<'static> {
    Life {
        key: KEY,
        cluster: CLUSTER,
        number,
        row,
    }
}

// Waits until a node was told this, and nothing else.
fn is_told<R: Wait + Clock>(rt: &R, node: &LoopNode, wanted: &[Told]) -> bool {
    for _ in 0..LOOKS {
        if node.is_told(rt, wanted) {
            return true;
        }
        thread::sleep(rt, Duration::from_millis(5));
    }
    false
}

// Opens a listener on a free port, and returns it with its address.
fn listen<R>(rt: &R) -> Option<(TcpListener, String)>
where
    R: AllocGlobal + Net<Listener = TcpListener, Stream = TcpStream>,
{
    let listener = TcpListener::bind(rt, "127.0.0.1:0").ok()?;
    let text = format!(in rt.alloc(); "{}", listener.local_addr().ok()?).ok()?;
    Some((listener, text))
}

// Two nodes that are linked.
#[derive(Drop)]
struct Pair<'a, D: Dials> {
    dials: &'a D,
    rows: &'a [String],
    one: &'a TcpListener,
    two: &'a TcpListener,
    first: &'a LoopNode,
    second: &'a LoopNode,
}

// What each gives comes to the other in order, each message with its number.
fn exchange<R, D>(rt: &R, pair: &Pair<'_, D>, now: Instant) -> Option<bool>
where
    R: AllocGlobal + Threads + Wait + Clock + RandomSource + Eprint + Sync,
    D: Dials + Sync,
{
    let (first, second) = (pair.first, pair.second);
    let one = LinkHall::new(rt.alloc(), life(1, 0), 2, &first.desk, now).ok()?;
    let two = LinkHall::new(rt.alloc(), life(2, 1), 2, &second.desk, now).ok()?;
    Some(thread::scope(thread::scope_env(), rt, |scope| {
        let (one, two) = (&one, &two);
        let doors = [pair.one, pair.two];
        let all = scope.spawn(move || keep(rt, one, pair, doors[0])).is_ok()
            & scope.spawn(move || keep(rt, two, pair, doors[1])).is_ok();
        let is_met = is_told(rt, first, &[Told::Met(2)]) && is_told(rt, second, &[Told::Met(1)]);
        for count in 1..=3 {
            first.give(rt, 2, count);
        }
        second.give(rt, 1, 9);
        let wanted = [
            Told::Met(1),
            Told::Held(1, 1),
            Told::Held(1, 2),
            Told::Held(1, 3),
        ];
        let is_brought = is_told(rt, second, &wanted)
            && is_told(rt, first, &[Told::Met(2), Told::Held(2, 9)]);
        one.close();
        two.close();
        all && is_met && is_brought
    }))
}

// Keeps the links of one of them.
fn keep<R, D>(rt: &R, hall: &LinkHall<'_>, pair: &Pair<'_, D>, listener: &TcpListener) -> LinksEnd
where
    R: AllocGlobal + Threads + Wait + Clock + RandomSource + Eprint + Sync,
    D: Dials + Sync,
{
    let doors = Doors {
        dials: pair.dials,
        master: NOBODY,
        rows: pair.rows,
        listener,
    };
    keep_links(rt, hall, &doors)
}

// Another row's end of a link, by hand: meets the next that dials as this number, writes these
// counts, and leaves out the last `cut` bytes.
fn answer<R>(
    rt: &R,
    listener: &TcpListener,
    number: u8,
    counts: &[u64],
    cut: usize,
) -> Option<TcpStream>
where
    R: AllocGlobal + Wait + Clock + RandomSource,
{
    let (stream, _) = listener.accept().ok()?;
    let own = Introduction::of_node(Side::Listener, KEY, CLUSTER, number);
    let met = meet(rt, &own, &stream, Duration::from_millis(200)).ok()?;
    let mut writer = LinkWriter::new(rt.alloc(), met.sealer);
    for count in counts {
        writer.add_message(&held(number, *count)).ok()?;
    }
    let mut bytes = Vec::new(rt.alloc());
    writer.write(&mut bytes).ok()?;
    let mut target = &stream;
    target
        .write_all(&bytes[..bytes.len().saturating_sub(cut)])
        .ok()?;
    Some(stream)
}

// A node that dials another row, which is played by hand.
#[derive(Drop)]
struct Dialler<'a, D: Dials> {
    dials: &'a D,
    rows: &'a [String],
    // Where the node listens, and where the other row does.
    own: &'a TcpListener,
    other: &'a TcpListener,
    node: &'a LoopNode,
}

// Frames that came whole are brought; one that was cut is not, and another life is met as such.
fn break_off<R, D>(rt: &R, dialler: &Dialler<'_, D>, now: Instant) -> Option<bool>
where
    R: AllocGlobal + Threads + Wait + Clock + RandomSource + Eprint + Sync,
    D: Dials + Sync,
{
    let hall = LinkHall::new(rt.alloc(), life(2, 1), 2, &dialler.node.desk, now).ok()?;
    Some(thread::scope(thread::scope_env(), rt, |scope| {
        let hall = &hall;
        let is_started = scope
            .spawn(move || {
                let doors = Doors {
                    dials: dialler.dials,
                    master: NOBODY,
                    rows: dialler.rows,
                    listener: dialler.own,
                };
                keep_links(rt, hall, &doors)
            })
            .is_ok();
        let is_so = is_started && lives(rt, dialler.other, dialler.node).is_some();
        hall.close();
        is_so
    }))
}

// Plays the other row: a connection that ends between frames, one that ends in a frame, and one of
// another life.
fn lives<R>(rt: &R, listener: &TcpListener, node: &LoopNode) -> Option<()>
where
    R: AllocGlobal + Wait + Clock + RandomSource,
{
    let all = [
        Told::Met(1),
        Told::Held(1, 1),
        Told::Held(1, 2),
        Told::Parted(1),
        Told::Met(1),
        Told::Parted(1),
        Told::Met(4),
        Told::Held(4, 7),
    ];
    let whole = answer(rt, listener, 1, &[1, 2], 0)?;
    is_told(rt, node, &all[..3]).then_some(())?;
    drop(whole);
    is_told(rt, node, &all[..4]).then_some(())?;
    drop(answer(rt, listener, 1, &[3], 1)?);
    is_told(rt, node, &all[..6]).then_some(())?;
    let other = answer(rt, listener, 4, &[7], 0)?;
    let is_so = is_told(rt, node, &all);
    drop(other);
    is_so.then_some(())
}

// Returns a list of two addresses.
fn both(alloc: Global, first: String, second: String) -> Option<Vec<String>> {
    let mut all = Vec::new(alloc);
    all.push(first).ok()?;
    all.push(second).ok()?;
    Some(all)
}

// Links two nodes, and lets them exchange.
fn linked<R, D>(rt: &R, dials: &D) -> Option<bool>
where
    R: AllocGlobal + Threads + Wait + Clock + RandomSource + Eprint + Sync,
    R: Net<Listener = TcpListener, Stream = TcpStream>,
    D: Dials + Sync,
{
    let (one, at_one) = listen(rt)?;
    let (two, at_two) = listen(rt)?;
    one.set_nonblocking(true).ok()?;
    two.set_nonblocking(true).ok()?;
    let rows = both(rt.alloc(), at_one, at_two)?;
    let first = LoopNode::new(rt.alloc(), 1, 1)?;
    let second = LoopNode::new(rt.alloc(), 2, 0)?;
    let pair = Pair {
        dials,
        rows: &rows,
        one: &one,
        two: &two,
        first: &first,
        second: &second,
    };
    exchange(rt, &pair, Instant::now(rt).ok()?)
}

// Lets a node dial another row that breaks off.
fn broken<R, D>(rt: &R, dials: &D) -> Option<bool>
where
    R: AllocGlobal + Threads + Wait + Clock + RandomSource + Eprint + Sync,
    R: Net<Listener = TcpListener, Stream = TcpStream>,
    D: Dials + Sync,
{
    let (other, first) = listen(rt)?;
    let (own, second) = listen(rt)?;
    own.set_nonblocking(true).ok()?;
    let rows = both(rt.alloc(), first, second)?;
    let node = LoopNode::new(rt.alloc(), 2, 0)?;
    let dialler = Dialler {
        dials,
        rows: &rows,
        own: &own,
        other: &other,
        node: &node,
    };
    break_off(rt, &dialler, Instant::now(rt).ok()?)
}

#[test]
fn what_is_given_comes_in_order(rt: HostRuntime) {
    assert!(rt; linked(&rt, &NetDials::new(&rt)) == Some(true));
}

#[test]
fn a_frame_that_was_cut_is_not_brought(rt: HostRuntime) {
    assert!(rt; broken(&rt, &NetDials::new(&rt)) == Some(true));
}
