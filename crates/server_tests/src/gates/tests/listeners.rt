// What no clause of `streams` says of a listener and a connection. No node serves here.

ghost use Rattle.std.specs.Prelude.{◌≡◌, IfOk, false};
ghost use Rattle.agreement.specs.MasterState.{opening_master};
ghost use Rattle.ballot_base.specs.LawfulConfig.{max_node};
ghost use Rattle.run_history.specs.Log.{opening_log};

use crate::clients::{Fault, hear_end, listen_all, named, open, unless};
use ballot_base::errors::OpeningError;
use ballot_base::{Config, Members};
use master::Master;
use run_history::{OpenedRun, RunNaming, SeenRun};
use std::alloc::Global;
use std::marker::Brand;
use std::net::{Net, TcpListener, TcpStream};
use std::sync::{Arc, Wait};
use std::time::Clock;
use streams::{Connections, Link, Listener};
use world_base::node_connections::Port;

// What is shown.
#[derive(Clone, Copy)]
enum Shows {
    // A listener is closed once it was closed, and not before.
    Closed,
    // An index is free for the first connection.
    Index,
    // A client sees that its stream was shut.
    Shut,
    // A client sees that its stream was ended, with its token.
    Ended,
}

// Returns the first step that fails with a listener of node 1, on a free port.
fn first_fault<R>(rt: &R, shows: Shows) -> Result<(), Fault>
where
    R: AllocGlobal + Wait + Clock + Net<Listener = TcpListener, Stream = TcpStream>,
{
    let mut listeners = Vec::new(rt.alloc());
    if listen_all(rt, &[1], &mut listeners) {
        first_fault_of(rt, listeners.first(), shows)
    } else {
        Err(Fault::new("a port is free"))
    }
}

// Returns the first step that fails with this listener.
fn first_fault_of<R>(rt: &R, listener: Option<&Listener>, shows: Shows) -> Result<(), Fault>
where
    R: AllocGlobal + Wait + Clock + Net<Stream = TcpStream>,
{
    let Some(listener) = listener else {
        return Err(Fault::new("there is a listener"));
    };
    let Ok((opened, master)) = open_one(rt.alloc()) else {
        return Err(Fault::new("a run opens"));
    };
    first_fault_in::<Brand, R>(rt, listener, opened, master, shows)
}

// Opens the run of one node.
fn open_one(alloc: Global) -> Result<(OpenedRun, Master), OpeningError>
    ensures master { IfOk result (λ opened.
        opened.1 ≡ opening_master max_node opened.0.group.config) }
    ensures own { IfOk result (λ opened. opened.0.group.linked ≡ false) }
{
    let config = Config {
        members: Members::from_slice(alloc, &[1])?,
        primary: 1,
    };
    OpenedRun::open(alloc, 1, &config)
}

// Returns the first step that fails with this listener in this run.
fn first_fault_in<H, R>(
    rt: &R,
    listener: &Listener,
    opened: OpenedRun,
    master: Master,
    shows: Shows,
) -> Result<(), Fault>
where
    H: RunNaming,
    R: AllocGlobal + Wait + Clock + Net<Stream = TcpStream>,
    requires book { opened.book ≡ H.book }
    requires nodes { opened.group.nodes ≡ H.nodes }
    requires config { opened.group.config ≡ H.config }
    requires group { opened.group.linked ≡ H.linked }
    requires own { H.linked ≡ false }
    requires master { master ≡ opening_master max_node H.config }
{
    let (_master, _maker, log) = opened.named::<H>(master);
    let Ok(connections) = Connections::<H>::new(rt.alloc()) else {
        return Err(Fault::new("there is memory for connections"));
    };
    match shows {
        Shows::Closed => close_listener(rt, listener, &connections),
        Shows::Index => unless(has_index(rt, &connections), "an index is free"),
        Shows::Shut | Shows::Ended => come_and_end(rt, listener, &log, shows),
    }
}

// Checks that a listener is open, and closes it.
fn close_listener<H, R>(
    rt: &R,
    listener: &Listener,
    connections: &Connections<H>,
) -> Result<(), Fault>
where
    H: RunNaming,
    R: Wait + Clock + Net<Stream = TcpStream>,
{
    unless(!listener.is_closed(rt), "the listener is open")?;
    let _ = listener.close(rt, connections);
    unless(listener.is_closed(rt), "the listener is closed")
}

// Returns true if an index is free, and leaves it so.
fn has_index<H: RunNaming, R: Wait>(rt: &R, connections: &Connections<H>) -> bool {
    match connections.take_index(rt) {
        Some(index) => {
            connections.free(rt, index);
            true
        }
        None => false,
    }
}

// Connects a client, and ends its stream. The log is that of a run as it opened.
fn come_and_end<H, R>(
    rt: &R,
    listener: &Listener,
    log: &SeenRun<H>,
    shows: Shows,
) -> Result<(), Fault>
where
    H: RunNaming,
    R: AllocGlobal + Wait + Clock + Net<Stream = TcpStream>,
    requires { log.now ≡ opening_log H.nodes H.config H.linked }
{
    let mut client = named(open(rt, Some(listener)), "a client comes")?;
    match accept_next(rt, listener, log) {
        Some(link) => end_and_await(rt, &link, &mut client, shows),
        None => Err(Fault::new("the client is accepted")),
    }
}

// Returns the connection of the next client, which has come.
fn accept_next<H, R>(rt: &R, listener: &Listener, log: &SeenRun<H>) -> Option<Arc<Link<H>, Global>>
where
    H: RunNaming,
    R: AllocGlobal + Wait + Clock,
    requires { log.now ≡ opening_log H.nodes H.config H.linked }
{
    let stream = listener.accept(rt).ok()?;
    Link::of_stream(rt.alloc(), 1, Port(1), 0, 0, stream, log.again())
}

// Ends the stream of a connection, and awaits that its client sees that. The connection is not
// dropped before, which would end the stream, too.
fn end_and_await<H: RunNaming, R: Wait>(
    rt: &R,
    link: &Link<H>,
    client: &mut TcpStream,
    shows: Shows,
) -> Result<(), Fault> {
    unless(end_stream(rt, link, shows), "the connection has its token")?;
    named(hear_end(client), "the client sees the end")
}

// Ends the stream of a connection. False if its token is not there.
fn end_stream<H: RunNaming, R: Wait>(rt: &R, link: &Link<H>, shows: Shows) -> bool {
    if !matches!(shows, Shows::Ended) {
        link.shut();
        return true;
    }
    match link.take_token(rt) {
        Some(token) => {
            link.end(token);
            true
        }
        None => false,
    }
}

#[test]
fn a_listener_is_open_until_it_is_closed(rt: HostRuntime) {
    assert_eq!(rt; first_fault(&rt, Shows::Closed), Ok(()));
}

#[test]
fn an_index_is_free_for_a_first_connection(rt: HostRuntime) {
    assert_eq!(rt; first_fault(&rt, Shows::Index), Ok(()));
}

#[test]
fn a_client_sees_that_its_stream_was_shut(rt: HostRuntime) {
    assert_eq!(rt; first_fault(&rt, Shows::Shut), Ok(()));
}

#[test]
fn a_client_sees_that_its_stream_was_ended(rt: HostRuntime) {
    assert_eq!(rt; first_fault(&rt, Shows::Ended), Ok(()));
}
