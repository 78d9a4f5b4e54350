// Nodes to which clients connect: a listener for each, and their ballot.

use ballot_base::{Config, Members};
use machine::Memory;
use std::alloc::Global;
use std::net::{Net, TcpListener, TcpStream};
use streams::Listener;

/// Returns ballot 1 of these members; node 1 is its primary.
pub fn opening(alloc: Global, members: &[u8]) -> Result<Config, Memory> {
    Ok(Config {
        members: Members::from_slice(alloc, members)?,
        primary: 1,
    })
}

/// Adds a listener for each of these nodes, on a free port. False if there is no free port.
pub fn listen_all<R>(rt: &R, numbers: &[u8], listeners: &mut Vec<Listener>) -> bool
where
    R: AllocGlobal + Net<Listener = TcpListener, Stream = TcpStream>,
{
    for number in numbers {
        if !listen(rt, *number, listeners) {
            return false;
        }
    }
    true
}

// Adds a listener for this node, on a free port. False if there is none.
fn listen<R>(rt: &R, number: u8, listeners: &mut Vec<Listener>) -> bool
where
    R: AllocGlobal + Net<Listener = TcpListener, Stream = TcpStream>,
{
    let Ok(listener) = TcpListener::bind(rt, "127.0.0.1:0") else {
        return false;
    };
    listeners.push(Listener::new(number, listener)).is_ok()
}
