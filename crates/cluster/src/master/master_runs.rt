// Running a master by its table.

use crate::desk::{Desk, Keeper, OpenError};
use crate::master::hall::Hall;
use crate::master::key_file::{KeyFault, make_key, read_key};
use crate::master::master_error::MasterError;
use crate::master::serving::{ServeFault, serve};
use crate::master::state_file::{StateFile, read_state};
use crate::master::{order_socket, told};
use crate::table::{ClusterTable, table};
use links::seal::CLUSTER_BYTES;
use std::alloc::Global;
use std::io::{BufRead, ErrorKind, Write};
use std::net::{Net, TcpListener, TcpStream};
use std::os::unix::net::UnixListener;
use std::random::RandomSource;
use std::rt::Files;
use std::sync::Wait;
use std::thread::Threads;
use std::time::{Clock, Instant};
use std::{fs, str};

/// Makes the key of a cluster in a new file. A file that is there already is not changed.
pub fn run_key<R: Files + RandomSource + AllocGlobal>(
    rt: &R,
    path: &str,
) -> Result<(), MasterError> {
    match make_key(rt, path) {
        Ok(()) => Ok(()),
        Err(fault) => Err(key_error(rt.alloc(), path, fault)),
    }
}

/// Returns the key in a file. Its errors name the file.
pub fn open_key<R: Files + AllocGlobal>(rt: &R, path: &str) -> Result<Vec<u8>, MasterError> {
    match read_key(rt, path) {
        Ok(key) => Ok(key),
        Err(fault) => Err(key_error(rt.alloc(), path, fault)),
    }
}

// Returns the error of a file with a key.
fn key_error(alloc: Global, path: &str, fault: KeyFault) -> MasterError {
    match String::from_str(alloc, path) {
        Ok(path) => MasterError::of_key(path, fault),
        Err(_) => MasterError::Memory,
    }
}

// Returns the error of another file.
fn file_error(alloc: Global, path: &str, kind: ErrorKind) -> MasterError {
    if kind == ErrorKind::OutOfMemory {
        return MasterError::Memory;
    }
    match String::from_str(alloc, path) {
        Ok(path) => MasterError::File(path, kind),
        Err(_) => MasterError::Memory,
    }
}

/// What a master runs by: its table, its key, and where it listens.
#[derive(Drop)]
pub struct Opened {
    table: ClusterTable,
    key: Vec<u8>,
    nodes: TcpListener,
    orders: UnixListener,
}

impl Opened {
    /// Opens what the table in a file names: the key, and the sockets for nodes and for orders. A
    /// master that runs at the same socket for orders is left alone: `Address`.
    pub fn new<R>(rt: &R, config: &str) -> Result<Opened, MasterError>
    where
        R: Files + AllocGlobal + Net<Listener = TcpListener, Stream = TcpStream>,
    {
        let table = read_table(rt, config)?;
        let key = open_key(rt, table.key.as_str())?;
        let nodes = listen(rt, table.master.as_str(), true)?;
        let orders = match order_socket::listen(rt, table.orders.as_str()) {
            Ok(orders) => orders,
            Err(error) => {
                return Err(address_error(rt.alloc(), table.orders.as_str(), error.kind()));
            }
        };
        Ok(Opened {
            table,
            key,
            nodes,
            orders,
        })
    }

    /// Returns the path of the file that keeps the master's state.
    pub fn state(&self) -> &str {
        self.table.state.as_str()
    }

    /// Removes the socket for orders.
    pub fn close<R: Files>(&self, rt: &R) {
        // (the next master removes it, if this one cannot)
        let _ = fs::remove_file(rt, self.table.orders.as_str());
    }
}

/// Runs a master with this desk, until the input ends or brings the line `quit`. Prints on standard
/// error where it listens.
pub fn run_master<K, R, I, O>(
    rt: &R,
    opened: &Opened,
    desk: Desk<K>,
    input: &mut I,
    output: &mut O,
) -> Result<(), MasterError>
where
    K: Keeper + Send,
    R: Threads + Wait + Clock + RandomSource + Eprint + Sync + AllocGlobal,
    I: BufRead,
    O: Write,
{
    let Ok(now) = Instant::now(rt) else {
        return Err(MasterError::Clock);
    };
    let hall = Hall::new(rt.alloc(), opened.key.as_slice(), desk, now);
    if let Ok(address) = opened.nodes.local_addr() {
        let _ = eprintln!(rt; "vcluster: the master listens on {address}");
    }
    match serve(
        rt,
        &hall,
        &opened.nodes,
        Some(&opened.orders),
        input,
        output,
    ) {
        Ok(()) => {
            // (the master has ended, whether this can be printed or not)
            let _ = output.write_all(b"bye\n");
            let _ = output.flush();
            Ok(())
        }
        Err(ServeFault::Threads) => Err(MasterError::Threads),
        Err(ServeFault::Input) => Err(MasterError::Input),
    }
}

/// Returns the table in a file.
pub fn read_table<R: Files + AllocGlobal>(rt: &R, path: &str) -> Result<ClusterTable, MasterError> {
    let bytes = match fs::read(rt, path) {
        Ok(bytes) => bytes,
        Err(error) => return Err(file_error(rt.alloc(), path, error.kind())),
    };
    let Ok(text) = str::from_utf8(bytes.as_slice()) else {
        return Err(file_error(rt.alloc(), path, ErrorKind::InvalidData));
    };
    match table(rt.alloc(), text) {
        Ok(table) => Ok(table),
        Err(fault) => Err(MasterError::Table(fault)),
    }
}

/// Returns the desk whose state is in a file; without the file, that of a new cluster.
pub fn open_desk<'a, R>(rt: &'a R, path: &'a str) -> Result<Desk<StateFile<'a, R>>, MasterError>
where
    R: Files + RandomSource + AllocGlobal,
{
    let read = match read_state(rt, path) {
        Ok(read) => read,
        Err(error) => return Err(file_error(rt.alloc(), path, error.kind())),
    };
    let file = StateFile::new(rt, rt.alloc(), path)?;
    let opened = match read {
        Some(bytes) => told::resume(rt.alloc(), file, bytes.as_slice()),
        None => told::begin(rt.alloc(), file, new_name(rt)?),
    };
    match opened {
        Ok(desk) => Ok(desk),
        Err(error) => Err(state_error(rt.alloc(), path, error)),
    }
}

// Returns why there is no desk.
fn state_error(alloc: Global, path: &str, error: OpenError) -> MasterError {
    if error == OpenError::Memory {
        return MasterError::Memory;
    }
    match String::from_str(alloc, path) {
        Ok(path) => MasterError::State(path, error),
        Err(_) => MasterError::Memory,
    }
}

// Returns the name of a new cluster.
fn new_name<R: RandomSource>(rt: &R) -> Result<[u8; CLUSTER_BYTES], MasterError> {
    let mut name = [0; CLUSTER_BYTES];
    match rt.fill_bytes(&mut name) {
        Ok(()) => Ok(name),
        Err(_) => Err(MasterError::Random),
    }
}

/// Listens on an address. Accepting waits for a connection, or only looks for one.
pub fn listen<R>(rt: &R, address: &str, only_looks: bool) -> Result<TcpListener, MasterError>
where
    R: AllocGlobal + Net<Listener = TcpListener, Stream = TcpStream>,
{
    let bound = match TcpListener::bind(rt, address) {
        Ok(listener) => match listener.set_nonblocking(only_looks) {
            Ok(()) => Ok(listener),
            Err(error) => Err(error.kind()),
        },
        Err(error) => Err(error.kind()),
    };
    match bound {
        Ok(listener) => Ok(listener),
        Err(kind) => Err(address_error(rt.alloc(), address, kind)),
    }
}

// Returns the error of an address.
fn address_error(alloc: Global, address: &str, kind: ErrorKind) -> MasterError {
    match String::from_str(alloc, address) {
        Ok(address) => MasterError::Address(address, kind),
        Err(_) => MasterError::Memory,
    }
}
