// Opening connections.

use std::net::{Net, SocketAddr, TcpStream, ToSocketAddrs};
use std::time::Duration;

/// How long a connection may take to open, in milliseconds.
const DIAL_MILLIS: u64 = 1000;

/// Opens connections. That threads may share what does is proved of each runtime, so it is made
/// where the runtime is known.
pub trait Dials {
    /// Opens a connection to the first address of a text, as `10.0.0.1:1881`, within a second.
    fn open(&self, text: &str) -> Option<(TcpStream, SocketAddr)>;
}

/// Opens connections of the system.
#[derive(Drop)]
pub struct NetDials<'a, R> {
    net: &'a R,
}

impl<'a, R> NetDials<'a, R> {
    /// Returns what opens connections of this network.
    pub fn new(net: &'a R) -> NetDials<'a, R> {
        NetDials { net }
    }
}

impl<'a, R: Net<Stream = TcpStream>> Dials for NetDials<'a, R> {
    fn open(&self, text: &str) -> Option<(TcpStream, SocketAddr)> {
        let address = text.to_socket_addrs(self.net).ok()?.next()?;
        let patience = Duration::from_millis(DIAL_MILLIS);
        let stream = TcpStream::connect_timeout(self.net, &address, patience).ok()?;
        Some((stream, address))
    }
}
