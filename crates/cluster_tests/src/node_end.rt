// A node's end of a link to the master, over loopback.

use ballot_base::{Body, Message, Role, Status};
use link_threads::{Introduction, Parcels, meet};
use links::seal::{CLUSTER_BYTES, Membership, Side};
use links::{LinkReader, LinkWriter, Parcel, Way, read_link};
use std::net::{Net, SocketAddr, TcpStream};
use std::random::RandomSource;
use std::sync::Wait;
use std::time::{Clock, Duration};

/// How long a read waits, in milliseconds.
const READ_MILLIS: u64 = 5000;

/// The key that all nodes have.
pub const KEY: &[u8] = b"a key that all nodes have, 32 by";

/// How many parcels and signs of life are read at most until the one that is wanted comes.
const READS: usize = 200;

/// A node's end.
#[derive(Drop)]
pub struct NodeEnd<'a, R: Wait> {
    stream: TcpStream,
    reader: LinkReader,
    writer: LinkWriter,
    // What a read brought, and what was not looked at of it.
    came: Parcels<'a, R>,
    parcels: Vec<Parcel>,
    /// The cluster of the master.
    pub cluster: [u8; CLUSTER_BYTES],
}

/// Opens a connection of which a read ends after five seconds.
pub fn connect<R: Net<Stream = TcpStream>>(rt: &R, address: SocketAddr) -> Option<TcpStream> {
    let stream = TcpStream::connect(rt, address).ok()?;
    stream
        .set_read_timeout(Some(Duration::from_millis(READ_MILLIS)))
        .ok()?;
    Some(stream)
}

impl<'a, R: AllocGlobal + Wait + Clock + RandomSource> NodeEnd<'a, R> {
    /// Meets the master as a node that tells this number and this cluster.
    pub fn meet(
        rt: &'a R,
        stream: TcpStream,
        number: u8,
        membership: Membership,
    ) -> Option<NodeEnd<'a, R>> {
        let own = Introduction {
            side: Side::Dialler,
            key: KEY,
            membership,
            number,
        };
        let met = meet(rt, &own, &stream, Duration::from_millis(READ_MILLIS)).ok()?;
        let cluster = met.other.cluster;
        Some(NodeEnd {
            reader: LinkReader::new(rt.alloc(), met.opener, Way::MasterToNode),
            writer: LinkWriter::new(rt.alloc(), met.sealer),
            came: Parcels::new(rt, rt.alloc()),
            parcels: Vec::new(rt.alloc()),
            cluster,
            stream,
        })
    }

    // Reads once. Returns none at the end of the connection.
    fn read(&mut self) -> Option<()> {
        let mut buffer = [0; 256];
        let mut source = &self.stream;
        read_link(&mut self.reader, &mut source, &mut buffer, &mut self.came).ok()?;
        for parcel in self.came.take_all() {
            self.parcels.push(parcel).ok()?;
        }
        Some(())
    }

    /// Returns the next parcel; none if the connection ends before, or 200 reads bring none.
    pub fn next(&mut self) -> Option<Parcel> {
        for _ in 0..READS {
            if !self.parcels.is_empty() {
                return Some(self.parcels.remove(0));
            }
            self.read()?;
        }
        None
    }

    /// Returns true if the connection ends within this many reads.
    pub fn ends(&mut self, reads: usize) -> bool {
        for _ in 0..reads {
            if self.read().is_none() {
                return true;
            }
        }
        false
    }

    /// Sends a parcel.
    pub fn send(&mut self, parcel: &Parcel) -> Option<()> {
        let mut target = &self.stream;
        self.writer.add(parcel).ok()?;
        self.writer.write(&mut target).ok()
    }

    /// Reports that the node is the active primary of this ballot.
    pub fn report(&mut self, ballot: u64) -> Option<()> {
        self.send(&Parcel::Report(Status {
            ballot,
            role: Role::Active,
            held: 5,
            committed: 4,
            stopped: false,
        }))
    }

    /// Asks the master to activate a ballot, as the node of this number.
    pub fn activate(&mut self, number: u8, ballot: u64) -> Option<()> {
        self.send(&Parcel::Message(Message {
            from: number,
            body: Body::Activate(ballot),
        }))
    }
}

/// Returns the number in a Welcome.
pub fn welcomed(parcel: Option<Parcel>) -> Option<u8> {
    match parcel {
        Some(Parcel::Welcome(number)) => Some(number),
        _ => None,
    }
}

/// Returns the kind of a message of the master and its ballot: N for NewBallot, A for Activated, S
/// for Superseded.
pub fn told(parcel: Option<Parcel>) -> Option<(char, u64)> {
    let Some(Parcel::Message(message)) = parcel else {
        return None;
    };
    match message.body {
        Body::NewBallot(ballot, _, _, _) => Some(('N', ballot)),
        Body::Activated(ballot) => Some(('A', ballot)),
        Body::Superseded(ballot) => Some(('S', ballot)),
        _ => None,
    }
}
