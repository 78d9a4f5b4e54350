// Asking the master for a number.

ghost use Rattle.std.specs.Prelude.{◌≡◌, false};

use crate::dials::Dials;
use crate::meeting::{BEAT_MILLIS, Introduction, SILENT_MILLIS, meet};
use crate::parcels::Parcels;
use crate::strangers::Stranger;
use crate::timed_stream::BeatReader;
use links::seal::{CLUSTER_BYTES, Membership, Side};
use links::{LinkReader, Met, Parcel, Way, read_link};
use std::net::TcpStream;
use std::random::RandomSource;
use std::sync::Wait;
use std::time::{Clock, Duration};

/// A new life of a node, as its master said. Only [`ask_number`] makes one.
#[derive(Clone, Copy, Debug, PartialEq, Eq)]
pub struct Welcome {
    number: u8,
    cluster: [u8; CLUSTER_BYTES],
}

impl Welcome {
    /// Returns the number, which no other start of a node in this cluster got.
    pub fn number(&self) -> u8 {
        self.number
    }

    /// Returns the name of the cluster.
    pub fn cluster(&self) -> [u8; CLUSTER_BYTES] {
        self.cluster
    }
}

/// The most bytes of a read.
const CHUNK: usize = 4096;

/// Asks the master at this address for a number. `Unwelcome` comes if it ends the connection
/// without one, as it does when no number is left, or says nothing for three seconds.
pub fn ask_number<R, D>(rt: &R, dials: &D, key: &[u8], text: &str) -> Result<Welcome, Stranger>
where
    R: AllocGlobal + Wait + Clock + RandomSource,
    D: Dials,
{
    let Some((stream, _)) = dials.open(text) else {
        return Err(Stranger::Fault);
    };
    let own = Introduction {
        side: Side::Dialler,
        key,
        membership: Membership::Newcomer,
        number: 0,
    };
    let met = meet(rt, &own, &stream, Duration::from_millis(BEAT_MILLIS))?;
    if met.other.number != 0 {
        return Err(Stranger::Number(met.other.number));
    }
    await_welcome(rt, &stream, met)
}

// Reads until the master welcomes the node.
fn await_welcome<R>(rt: &R, stream: &TcpStream, met: Met) -> Result<Welcome, Stranger>
where
    R: AllocGlobal + Wait + Clock,
    requires { met.opener.failed ≡ false }
{
    let cluster = met.other.cluster;
    let mut reader = LinkReader::new(rt.alloc(), met.opener, Way::MasterToNode);
    let mut input = BeatReader::new(stream);
    let mut parcels = Parcels::new(rt, rt.alloc());
    for _ in 0..SILENT_MILLIS / BEAT_MILLIS {
        let mut buffer = [0; CHUNK];
        let read = read_link(&mut reader, &mut input, &mut buffer, &mut parcels);
        if let Some(number) = welcomed(parcels.take_all()) {
            return Ok(Welcome { number, cluster });
        }
        if read.is_err() && !input.is_idle() {
            return Err(Stranger::Unwelcome);
        }
    }
    Err(Stranger::Unwelcome)
}

// Returns the number of the first Welcome.
fn welcomed(parcels: Vec<Parcel>) -> Option<u8> {
    for parcel in parcels {
        if let Parcel::Welcome(number) = parcel {
            return Some(number);
        }
    }
    None
}
