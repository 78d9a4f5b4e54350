// How a node meets the other end of a connection.

ghost use Rattle.std.specs.Prelude.{◌≡◌, false, IfOk};

use crate::strangers::Stranger;
use crate::timed_stream::{PatientReader, StreamWriter, set_times};
use links::seal::{CLUSTER_BYTES, Hello, Membership, RANDOM_BYTES, RULES, Side};
use links::{Met, Party, shake};
use std::net::TcpStream;
use std::random::RandomSource;
use std::time::{Clock, Duration};

/// How long a handshake takes at most, and a link is silent, in milliseconds.
pub const SILENT_MILLIS: u64 = 3000;

/// How often something is written at least, and threads look at what they wait for, in
/// milliseconds.
pub const BEAT_MILLIS: u64 = 200;

/// What an end tells of itself.
#[derive(Clone, Copy)]
pub struct Introduction<'a> {
    /// Which end it is.
    pub side: Side,
    /// The key that all nodes have.
    pub key: &'a [u8],
    /// How it belongs to its cluster.
    pub membership: Membership,
    /// Its number; 0 for the master, and for a node that has none yet.
    pub number: u8,
}

impl<'a> Introduction<'a> {
    /// Returns what the node of this number tells.
    pub fn of_node(
        side: Side,
        key: &'a [u8],
        cluster: [u8; CLUSTER_BYTES],
        number: u8,
    ) -> Introduction<'a> {
        Introduction {
            side,
            key,
            membership: Membership::Node(cluster),
            number,
        }
    }
}

/// Meets the other end of a connection, which has to prove within three seconds that it has the
/// key. Sets how long its reads wait.
pub fn meet<R: Clock + RandomSource>(
    rt: &R,
    own: &Introduction,
    stream: &TcpStream,
    beat: Duration,
) -> Result<Met, Stranger>
    ensures { IfOk result (λ met. met.opener.failed ≡ false) }
{
    let mut random = [0; RANDOM_BYTES];
    if set_times(stream, beat).is_err() || rt.fill_bytes(&mut random).is_err() {
        return Err(Stranger::Fault);
    }
    let party = Party {
        side: own.side,
        key: own.key,
        hello: Hello {
            rules: RULES,
            cluster: own.membership.cluster(),
            number: own.number,
            random,
        },
        membership: own.membership,
    };
    let mut input = PatientReader::new(rt, stream, Duration::from_millis(SILENT_MILLIS));
    match shake(&party, &mut input, &mut StreamWriter::new(stream)) {
        Ok(met) => Ok(met),
        Err(fault) => Err(Stranger::Handshake(fault)),
    }
}
