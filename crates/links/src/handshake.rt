// How two ends of a connection begin.
//
// Each end writes its hello and reads the other's, then writes its proof and reads the other's. No
// more is read than these 87 bytes, so none of a frame is lost. A fault of the hello is found once
// its bytes are there. The order in which bytes are read and written is the same at both ends, and
// no end waits for more than what the other writes first.

ghost use Rattle.std.specs.Prelude.{◌≡◌, ◌≢◌, ◌++◌, ◌≤◌, ◌<◌, Ok, Err, length, IfOk, IfErr, IfSome, OnOk, OnErr};
ghost use Rattle.std.specs.Io.KnownBytes.{Appends, Consumes, Keeps};
ghost use Rattle.links.specs.seal.Hellos.{hello_bytes, hello_of};
ghost use Rattle.links.specs.seal.Keys.{derived_at, proves};
ghost use Rattle.links.specs.Devices.{WritesPrefix};
ghost use Rattle.links.specs.Handshakes.{FailsSo, HelloFails, IsOfDevice, Meets};
ghost use Rattle.links.specs.Handshakes.{ReadsBehind, WritesSome};

use crate::devices::{DeviceFault, read_piece, write_whole};
use crate::seal::{
    HELLO_BYTES, Hello, HelloFault, Membership, Opener, Sealer, Side, is_proof, proof, session,
};
use std::error::Error;
use std::fmt;
use std::io::{ErrorKind, Read, Write};

/// Bytes of a proof.
const PROOF_BYTES: usize = 32;

/// Why two ends do not meet.
#[derive(Clone, Copy, Debug, PartialEq, Eq)]
pub enum HandshakeFault {
    /// The other end's hello has this first fault.
    Hello(HelloFault),
    /// The other end does not prove that it has the key.
    Proof,
    /// The device gives or takes no more bytes.
    Device(DeviceFault),
}

impl fmt::Display for HandshakeFault {
    fn fmt<W: fmt::Write>(&self, f: &mut fmt::Formatter<W>) -> fmt::Result {
        match self {
            HandshakeFault::Hello(fault) => write!(f, "{fault}"),
            HandshakeFault::Proof => write!(f, "the other end does not prove that it has the key"),
            HandshakeFault::Device(fault) => write!(f, "{fault}"),
        }
    }
}

impl Error for HandshakeFault {}

/// Two ends that have met: the other's hello, and what seals and opens frames from now on.
#[derive(Drop)]
pub struct Met {
    /// The hello of the other end: its number, and its cluster.
    pub other: Hello,
    /// Seals what this end writes.
    pub sealer: Sealer,
    /// Opens what it reads.
    pub opener: Opener,
}

/// What an end says of itself, and which ends it accepts.
#[derive(Drop)]
pub struct Party<'a> {
    /// Which end it is.
    pub side: Side,
    /// The key that all nodes have.
    pub key: &'a [u8],
    /// Its hello, with bytes that were drawn for this connection.
    pub hello: Hello,
    /// How it belongs to its cluster, whose hello this is.
    pub membership: Membership,
}

/// Begins a connection: sends this end's hello, and proves that it has the key, and takes the same
/// of the other end. A stream that is read and written is given as both devices.
pub fn shake<R: Read, W: Write>(
    party: &Party,
    input: &mut R,
    output: &mut W,
) -> Result<Met, HandshakeFault>
    ensures meets { IfOk result (λ met. Meets
        party.now.side party.now.key.now party.now.hello party.now.membership
        (R.remaining input.old) (R.remaining input.new)
        (W.contents output.old) (W.contents output.new) met.other met.sealer met.opener) }
    ensures fails { IfErr result (FailsSo
        party.now.side party.now.key.now party.now.hello party.now.membership
        (R.remaining input.old) (R.remaining input.new)) }
    ensures some { OnErr result (WritesSome party.now.side party.now.key.now party.now.hello
        (W.contents output.old) (W.contents output.new)) }
{
    let own = party.hello.bytes();
    send(output, &own)?;
    let (other, said) = receive_hello(party.hello.rules, party.membership, input)?;
    send(output, &proof(party.side, party.key, &own, &said))?;
    let given = receive_proof(input)?;
    if !is_proof(party.side, party.key, &own, &said, &given) {
        return Err(HandshakeFault::Proof);
    }
    let (sealer, opener) = session(party.side, party.key, &own, &said);
    Ok(Met {
        other,
        sealer,
        opener,
    })
}

// Writes all bytes.
fn send<W: Write>(output: &mut W, bytes: &[u8]) -> Result<(), HandshakeFault>
    ensures whole { OnOk result
        (Appends (W.contents output.old) (W.contents output.new) bytes.now) }
    ensures prefix { WritesPrefix
        (W.contents output.old) (W.contents output.new) bytes.now }
    ensures device { IfErr result IsOfDevice }
{
    match write_whole(output, bytes) {
        Ok(()) => Ok(()),
        Err(fault) => Err(HandshakeFault::Device(fault)),
    }
}

// Reads a hello of 55 bytes, or up to its first fault.
fn receive_hello<R: Read>(
    rules: u32,
    membership: Membership,
    input: &mut R,
) -> Result<(Hello, [u8; HELLO_BYTES]), HandshakeFault>
    ensures said { IfOk result (λ met. hello_of rules membership met.1 ≡ Ok met.0) }
    ensures size { IfOk result (λ met. length met.1 ≡ 55) }
    ensures read { IfOk result (λ met.
        Consumes (R.remaining input.old) (R.remaining input.new) met.1) }
    ensures fails { IfErr result (HelloFails rules membership
        (R.remaining input.old) (R.remaining input.new)) }
{
    let mut bytes = [0; HELLO_BYTES];
    let mut end = 0;
    while end < HELLO_BYTES {
        end = match read_behind(input, &mut bytes, end) {
            Ok(end) => end,
            Err(fault) => return Err(HandshakeFault::Device(fault)),
        };
        if let Some(fault) = fault_at(&bytes[..end], rules, membership) {
            return Err(HandshakeFault::Hello(fault));
        }
    }
    match Hello::read(&bytes, rules, membership) {
        Ok(hello) => Ok((hello, bytes)),
        Err(fault) => Err(HandshakeFault::Hello(fault)),
    }
}

// Returns the fault of the front of a hello, if it has one.
fn fault_at(front: &[u8], rules: u32, membership: Membership) -> Option<HelloFault>
    ensures { IfSome result (λ fault. (fault ≢ HelloFault.Unfinished)
        × (hello_of rules membership front.now ≡ Err fault)) }
{
    match Hello::read(front, rules, membership) {
        Ok(_) | Err(HelloFault::Unfinished) => None,
        Err(fault) => Some(fault),
    }
}

// Reads into the bytes from `from` on. Returns where the bytes that were read end.
fn read_behind<R: Read>(
    input: &mut R,
    bytes: &mut [u8; HELLO_BYTES],
    from: usize,
) -> Result<usize, DeviceFault>
    requires { from < 55 }
    ensures read { IfOk result (λ end. ReadsBehind from bytes.old end bytes.new
        (R.remaining input.old) (R.remaining input.new)) }
    ensures kept { OnErr result (Keeps (R.remaining input.old) (R.remaining input.new)) }
{
    let (_, room) = bytes.split_at_mut(from);
    let count = read_piece(input, room)?;
    Ok(from + count)
}

// Reads a proof.
fn receive_proof<R: Read>(input: &mut R) -> Result<[u8; PROOF_BYTES], HandshakeFault>
    ensures read { IfOk result (λ given.
        Consumes (R.remaining input.old) (R.remaining input.new) given) }
    ensures size { IfOk result (λ given. length given ≡ 32) }
    ensures device { IfErr result IsOfDevice }
{
    let mut given = [0; PROOF_BYTES];
    match input.read_exact(&mut given) {
        Ok(()) => Ok(given),
        Err(error) if error.kind() == ErrorKind::UnexpectedEof => {
            Err(HandshakeFault::Device(DeviceFault::Ended))
        }
        Err(_) => Err(HandshakeFault::Device(DeviceFault::Failed)),
    }
}
