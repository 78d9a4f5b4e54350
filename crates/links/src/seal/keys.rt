// The keys of a connection.

ghost use Rattle.std.specs.Prelude.{◌≡◌, ◌↔◌, true, false};
ghost use Rattle.links.specs.seal.Keys.{derived, derived_at, other_side, proves, purpose_byte, seals};

use crate::seal::frames::{Opener, Sealer};
use crate::seal::hello::HELLO_BYTES;
use crate::seal::keyed_hash::hmac;

/// What a key of a connection is for. Either end has two: one proves at the beginning that it has
/// the key of all nodes, the other seals the frames that it sends.
#[derive(Clone, Copy, Debug, PartialEq, Eq)]
pub enum Purpose {
    /// The end that dialled proves that it has the key.
    ProvesDialler,
    /// The end that listened proves it.
    ProvesListener,
    /// Seals the frames of the end that dialled.
    SealsDialler,
    /// Seals the frames of the end that listened.
    SealsListener,
}

impl Purpose {
    /// Returns the byte of this purpose, the first under the key.
    pub fn byte(self) -> u8
        ensures { result ≡ purpose_byte self }
    {
        match self {
            Purpose::ProvesDialler => 0,
            Purpose::ProvesListener => 1,
            Purpose::SealsDialler => 2,
            Purpose::SealsListener => 3,
        }
    }
}

/// Returns the 32 bytes for a purpose in the connection of these two ends, from the key that all
/// nodes have and the hellos of both, that of the end that dialled first.
pub fn derived(key: &[u8], purpose: Purpose, dialler: &[u8], listener: &[u8]) -> [u8; 32]
    ensures { result ≡ derived key.now purpose dialler.now listener.now }
{
    hmac(key, &[purpose.byte()], dialler, listener)
}

/// Which end of a connection.
#[derive(Clone, Copy, Debug, PartialEq, Eq)]
pub enum Side {
    /// The end that dialled.
    Dialler,
    /// The end that listened.
    Listener,
}

impl Side {
    /// Returns the other end.
    pub fn other(self) -> Side
        ensures { result ≡ other_side self }
    {
        match self {
            Side::Dialler => Side::Listener,
            Side::Listener => Side::Dialler,
        }
    }

    fn proves(self) -> Purpose
        ensures { result ≡ proves self }
    {
        match self {
            Side::Dialler => Purpose::ProvesDialler,
            Side::Listener => Purpose::ProvesListener,
        }
    }

    fn seals(self) -> Purpose
        ensures { result ≡ seals self }
    {
        match self {
            Side::Dialler => Purpose::SealsDialler,
            Side::Listener => Purpose::SealsListener,
        }
    }
}

/// The bytes of a hello.
type HelloBytes = [u8; HELLO_BYTES];

// Returns the 32 bytes for a purpose at an end, from the hellos that it sent and received.
fn derived_at(
    side: Side,
    key: &[u8],
    purpose: Purpose,
    own: &HelloBytes,
    other: &HelloBytes,
) -> [u8; 32]
    ensures { result ≡ derived_at side key.now purpose own.now other.now }
{
    match side {
        Side::Dialler => derived(key, purpose, own, other),
        Side::Listener => derived(key, purpose, other, own),
    }
}

/// Returns the bytes by which this end proves that it has the key, once it has both hellos.
pub fn proof(side: Side, key: &[u8], own: &HelloBytes, other: &HelloBytes) -> [u8; 32]
    ensures { result ≡ derived_at side key.now (proves side) own.now other.now }
{
    derived_at(side, key, side.proves(), own, other)
}

/// Returns true if these are the bytes by which the other end proves that it has the key. Each byte
/// is looked at.
pub fn is_proof(
    side: Side,
    key: &[u8],
    own: &HelloBytes,
    other: &HelloBytes,
    given: &[u8; 32],
) -> bool
    ensures { (result ≡ true) ↔ (given.now
        ≡ derived_at side key.now (proves (other_side side)) own.now other.now) }
{
    are_equal(
        given,
        &derived_at(side, key, side.other().proves(), own, other),
    )
}

/// Returns what seals the frames that this end sends, and what opens those that it receives.
pub fn session(side: Side, key: &[u8], own: &HelloBytes, other: &HelloBytes) -> (Sealer, Opener)
    ensures sends { result.0
        ≡ record { key = derived_at side key.now (seals side) own.now other.now; next = 0 } }
    ensures receives { result.1 ≡ record {
      place = record {
        key = derived_at side key.now (seals (other_side side)) own.now other.now;
        next = 0;
      };
      failed = false;
    } }
{
    let sends = derived_at(side, key, side.seals(), own, other);
    let receives = derived_at(side, key, side.other().seals(), own, other);
    (Sealer::new(sends), Opener::new(receives))
}

// Returns true if two arrays are equal. Each byte is looked at, so that the time says nothing of
// where they differ.
fn are_equal(first: &[u8; 32], second: &[u8; 32]) -> bool
    ensures { (result ≡ true) ↔ (first.now ≡ second.now) }
{
    let mut is_equal = true;
    'bytes: for index in 0..32 {
        is_equal &= first[index] == second[index];
    }
    is_equal
}
