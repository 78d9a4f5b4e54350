// The hello with which each end of a connection begins.

ghost use Rattle.std.specs.Prelude.{◌≡◌, ◌≤◌, ◌+◌, ◌++◌, length, take, drop};
ghost use Rattle.links.specs.seal.Clusters.{accepts, cluster_of};
ghost use Rattle.links.specs.seal.Hellos.{hello_bytes, hello_at, hello_of, version_at, rules_at};
ghost use Rattle.links.specs.seal.Hellos.{version_checked, rules_checked, cluster_checked, cluster_at};

use crate::seal::membership::{CLUSTER_BYTES, Membership};
use std::error::Error;
use std::fmt;

/// Bytes of a hello.
pub const HELLO_BYTES: usize = 55;

/// The version of what nodes send each other.
pub const VERSION: u16 = 1;

/// Random bytes of a hello, which make the keys of each connection differ.
pub const RANDOM_BYTES: usize = 32;

// The sum of its definitions: bad42b892f4699b882fb0167f4a002c11a15fa1bb3c8c894969b9f8796d43eba
/// The number of the rules that all members of one cluster have to share: what commands mean, how
/// replicas agree on them, and the bytes of both. A change of these raises it, so that ends of
/// other rules refuse each other; `tools/rules` tells that they have changed.
pub const RULES: u32 = 1;

// Where the parts of a hello begin; its version is the first.
const RULES_AT: usize = 2;

const CLUSTER_AT: usize = 6;

const NUMBER_AT: usize = 22;

const RANDOM_AT: usize = 23;

/// What an end of a connection says first.
#[derive(Clone, Copy, Debug, PartialEq, Eq)]
pub struct Hello {
    /// The number of the rules by which its broker and its protocol work.
    pub rules: u32,
    /// The cluster to which it belongs; [`crate::seal::NO_CLUSTER`] if it does not know it yet.
    pub cluster: [u8; CLUSTER_BYTES],
    /// Its number; 0 is the master.
    pub number: u8,
    /// Bytes that were drawn for this connection.
    pub random: [u8; RANDOM_BYTES],
}

/// Why bytes are no hello of an end with which this one can speak.
#[derive(Clone, Copy, Debug, PartialEq, Eq)]
pub enum HelloFault {
    /// They are the beginning of one.
    Unfinished,
    /// It speaks this other version.
    Version(u16),
    /// It works by these other rules.
    Rules(u32),
    /// It belongs to another cluster, or does not know its own where it has to.
    Cluster,
}

impl fmt::Display for HelloFault {
    fn fmt<W: fmt::Write>(&self, f: &mut fmt::Formatter<W>) -> fmt::Result {
        match self {
            HelloFault::Unfinished => write!(f, "the hello is not whole"),
            HelloFault::Version(version) => {
                write!(
                    f,
                    "the other end speaks version {version}, and this one {VERSION}"
                )
            }
            HelloFault::Rules(rules) => write!(f, "the other end has rules {rules}"),
            HelloFault::Cluster => write!(f, "the other end belongs to another cluster"),
        }
    }
}

impl Error for HelloFault {}

impl Hello {
    /// Returns the bytes of the hello.
    pub fn bytes(&self) -> [u8; HELLO_BYTES]
        ensures { result ≡ hello_bytes self.now }
    {
        let mut bytes = [0; HELLO_BYTES];
        put(&mut bytes, 0, &VERSION.to_be_bytes());
        put(&mut bytes, RULES_AT, &self.rules.to_be_bytes());
        put(&mut bytes, CLUSTER_AT, &self.cluster);
        put(&mut bytes, NUMBER_AT, &[self.number]);
        put(&mut bytes, RANDOM_AT, &self.random);
        bytes
    }

    /// Returns the hello at the front of these bytes, for an end of these rules that belongs to its
    /// cluster so. The first fault counts, and each is found once its bytes are there; bytes after
    /// the hello are not looked at.
    pub fn read(bytes: &[u8], rules: u32, membership: Membership) -> Result<Hello, HelloFault>
        ensures { result ≡ hello_of rules membership bytes.now }
    {
        check_version(bytes)?;
        check_rules(bytes, rules)?;
        check_cluster(bytes, membership)?;
        if bytes.len() < HELLO_BYTES {
            return Err(HelloFault::Unfinished);
        }
        Ok(hello_at(bytes))
    }
}

// Writes a part of a hello at its place.
fn put(bytes: &mut [u8; HELLO_BYTES], at: usize, part: &[u8])
    requires { at + length part.now ≤ 55 }
    ensures { take (at + length part.now) bytes.new ≡ take at bytes.old ++ part.now }
{
    bytes[at..at + part.len()].copy_from_slice(part);
}

// Refuses every version but the own.
fn check_version(bytes: &[u8]) -> Result<(), HelloFault>
    ensures { result ≡ version_checked bytes.now }
{
    if bytes.len() < RULES_AT {
        return Err(HelloFault::Unfinished);
    }
    let version = u16::from_be_bytes([bytes[0], bytes[1]]);
    if version != VERSION {
        return Err(HelloFault::Version(version));
    }
    Ok(())
}

// Refuses other rules.
fn check_rules(bytes: &[u8], rules: u32) -> Result<(), HelloFault>
    ensures { result ≡ rules_checked rules bytes.now }
{
    if bytes.len() < CLUSTER_AT {
        return Err(HelloFault::Unfinished);
    }
    let other = rules_at(bytes);
    if other != rules {
        return Err(HelloFault::Rules(other));
    }
    Ok(())
}

// Refuses a cluster that this end does not accept.
fn check_cluster(bytes: &[u8], membership: Membership) -> Result<(), HelloFault>
    ensures { result ≡ cluster_checked membership bytes.now }
{
    if bytes.len() < NUMBER_AT {
        return Err(HelloFault::Unfinished);
    }
    if !membership.accepts(&cluster_at(bytes)) {
        return Err(HelloFault::Cluster);
    }
    Ok(())
}

// Returns a whole hello.
fn hello_at(bytes: &[u8]) -> Hello
    requires { 55 ≤ length bytes.now }
    ensures { result ≡ hello_at bytes.now }
{
    Hello {
        rules: rules_at(bytes),
        cluster: cluster_at(bytes),
        number: bytes[NUMBER_AT],
        random: random_at(bytes),
    }
}

// Returns the number of the rules.
fn rules_at(bytes: &[u8]) -> u32
    requires { 6 ≤ length bytes.now }
    ensures { result ≡ rules_at bytes.now }
{
    u32::from_be_bytes([bytes[2], bytes[3], bytes[4], bytes[5]])
}

// Returns the cluster.
fn cluster_at(bytes: &[u8]) -> [u8; CLUSTER_BYTES]
    requires { 22 ≤ length bytes.now }
    ensures { result ≡ cluster_at bytes.now }
{
    let mut cluster = [0; CLUSTER_BYTES];
    cluster.copy_from_slice(&bytes[CLUSTER_AT..NUMBER_AT]);
    cluster
}

// Returns the random bytes.
fn random_at(bytes: &[u8]) -> [u8; RANDOM_BYTES]
    requires { 55 ≤ length bytes.now }
    ensures { result ≡ take 32 (drop 23 bytes.now) }
{
    let mut random = [0; RANDOM_BYTES];
    let (_, behind) = bytes.split_at(RANDOM_AT);
    let (front, _) = behind.split_at(RANDOM_BYTES);
    random.copy_from_slice(front);
    random
}
