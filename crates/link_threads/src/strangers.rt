// Connections that are no links: they are told of in at most one line a minute. So are the ends of
// links that memory, a message too large or a fault brought.

use crate::cause::Cause;
use crate::far_end::FarEnd;
use links::HandshakeFault;
use std::fmt;
use std::net::SocketAddr;
use std::sync::{Mutex, Wait};

/// How often strangers are named at most, in milliseconds.
const STRANGER_MILLIS: u64 = 60_000;

/// Why a connection is no link of a node.
#[derive(Clone, Copy, Debug, PartialEq, Eq)]
pub enum Stranger {
    /// The two ends do not meet.
    Handshake(HandshakeFault),
    /// It tells this number, which the other end of this link cannot have.
    Number(u8),
    /// All links of those that dial this node are up.
    Full,
    /// An older link of this life is up, which ends now.
    Linked(u8),
    /// The master met the node, and gave it no number: it has none left, could not keep its state,
    /// or ends.
    Unwelcome,
    /// The connection, the random bytes or memory failed.
    Fault,
}

impl fmt::Display for Stranger {
    fn fmt<W: fmt::Write>(&self, f: &mut fmt::Formatter<W>) -> fmt::Result {
        match self {
            Stranger::Handshake(fault) => write!(f, "{fault}"),
            Stranger::Number(number) => write!(f, "it has the number {number}"),
            Stranger::Full => write!(f, "all links are up"),
            Stranger::Linked(number) => write!(f, "an older link of node {number} is up"),
            Stranger::Unwelcome => write!(f, "it gave none: it has none left, or it ends"),
            Stranger::Fault => write!(f, "the connection failed"),
        }
    }
}

/// When strangers were named.
#[derive(Drop)]
pub struct Strangers {
    // When one was named last, in milliseconds.
    named: Mutex<Option<u64>>,
}

impl Strangers {
    /// Returns that none was named.
    pub fn new() -> Strangers {
        Strangers {
            named: Mutex::new(None),
        }
    }

    /// Returns true if one may be named now, a minute or more after the last, and notes that it is.
    pub fn may_name<R: Wait>(&self, rt: &R, now: u64) -> bool {
        let mut named = self.named.lock(rt);
        let is_due = match *named {
            Some(last) => now.saturating_sub(last) >= STRANGER_MILLIS,
            None => true,
        };
        if is_due {
            *named = Some(now);
        }
        is_due
    }

    /// Names one on standard error, if one may be named now.
    pub fn name<R: Wait + Eprint>(
        &self,
        rt: &R,
        now: u64,
        address: SocketAddr,
        stranger: Stranger,
    ) {
        if self.may_name(rt, now) {
            // There is nowhere else to print it.
            let _ = eprintln!(rt; "vcluster: no link to {address}: {stranger}");
        }
    }

    /// Names on standard error why a link ends, if that may be named now.
    pub(crate) fn name_end<R: Wait + Eprint>(
        &self,
        rt: &R,
        now: u64,
        far: FarEnd,
        number: u8,
        cause: Cause,
    ) {
        if self.may_name(rt, now) {
            // There is nowhere else to print it.
            let _ = eprintln!(rt; "vcluster: the link to {far}, number {number}, ended: {cause}");
        }
    }
}
