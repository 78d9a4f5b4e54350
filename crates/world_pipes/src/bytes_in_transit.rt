// Bytes in transit in one direction.

ghost use Rattle.std.specs.Prelude.{◌≡◌, ◌++◌, ◌≤◌, [], drop, length, OnOk, OnErr, IsErrOf};

use client::ClientCore;
use client_base::ClientError;
use std::alloc::Global;
use std::marker::Model;
use std::mem;

/// Bytes in transit in one direction, in order.
#[derive(Drop)]
pub struct BytesInTransit {
    // The bytes in transit, after those that have arrived and are not yet reclaimed.
    bytes: Vec<u8>,
    // How many bytes at the front have arrived.
    come: usize,
}

impl Model for BytesInTransit {
    ghost use Rattle.std.specs.Prelude.{List, ℕ, ◌≤◌, drop, length};

    ghost Value = { List ℕ };

    ghost view = { λ pair. drop pair.come pair.bytes.items };

    ghost invariant = { λ pair. pair.come ≤ length pair.bytes.items };
}

impl BytesInTransit {
    /// Returns an empty buffer.
    pub fn new(alloc: Global) -> BytesInTransit
        ensures { result ≡ [] }
    {
        BytesInTransit {
            bytes: Vec::new(alloc),
            come: 0,
        }
    }

    /// Returns the bytes in transit.
    pub fn as_slice(&self) -> &[u8]
        ensures { result.now ≡ self.now }
    {
        &self.bytes[self.come..]
    }

    /// Removes the first `count` bytes: they have arrived.
    pub fn take(&mut self, count: usize)
        requires { count ≤ length self.old }
        ensures { self.new ≡ drop count self.old }
    {
        self.come += count;
        // Memory is reclaimed once half of it is free, so a byte is moved at most twice.
        if self.come >= self.bytes.len() - self.come {
            self.close_up();
        }
    }

    /// Exchanges the bytes in transit for `bytes`.
    pub fn swap(&mut self, bytes: &mut Vec<u8>)
        ensures left { self.new ≡ bytes.old.items }
        ensures given { bytes.new.items ≡ self.old }
    {
        self.bytes.drain(..self.come);
        self.come = 0;
        mem::swap(&mut self.bytes, bytes);
    }

    /// Appends what the client wrote. If memory runs out, nothing changes.
    pub fn follow(&mut self, core: &mut ClientCore) -> Result<(), ClientError>
        ensures bytes { OnOk result (self.new ≡ self.old ++ core.old.out) }
        ensures ok { OnOk result (core.new ≡ record core.old { out = [] }) }
        ensures memory { OnErr result (IsErrOf result ClientError.Memory) }
        ensures same { OnErr result (self.new ≡ self.old) }
        ensures err { OnErr result (core.new ≡ core.old) }
    {
        core.outgoing(&mut self.bytes)
    }

    // Reclaims the memory of the bytes that have arrived.
    fn close_up(&mut self)
        ensures { self.new ≡ self.old }
    {
        self.bytes.drain(..self.come);
        self.come = 0;
    }
}
