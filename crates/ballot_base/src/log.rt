// A log as replicas keep it and as messages carry it: a snapshot, and the commands after it.
//
// Invariants: places count from 0 as if nothing had been cut, and `base` plus the length of `rest`
// is below 2^64, so a length never overflows. At base 0 there is no snapshot (the replica keeps
// that, not the log). `cut` raises the base, `take_rest` replaces everything after it, and
// otherwise commands are only added and removed at the end.
//
// The snapshot is bytes, not a machine: a message carries it as it is, and the receiver thaws it
// before it changes anything. Copies of a log share these bytes.

ghost use Rattle.std.specs.Prelude.{◌≡◌, [], ◌≤◌, ◌<◌, ◌+◌, ◌-◌, ◌^◌, length, drop, OnOk, OnErr};
ghost use Rattle.ballot_base.specs.Logs.{empty_log, places, popped, pushed};

use bytes::Bytes;
use machine::Memory;
use std::alloc::Global;
use std::marker::Model;

/// A log: the commands from `base` on, and the frozen machine in place of those below it. Places
/// count from 0. At base 0 there is no snapshot.
pub struct Log<C> {
    // How many places the snapshot stands for. `base` plus the length of `rest` is below 2^64.
    base: u64,
    // The frozen machine after these places.
    snapshot: Bytes,
    rest: Vec<C>,
}

impl<C: Drop> Drop for Log<C> {
    fn drop(self) {
        let Log {
            base: _,
            snapshot: _snapshot,
            rest: _rest,
        } = self;
    }
}

impl<C> Model for Log<C> {
    ghost use Rattle.std.specs.Prelude.{◌+◌, ◌<◌, ◌^◌, length};
    ghost use Rattle.ballot_base.specs.Logs.{Log};

    ghost Value = { Log C };

    ghost view = { λ log.
        record { base = log.base; snapshot = log.snapshot; rest = log.rest.items } };

    ghost invariant = { λ log. log.base + length log.rest.items < 2 ^ 64 };
}

impl<C: Drop> Log<C> {
    /// Returns a log with no place.
    pub fn new(alloc: Global) -> Self
        ensures { result ≡ empty_log C }
    {
        Log {
            base: 0,
            snapshot: Bytes::new(),
            rest: Vec::new(alloc),
        }
    }

    /// Returns a log of these parts. Its length, with the base, is below 2^64.
    pub fn from_parts(base: u64, snapshot: Bytes, rest: Vec<C>) -> Self
        requires { base + length rest.items < 2 ^ 64 }
        ensures { result ≡ record { base = base; snapshot = snapshot; rest = rest.items } }
    {
        Log {
            base,
            snapshot,
            rest,
        }
    }

    /// Returns the first place whose command is kept, which is below 2^64.
    pub fn base(&self) -> u64
        ensures base { result ≡ self.now.base }
        ensures fits { places self.now < 2 ^ 64 }
    {
        self.base
    }

    /// Returns the frozen machine at the base.
    pub fn snapshot(&self) -> &[u8]
        ensures { result.now ≡ self.now.snapshot }
    {
        self.snapshot.as_slice()
    }

    // Returns the frozen machine at the base, to be shared.
    pub(crate) fn shared_snapshot(&self) -> &Bytes
        ensures { result.now ≡ self.now.snapshot }
    {
        &self.snapshot
    }

    /// Returns an empty vector with room for the bytes of the snapshot and an eighth more. Without
    /// memory its capacity is 0. No clause speaks of capacity.
    pub fn snapshot_buffer(&self, alloc: Global) -> Vec<u8>
        ensures { result.items ≡ [] }
    {
        let length = self.snapshot.len();
        match Vec::with_capacity(alloc, length.saturating_add(length / 8)) {
            Ok(buffer) => buffer,
            Err(_) => Vec::new(alloc),
        }
    }

    /// Returns the commands from the base on.
    pub fn rest(&self) -> &[C]
        ensures { result.now ≡ self.now.rest }
    {
        self.rest.as_slice()
    }

    /// Returns the length of the log, counted from place 0.
    pub fn places(&self) -> u64
        ensures { result ≡ places self.now }
    {
        self.base + self.rest.len() as u64
    }

    /// Appends a command. If memory runs out, or no place is left below 2^64, the log is unchanged.
    pub fn push(&mut self, command: C) -> Result<(), Memory>
        ensures ok { OnOk result (self.new ≡ pushed self.old command) }
        ensures err { OnErr result (self.new ≡ self.old) }
    {
        if self.places() == u64::MAX {
            return Err(Memory);
        }
        self.rest.push(command)?;
        Ok(())
    }

    /// Removes the last command above the base, if there is one.
    pub fn pop(&mut self)
        ensures { self.new ≡ popped self.old }
    {
        self.rest.pop();
    }

    /// Drops the commands below `base` and puts `snapshot` in their place.
    pub fn cut(&mut self, base: u64, snapshot: Bytes)
        requires above { self.old.base ≤ base }
        requires within { base ≤ places self.old }
        ensures { self.new ≡ record {
          base = base;
          snapshot = snapshot;
          rest = drop (base - self.old.base) self.old.rest;
        } }
    {
        drop_front(&mut self.rest, (base - self.base) as usize);
        self.base = base;
        self.snapshot = snapshot;
    }

    /// Replaces the commands from its own base on by those of `other`.
    pub fn take_rest(&mut self, other: Log<C>)
        requires above { other.base ≤ self.old.base }
        requires within { self.old.base ≤ places other }
        ensures { self.new
            ≡ record self.old { rest = drop (self.old.base - other.base) other.rest } }
    {
        let count = (self.base - other.base) as usize;
        self.rest = other.into_rest();
        drop_front(&mut self.rest, count);
    }

    fn into_rest(self) -> Vec<C>
        ensures { result.items ≡ self.rest }
    {
        let Log {
            base: _,
            snapshot: _snapshot,
            rest,
        } = self;
        rest
    }
}

// Drops the first `count` items. Nothing is moved if all are dropped, which is the usual case.
fn drop_front<C: Drop>(items: &mut Vec<C>, count: usize)
    requires { count ≤ length items.old.items }
    ensures { items.new.items ≡ drop count items.old.items }
{
    if count == items.len() {
        items.clear();
        return;
    }
    items.drain(..count);
}
