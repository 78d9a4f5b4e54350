// How many bytes a node handed over for the newest ports.
//
// A node counts them for one port of each remainder by `COUNTED_PORTS`: the newest for which it
// handed over. A lane's ports have one remainder and rise, so a lane's connection is counted until
// the next one of that lane gets bytes.

ghost use Rattle.std.specs.Prelude.{◌≡◌, ◌%◌};
ghost use Rattle.node.specs.HandedCounts.{counted_at, counts_after, opening_counts};

use std::marker::Model;
use world_base::node_connections::Port;

/// For how many ports a node counts the bytes that it hands over.
const COUNTED_PORTS: usize = 64;

/// A count of this many bytes or more says nothing: 2^62.
const COUNT_LIMIT: u64 = 1 << 62;

/// How many bytes a node handed over for a port.
#[derive(Clone, Copy)]
pub struct HandedCount {
    /// The port.
    pub port: Port,
    /// How many bytes (saturates at 2^64 - 1).
    pub bytes: u64,
}

impl HandedCount {
    ghost use Rattle.std.specs.Prelude.{◌≡◌};
    ghost use Rattle.node.specs.HandedCounts.{count_after, count_says};

    // Returns how many bytes were handed over for this port, if the count says it.
    fn says(self, port: Port) -> Option<u64>
        ensures { result ≡ count_says self port }
    {
        if self.port.0 < port.0 {
            return Some(0);
        }
        if self.port.0 == port.0 && self.bytes < COUNT_LIMIT {
            return Some(self.bytes);
        }
        None
    }

    // Returns the count after so many bytes more were handed over for this port.
    fn after(self, port: Port, bytes: u64) -> HandedCount
        ensures { result ≡ count_after self port bytes }
    {
        if self.port.0 < port.0 {
            return HandedCount { port, bytes };
        }
        if self.port.0 == port.0 {
            return HandedCount {
                port,
                bytes: self.bytes.saturating_add(bytes),
            };
        }
        self
    }
}

/// How many bytes a node handed over for the newest port of each remainder by [`COUNTED_PORTS`].
#[derive(Drop)]
pub(crate) struct HandedCounts {
    counts: [HandedCount; COUNTED_PORTS],
}

impl Model for HandedCounts {
    ghost use Rattle.std.specs.Prelude.{List};
    ghost use Rattle.node.specs.declared.handed_counts.HandedCount.{HandedCount};

    ghost Value = { List HandedCount };

    ghost view = { λ counts. counts.counts };
}

impl HandedCounts {
    /// Returns the counts of a node that handed over nothing.
    pub(crate) fn new() -> HandedCounts
        ensures { result ≡ opening_counts }
    {
        HandedCounts {
            counts: [HandedCount {
                port: Port(0),
                bytes: 0,
            }; COUNTED_PORTS],
        }
    }

    /// Returns how many bytes were handed over for a port, if the counts say it.
    pub(crate) fn at(&self, port: Port) -> Option<u64>
        ensures { result ≡ counted_at self.now port }
    {
        self.counts[place_of(port)].says(port)
    }

    /// Counts so many bytes more as handed over for a port.
    pub(crate) fn add(&mut self, port: Port, bytes: u64)
        ensures { self.new ≡ counts_after self.old port bytes }
    {
        let place = place_of(port);
        self.counts[place] = self.counts[place].after(port, bytes);
    }
}

// Returns the place of a port's count.
fn place_of(port: Port) -> usize
    ensures { result ≡ port.0 % 64 }
{
    (port.0 % COUNTED_PORTS as u64) as usize
}
