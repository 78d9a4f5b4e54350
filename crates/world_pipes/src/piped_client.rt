// A client with all of its connections and their pipes.
//
// A connection is never removed once its node has accepted it: bytes that the client wrote on an
// earlier one may still reach the node, as TCP allows after a client has gone. Only the newest can
// be held, and only it delivers bytes to the client.
//
// Invariant: while a connection is held there is one, and everything that the client wrote on it is
// in its pipe or was carried up; the core has no output left. If memory runs out for that the
// connection is lost, so a byte is never skipped. `swap_down` lends the pipe's vector to the node,
// which appends to it without a copy.

ghost use Rattle.std.specs.Prelude.{◌≡◌, ◌<◌, ◌≤◌, drop, length, set, slice_get, IfSome};
ghost use Rattle.client.specs.Core.{gone};
ghost use Rattle.headline.specs.byte_world.World.{new_client};
ghost use Rattle.world_pipes.specs.ModelSteps.{FollowsLosing};
ghost use Rattle.world_pipes.specs.FollowingBytes.{SwappingFollows, TakingUpFollows};
ghost use Rattle.world_pipes.specs.Piped.{is_holding, new_piped};
ghost use Rattle.world_pipes.specs.StandsFor.{ClientStandsFor};

use crate::pair::PipePair;
use client::ClientCore;
use packet_base::ClientId;
use std::alloc::Global;
use std::marker::Model;
use world_base::node_connections::Port;

/// A client with all its connections, oldest first, and the bytes in transit on each. It holds at
/// most the newest one. On the others bytes still reach their nodes, but none reach the client.
pub struct PipedClient {
    /// The allocator of new connections.
    pub(crate) alloc: Global,
    /// The client. While it holds a connection, all that it wrote is in the pipe.
    pub(crate) core: ClientCore,
    /// Its connections, the oldest first.
    pub(crate) pairs: Vec<PipePair>,
    /// True while the newest connection is held.
    pub(crate) holds: bool,
}

impl Drop for PipedClient {
    fn drop(self) {
        let PipedClient {
            alloc: _,
            core: _core,
            pairs: _pairs,
            holds: _,
        } = self;
    }
}

impl Model for PipedClient {
    ghost use Rattle.world_pipes.specs.Piped.{Piped};
    ghost use Rattle.world_pipes.specs.Held.{IsHeld};

    ghost Value = { Piped };

    ghost view = { λ piped. record { core = piped.core; pairs = piped.pairs.items } };

    ghost invariant = { λ piped. IsHeld piped.holds piped.core piped.pairs.items };
}

impl PipedClient {
    /// Returns a client that was never connected. Its keep alive is 0.
    pub fn new(alloc: Global, client: ClientId) -> PipedClient
        ensures new { result ≡ new_piped client }
        ensures stands { ClientStandsFor result (new_client client) }
    {
        let _known = client.as_str();
        PipedClient {
            alloc,
            core: ClientCore::new(alloc, client, 0),
            pairs: Vec::new(alloc),
            holds: false,
        }
    }

    /// Returns what the client keeps and has accepted.
    pub fn core(&self) -> &ClientCore
        ensures { result.now ≡ self.now.core }
    {
        &self.core
    }

    /// Returns true if it holds its newest connection.
    pub fn is_open(&self) -> bool
        ensures { result ≡ is_holding self.now }
    {
        self.holds
    }

    /// Returns how many connections the client has opened.
    pub fn len(&self) -> usize
        ensures { result ≡ length self.now.pairs }
    {
        self.pairs.len()
    }

    /// Returns where a connection leads: the index of its node, and its port there.
    pub fn leads_to(&self, at: usize) -> (usize, Port)
        requires { at < length self.now.pairs }
        ensures { IfSome (slice_get self.now.pairs at) (λ pair. result ≡ (pair.node, pair.port)) }
    {
        let pair = &self.pairs[at];
        (pair.node, pair.port)
    }

    /// Returns the bytes in transit on a connection to its node.
    pub fn up(&self, at: usize) -> &[u8]
        requires { at < length self.now.pairs }
        ensures { IfSome (slice_get self.now.pairs at) (λ pair. result.now ≡ pair.up) }
    {
        self.pairs[at].up.as_slice()
    }

    /// Returns the bytes in transit on a connection to the client.
    pub fn down(&self, at: usize) -> &[u8]
        requires { at < length self.now.pairs }
        ensures { IfSome (slice_get self.now.pairs at) (λ pair. result.now ≡ pair.down) }
    {
        self.pairs[at].down.as_slice()
    }

    /// Removes the first `count` bytes in transit to a node: they have arrived.
    pub fn take_up(&mut self, at: usize, count: usize)
        requires at { at < length self.old.pairs }
        requires count { IfSome (slice_get self.old.pairs at) (λ pair. count ≤ length pair.up) }
        ensures taken { IfSome (slice_get self.old.pairs at) (λ pair. self.new
            ≡ record self.old {
              pairs = set self.old.pairs at
                  (record pair { up = drop count pair.up });
            }) }
        ensures goes { TakingUpFollows at count self.old self.new }
    {
        self.come_up(at, count);
    }

    // Removes the first `count` bytes in transit to a node.
    fn come_up(&mut self, at: usize, count: usize)
        requires at { at < length self.old.pairs }
        requires count { IfSome (slice_get self.old.pairs at) (λ pair. count ≤ length pair.up) }
        ensures { IfSome (slice_get self.old.pairs at) (λ pair. self.new
            ≡ record self.old {
              pairs = set self.old.pairs at
                  (record pair { up = drop count pair.up });
            }) }
    {
        let pair = &mut self.pairs[at];
        pair.up.take(count);
    }

    /// Exchanges the bytes in transit on a connection to the client, so that a node may append to
    /// them.
    pub fn swap_down(&mut self, at: usize, bytes: &mut Vec<u8>)
        requires { at < length self.old.pairs }
        ensures left { IfSome (slice_get self.old.pairs at) (λ pair. self.new
            ≡ record self.old {
              pairs = set self.old.pairs at
                  (record pair { down = bytes.old.items });
            }) }
        ensures given { IfSome (slice_get self.old.pairs at) (λ pair. bytes.new.items ≡ pair.down) }
        ensures goes { SwappingFollows at bytes.old.items self.old self.new }
    {
        self.exchange(at, bytes);
    }

    fn exchange(&mut self, at: usize, bytes: &mut Vec<u8>)
        requires { at < length self.old.pairs }
        ensures left { IfSome (slice_get self.old.pairs at) (λ pair. self.new
            ≡ record self.old {
              pairs = set self.old.pairs at
                  (record pair { down = bytes.old.items });
            }) }
        ensures given { IfSome (slice_get self.old.pairs at) (λ pair. bytes.new.items ≡ pair.down) }
    {
        let pair = &mut self.pairs[at];
        pair.down.swap(bytes);
    }

    /// Loses the connection, if one is held. Bytes in transit on it stay.
    pub fn abandon(&mut self)
        ensures lost { self.new ≡ record self.old { core = gone self.old.core } }
        ensures goes { FollowsLosing self.old self.new }
    {
        self.core.lost();
        self.holds = false;
    }
}
