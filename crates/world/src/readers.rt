// What can be read of a world: the agreed list, its clients and connections.

ghost use Rattle.std.specs.Prelude.{ℕ, List, ◌≡◌, ◌<◌, ◌-◌, ◌++◌, length, [], None, Some, IfSome, slice_get};
ghost use Rattle.std.specs.List.{position};
ghost use Rattle.ballot_base.specs.declared.config.Config.{Config};
ghost use Rattle.broker_spec.specs.Place.{Client};
ghost use Rattle.world_nodes.specs.Agreed.{AgreeOn, AgreeOnSoMany};
ghost use Rattle.world.specs.Found.{core_named, slot_numbered, pair_of};
ghost use Rattle.world_pipes.specs.clients.Clients.{is_named};
ghost use Rattle.world.specs.Trace.{AreReached};
ghost use Rattle.headline.specs.Promise.{Promise};
ghost use Rattle.headline.specs.byte_world.Published.{published_of, published_on_way};
ghost use Rattle.world.specs.StandsFor.{IsReached, connections_at};

use crate::world::World;
use broker_spec::Command;
use client::ClientCore;
use packet_base::ClientId;
use world_pipes::PipedClient;
use world_pipes::clients::ConnectionSlot;

impl World {
    /// Returns the agreed list, the longest that is chosen in a ballot that was active, in two
    /// parts: the second continues where the first ends. Its time does not depend on how many
    /// messages were sent, which no clause says.
    pub fn agreed(&self) -> (&[Command], &[Command])
        ensures agreed { AgreeOn self.now.nodes (result.0.now ++ result.1.now) }

        // Nodes of a reachable world agree on it, and by it each client of a reachable world is
        // exact.
        ensures reached { (nodes : ℕ) (config : Config)
            (reached : AreReached nodes config self.now.nodes) →
            result.0.now ++ result.1.now ≡ reached.list }
        ensures exact { (nodes : ℕ) (config : Config) (clients : List Client)
            (reached : IsReached nodes config clients self.now) →
            result.0.now ++ result.1.now ≡ reached.exact.agreed }
    {
        self.nodes.agreed()
    }

    /// Returns the length of that list. Its time does not depend on how many messages were sent,
    /// which no clause says.
    pub fn agreed_len(&self) -> u64
        ensures agreed { AgreeOnSoMany self.now.nodes result }
        ensures reached { (nodes : ℕ) (config : Config)
            (reached : AreReached nodes config self.now.nodes) → result ≡ length reached.list }
        ensures exact { (nodes : ℕ) (config : Config) (clients : List Client)
            (reached : IsReached nodes config clients self.now) →
            result ≡ length reached.exact.agreed }
    {
        self.nodes.agreed_len()
    }

    /// Returns the client with this identifier; `None` if there is none.
    pub fn client(&self, client: &ClientId) -> Option<&ClientCore>
        ensures some { IfSome result
            (λ core. core_named client.now self.now.clients ≡ Some core.now) }
        ensures none { result ≡ None → core_named client.now self.now.clients ≡ None }

        // What the client shows is as promised, by what it was asked to publish and the agreed
        // list.
        ensures promised { (nodes : ℕ) (config : Config) (clients : List Client)
            (reached : IsReached nodes config clients self.now) (at : ℕ) →
            position (is_named client.now) self.now.clients ≡ Some at → IfSome result (λ core.
            Promise (connections_at at reached.world)
            (published_of at (published_on_way reached.trail)) reached.exact.agreed
            core.now.state) }
    {
        let at = self.index_of_client(client)?;
        let found = self.clients.get(at)?;
        Some(found.piped.core())
    }

    /// Returns the bytes in transit on a connection to its node; none for one that was never
    /// opened.
    pub fn up(&self, connection: u64) -> &[u8]
        ensures some { IfSome (pair_of connection self.now) (λ pair. result.now ≡ pair.up) }
        ensures none { pair_of connection self.now ≡ None → result.now ≡ [] }
    {
        match self.client_of(connection) {
            Some((piped, at)) => piped.up(at),
            None => &[],
        }
    }

    /// Returns the bytes in transit on a connection to its client; none for one that was never
    /// opened.
    pub fn down(&self, connection: u64) -> &[u8]
        ensures some { IfSome (pair_of connection self.now) (λ pair. result.now ≡ pair.down) }
        ensures none { pair_of connection self.now ≡ None → result.now ≡ [] }
    {
        match self.client_of(connection) {
            Some((piped, at)) => piped.down(at),
            None => &[],
        }
    }

    // Returns the client of a connection, and its index among the client's own; `None` for one that
    // was never opened.
    fn client_of(&self, connection: u64) -> Option<(&PipedClient, usize)>
        ensures below { IfSome result (λ found. found.1 < length found.0.now.pairs) }
        ensures some { IfSome result (λ found.
            pair_of connection self.now ≡ slice_get found.0.now.pairs found.1) }
        ensures none { result ≡ None → pair_of connection self.now ≡ None }
    {
        let slot = self.slot(connection)?;
        let found = self.clients.get(slot.client)?;
        if slot.at >= found.piped.len() {
            return None;
        }
        Some((&found.piped, slot.at))
    }

    /// Returns the index of a client; `None` if no client has this identifier.
    pub(crate) fn index_of_client(&self, client: &ClientId) -> Option<usize>
        ensures below { IfSome result (λ at. at < length self.now.clients) }
        ensures exact { result ≡ position (is_named client.now) self.now.clients }
    {
        self.clients.iter().position(|found| found.is_named(client))
    }

    /// Returns the slot of a connection; `None` for one that was never opened.
    pub(crate) fn slot(&self, number: u64) -> Option<ConnectionSlot>
        ensures stands { IfSome result (λ slot.
            (0 < number) × (slice_get self.now.connections (number - 1) ≡ Some slot)) }
        ensures exact { result ≡ slot_numbered number self.now.connections }
    {
        if number == 0 {
            return None;
        }
        self.connections.get(number as usize - 1).copied()
    }
}
