// A world: nodes with their master, clients, and every byte and message in transit between them.
//
// There is no time and no chance in a world: `step` performs the event that its caller chooses, so
// whatever a network, a clock or a crash may do is some list of events. The theorems hold for all
// of them.
//
// Invariants: connection n + 1 is at index n of `connections`, and its slot leads to the client's
// pipes and the node's port of that number; `open_ends` has the numbers of those whose end at their
// node is open, rising, so that output is gathered without a walk over all connections ever opened.
//
// The state has no history. `exact` is stated for every world of the model that corresponds to this
// one and is reachable, so it holds whatever led here, and after steps that lost something. A step
// counts at most one loss, whatever was lost in it; an event that takes no memory never counts.

ghost use Rattle.std.specs.Prelude.{ℕ, List, [], ◌≡◌, ◌≤◌, ◌<◌, ◌↔◌, true, false, length, IfOk, IsErr, IsErrOf, OnErr};
ghost use Rattle.session_base.specs.declared.publication.Publication.{Publication};
ghost use Rattle.agreement.specs.World.{can_open};
ghost use Rattle.ballot_base.specs.LawfulConfig.{max_node};
ghost use Rattle.ballot_base.specs.Losses.{greatest_count, one_more};
ghost use Rattle.headline.specs.packet_world.World.{ClientsAreApart};
ghost use Rattle.world.specs.Trace.{AgreedListGrows, AreReached, CountsOnce, StaysReached, KeepsGroup};
ghost use Rattle.world.specs.Requests.{EventAsks, RunAsks};
ghost use Rattle.world.specs.Events.{EventHappens, EventsHappen, WorldOpens};
ghost use Rattle.world.specs.Cannot.{CannotHappen};
ghost use Rattle.world.specs.Inside.Steps.{PublishesAsked, IsCounted, EventResultOrLost};
ghost use Rattle.world.specs.Quiet.{EventTakesNoMemory};
ghost use Rattle.world_pipes.specs.clients.Clients.{identifiers};
ghost use Rattle.world.specs.StandsFor.{IsReached, KeepsReached, FollowsModelAsking, asked_on};

use ballot_base::errors::OpeningError;
use ballot_base::{Config, Members};
use master::Idle;
use packet_base::ClientId;
use std::alloc::Global;
use std::marker::Model;
use world_nodes::Nodes;
use world_pipes::clients::{ConnectionSlot, WorldClient, new_clients};
use world_pipes::events::Event;

/// Nodes with their master, and clients that keep their side of the handshakes, with a pipe of
/// bytes in each direction of every connection. What is in transit arrives late, again or never, as
/// the events say.
pub struct World {
    /// The allocator of events and of bytes.
    pub(crate) alloc: Global,
    /// The nodes, with their master and their messages.
    pub(crate) nodes: Nodes,
    /// The clients, each with all its connections.
    pub(crate) clients: Vec<WorldClient>,
    /// The slot of connection n + 1 is at index n.
    pub(crate) connections: Vec<ConnectionSlot>,
    /// The numbers of the connections whose end at the node is open, rising.
    pub(crate) open_ends: Vec<u64>,
    /// How many steps lost something (saturates at 2^64 - 1).
    pub(crate) losses: u64,
}

impl Drop for World {
    fn drop(self) {
        let World {
            alloc: _,
            nodes: _nodes,
            clients: _clients,
            connections: _connections,
            open_ends: _open_ends,
            losses: _,
        } = self;
    }
}

impl Model for World {
    ghost use Rattle.std.specs.Prelude.{◌≡◌};
    ghost use Rattle.world_pipes.specs.clients.SlotsAreValid.{SlotsAreValid, targets_of_clients, open_from};
    ghost use Rattle.world.specs.World.{WorldState};

    ghost Value = { WorldState };

    ghost view = { λ world.
        record {
          nodes = world.nodes;
          clients = world.clients.items;
          connections = world.connections.items;
          losses = world.losses;
        } };

    ghost invariant = { λ world.
        SlotsAreValid (targets_of_clients world.clients.items) world.connections.items
        × (world.open_ends.items ≡ open_from 1 world.connections.items) };
}

impl World {
    /// Opens nodes 1 to `nodes` in ballot 1, with these members and this primary, and clients that
    /// were never connected. [`OpeningError::BadMembers`] comes for more than 15 nodes, for a
    /// member above `nodes`, and for members and a primary that no ballot may have: no member, more
    /// than 7, not strictly rising, one outside 1 to 15, or a primary that is none of them.
    /// [`OpeningError::Memory`] comes only if memory ran out.
    pub fn opening(
        alloc: Global,
        nodes: u8,
        members: Members,
        primary: u8,
        clients: &[ClientId],
    ) -> Result<World, OpeningError>
        // If each client has an identifier of its own, each is exact; none was asked to publish.
        ensures exact { ClientsAreApart clients.now → IfOk result
            (λ world. (reached : IsReached nodes (record { members = members; primary = primary })
            clients.now world)
            × (asked_on reached ≡ [])) }
        ensures clients { IfOk result (λ world. identifiers world.clients ≡ clients.now) }
        ensures opens { IfOk result (λ world.
            WorldOpens nodes (record { members = members; primary = primary })
            clients.now world) }

        // The nodes agree.
        ensures reached { IfOk result (λ world.
            AreReached nodes (record { members = members; primary = primary }) world.nodes) }
        ensures losses { IfOk result (λ world. world.losses ≡ 0) }
        ensures bad { IsErrOf result OpeningError.BadMembers
            ↔ (can_open max_node nodes (record { members = members; primary = primary }) ≡ false) }
    {
        World::opening_with(alloc, nodes, Config { members, primary }, clients)
    }

    // Does what `opening` does, for members and a primary that are one value.
    fn opening_with(
        alloc: Global,
        nodes: u8,
        config: Config,
        clients: &[ClientId],
    ) -> Result<World, OpeningError>
        // If each client has an identifier of its own, each is exact; none was asked to publish.
        ensures exact { ClientsAreApart clients.now → IfOk result
            (λ world. (reached : IsReached nodes config clients.now world)
            × (asked_on reached ≡ [])) }
        ensures clients { IfOk result (λ world. identifiers world.clients ≡ clients.now) }
        ensures opens { IfOk result (λ world. WorldOpens nodes config clients.now world) }

        // The nodes agree.
        ensures reached { IfOk result (λ world. AreReached nodes config world.nodes) }
        ensures losses { IfOk result (λ world. world.losses ≡ 0) }
        ensures bad { IsErrOf result OpeningError.BadMembers
            ↔ (can_open max_node nodes config ≡ false) }
    {
        let opened = Nodes::opening(alloc, nodes, config)?;
        let keepers = new_clients(alloc, clients)?;
        Ok(World {
            alloc,
            nodes: opened,
            clients: keepers,
            connections: Vec::new(alloc),
            open_ends: Vec::new(alloc),
            losses: 0,
        })
    }

    /// Performs one event. Fails with [`Idle`], and changes nothing, if the event cannot happen
    /// now. If memory runs out, messages are lost, connections are closed, nothing happens, or a
    /// node stops; that is counted.
    pub fn step(&mut self, event: &Event) -> Result<(), Idle>
        // Whatever happened before, and even if memory ran out, each client is exact after the
        // event: the world moves by steps of the model, some of them perhaps with losses. Its
        // clients are asked to publish exactly what the event asks.
        ensures exact { (asked : List (ℕ × Publication))
            × EventAsks event.now self.old result asked self.new
            × FollowsModelAsking asked self.old self.new × KeepsReached asked self.old self.new }

        // Its nodes move as a group, and agree after the event.
        ensures group { KeepsGroup self.old self.new }
        ensures reached { StaysReached self.old.nodes self.new.nodes }

        // What was agreed is a prefix of what is agreed after the event.
        ensures grown { AgreedListGrows self.old.nodes self.new.nodes }

        // What the event asks is done, or it cannot happen. Or a loss is counted, for an event that
        // can happen and takes memory: then nothing is done, or what the event asks, with losses,
        // and nothing else.
        ensures happens { EventHappens event.now self.old result self.new }
        ensures same { OnErr result (self.new ≡ self.old) }

        // The count of losses rises by one, or not at all: an event that takes no memory does not
        // raise it.
        ensures count { CountsOnce self.old self.new }
        ensures quiet { EventTakesNoMemory event.now self.old →
            self.old.nodes.losses < greatest_count →
            self.new.losses ≡ self.old.losses }
        ensures idle { IsErr result ↔ CannotHappen event.now self.old }
    {
        let before = self.nodes.losses();
        let counted = self.losses;
        self.happen(event)?;
        self.count(before, counted);
        Ok(())
    }

    /// Performs events in order, and skips idle ones.
    pub fn run(&mut self, events: &[Event])
        // Whatever happened before, and even if memory ran out, each client is exact after the
        // events. Its clients are asked to publish exactly what the events ask, in order.
        ensures exact { (asked : List (ℕ × Publication))
            × RunAsks events.now self.old asked self.new
            × FollowsModelAsking asked self.old self.new × KeepsReached asked self.old self.new }

        // Its nodes move as a group, and agree after the events.
        ensures group { KeepsGroup self.old self.new }
        ensures reached { StaysReached self.old.nodes self.new.nodes }

        // What was agreed is a prefix of what is agreed after them.
        ensures grown { AgreedListGrows self.old.nodes self.new.nodes }

        // Each event has happened, or could not.
        ensures runs { EventsHappen events.now self.old self.new }
    {
        for event in events {
            let _ = self.step(event);
        }
    }

    /// Returns how many messages nodes and their master sent so far.
    pub fn messages(&self) -> u64
        ensures { result ≡ length self.now.nodes.sent }
    {
        self.nodes.messages()
    }

    /// Returns the master's active ballot, from 1 to 2^32.
    pub fn active(&self) -> u64
        ensures { result ≡ self.now.nodes.master.active }
    {
        let (ballot, _) = self.nodes.active();
        ballot
    }

    /// Returns the greatest number that a member may have, 15.
    pub fn greatest(&self) -> u8
        ensures is { result ≡ self.now.nodes.master.greatest }
        ensures bound { result ≡ max_node }
    {
        self.nodes.greatest()
    }

    /// Returns the members of the active ballot, 1 to 7, strictly rising.
    pub fn active_members(&self) -> &[u8]
        ensures { result.now ≡ self.now.nodes.master.members }
    {
        let (_, members) = self.nodes.active();
        members
    }

    /// Returns how many steps lost something because memory ran out (saturates at 2^64 - 1).
    pub fn losses(&self) -> u64
        ensures { result ≡ self.now.losses }
    {
        self.losses
    }

    /// Counts that something was lost.
    pub(crate) fn count_loss(&mut self)
        ensures lost { self.new ≡ record self.old { losses = one_more self.old.losses } }
        ensures rises { self.old.losses ≤ self.new.losses }
    {
        self.losses = self.losses.saturating_add(1);
    }

    // Counts a step in which the nodes lost something, if their count has risen above `before` and
    // the world has not counted it already: its own count is still `counted`.
    fn count(&mut self, before: u64, counted: u64)
        ensures counts { IsCounted before counted self.old self.new }
        ensures nodes { self.new.nodes ≡ self.old.nodes }
        ensures clients { self.new.clients ≡ self.old.clients }
        ensures rises { self.old.losses ≤ self.new.losses }
    {
        if self.losses == counted && !self.is_whole(before) {
            self.count_loss();
        }
    }

    /// Returns true if the nodes have counted no loss since their count was `before`; false
    /// at its maximum.
    pub(crate) fn is_whole(&self, before: u64) -> bool
        ensures yes { result ≡ true →
            (self.now.nodes.losses ≡ before) × (before < greatest_count) }
        ensures no { result ≡ false →
            (self.now.nodes.losses ≡ before) × (before < greatest_count) → ⊥ }
    {
        self.nodes.losses() == before && before < u64::MAX
    }

    fn happen(&mut self, event: &Event) -> Result<(), Idle>
        ensures asked { PublishesAsked event.now self.old result self.new }
        ensures meets { EventResultOrLost event.now self.old result self.new }
        ensures once { CountsOnce self.old self.new }
        ensures quiet { EventTakesNoMemory event.now self.old →
            self.new.nodes.losses ≡ self.old.nodes.losses }
    {
        match event {
            Event::Assign(config) => self.assign(config),
            Event::Deliver(number) => self.deliver(*number),
            Event::Tick(node) => self.tick(*node),
            Event::Cut(node) => self.cut(*node),
            Event::Expel(client, node) => self.expel(client, *node),
            Event::Crash(node) => self.crash(*node),
            Event::Open(client, node) => self.open(client, *node),
            Event::CarryUp(connection, count) => self.carry_up(*connection, *count),
            Event::CarryDown(connection, count) => self.carry_down(*connection, *count),
            Event::Abandon(client) => self.abandon(client),
            Event::Disconnect(client) => self.disconnect(client),
            Event::Notice(connection) => self.notice(*connection),
            Event::Publish(client, publication) => self.publish(client, publication),
            Event::Subscribe(client, filter, qos) => self.subscribe(client, filter, *qos),
            Event::Unsubscribe(client, filter) => self.unsubscribe(client, filter),
        }
    }
}
