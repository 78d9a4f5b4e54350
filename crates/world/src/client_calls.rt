// The clients' events of a world.

ghost use Rattle.std.specs.Prelude.{◌≡◌, ◌<◌, true, false, length, slice_get, IfSome};
ghost use Rattle.world_nodes.specs.RunningNodes.{numbered_node};
ghost use Rattle.world_pipes.specs.Piped.{is_holding};
ghost use Rattle.world.specs.Trace.{CountsOnce};
ghost use Rattle.world.specs.Opening.{has_no_name_left};
ghost use Rattle.world.specs.Quiet.{EventTakesNoMemory};
ghost use Rattle.world.specs.Cannot.{is_serving};
ghost use Rattle.world.specs.Inside.Connections.{ConnectsAt, MayOpenNone, OpeningOrLost};
ghost use Rattle.world.specs.Inside.ClientCalls.{CountsRefusal};
ghost use Rattle.world.specs.Inside.Steps.{PublishesAsked, IsTrace, EventResultOrLost};

use crate::world::World;
use client_base::ClientError;
use master::Idle;
use packet_base::{ClientId, QoS};
use session_base::Publication;
use topics::Filter;
use world_base::node_connections::Port;
use world_pipes::Sending;
use world_pipes::clients::{
    ConnectionSlot, leave, lose_connection, open_pipe, publish_copy, subscribe_copy,
    unsubscribe_copy,
};
use world_pipes::events::Event;

impl World {
    /// Opens a connection of a client to a node. Fails with `Idle` if there is no such client, if
    /// it has a connection, and if the node is no running active primary. An open past the last
    /// connection of a ballot changes nothing.
    pub(crate) fn open(&mut self, client: &ClientId, node: u8) -> Result<(), Idle>
        ensures goes { IsTrace self.old self.new }
        ensures meets { EventResultOrLost (Event.Open client.now node) self.old result self.new }
        ensures once { CountsOnce self.old self.new }
        ensures quiet { EventTakesNoMemory (Event.Open client.now node) self.old →
            self.new ≡ self.old }
    {
        let Some(at) = self.index_of_client(client) else {
            return Err(Idle);
        };
        if self.clients[at].piped.is_open() {
            return Err(Idle);
        }
        if !self.serves(node) {
            return Err(Idle);
        }
        // The connection is closed at once, without a byte.
        if self.has_no_name_left(node) {
            return Ok(());
        }
        self.open_to(at, node);
        Ok(())
    }

    // Opens a connection for a client that holds none, to a node that serves clients. If it then
    // has none because memory ran out, counts that, unless the nodes did.
    fn open_to(&mut self, client: usize, node: u8)
        requires some { client < length self.old.clients }
        requires free { IfSome (slice_get self.old.clients client)
            (λ found. is_holding found.piped ≡ false) }
        requires node { 0 < node }
        ensures goes { IsTrace self.old self.new }
        ensures begins { OpeningOrLost client node self.old self.new }
        ensures once { CountsOnce self.old self.new }
    {
        let before = self.nodes.losses();
        if self.open_slot(client, node) {
            self.gather(node);
        } else if self.is_whole(before) {
            self.count_loss();
        }
    }

    // Opens a connection with its CONNECT in transit, and adds its slot. Returns true if the client
    // then has it.
    fn open_slot(&mut self, client: usize, node: u8) -> bool
        requires some { client < length self.old.clients }
        requires free { IfSome (slice_get self.old.clients client)
            (λ found. is_holding found.piped ≡ false) }
        requires node { 0 < node }
        ensures goes { IsTrace self.old self.new }
        ensures connects { result ≡ true → ConnectsAt client node self.old self.new }
        ensures none { result ≡ false → MayOpenNone client node self.old self.new }
        ensures losses { self.new.losses ≡ self.old.losses }
    {
        if self.connections.reserve(1).is_err() {
            return false;
        }
        if self.open_ends.reserve(1).is_err() {
            return false;
        }
        let number = (self.connections.len() as u64).saturating_add(1);
        let piped = &mut self.clients[client].piped;
        let at = piped.len();
        if !open_pipe(&mut self.nodes, piped, node, Port(number)) {
            return false;
        }
        self.connections.push_reserved(ConnectionSlot {
            client,
            at,
            node,
            is_open: true,
        });
        self.open_ends.push_reserved(number);
        true
    }

    /// Drops a client's connection. Fails with `Idle` if there is no such client, or it has none.
    pub(crate) fn abandon(&mut self, client: &ClientId) -> Result<(), Idle>
        ensures goes { IsTrace self.old self.new }
        ensures meets { EventResultOrLost (Event.Abandon client.now)
            self.old result self.new }
        ensures still { self.new.losses ≡ self.old.losses }
        ensures nodes { self.new.nodes ≡ self.old.nodes }
    {
        let Some(at) = self.index_of_client(client) else {
            return Err(Idle);
        };
        if !self.clients[at].piped.is_open() {
            return Err(Idle);
        }
        lose_connection(&mut self.clients[at].piped);
        Ok(())
    }

    /// Disconnects a client. Fails with `Idle` if there is no such client, or it has no connection.
    pub(crate) fn disconnect(&mut self, client: &ClientId) -> Result<(), Idle>
        ensures goes { IsTrace self.old self.new }
        ensures meets { EventResultOrLost (Event.Disconnect client.now)
            self.old result self.new }
        ensures once { CountsOnce self.old self.new }
    {
        let Some(at) = self.index_of_client(client) else {
            return Err(Idle);
        };
        if !self.clients[at].piped.is_open() {
            return Err(Idle);
        }
        let done = leave(&mut self.clients[at].piped);
        self.called(done)
    }

    /// Publishes as a client. Fails with `Idle` if there is no such client, and if it refuses.
    pub(crate) fn publish(
        &mut self,
        client: &ClientId,
        publication: &Publication,
    ) -> Result<(), Idle>
        ensures asked { PublishesAsked (Event.Publish client.now publication.now)
            self.old result self.new }
        ensures meets { EventResultOrLost (Event.Publish client.now publication.now)
            self.old result self.new }
        ensures once { CountsOnce self.old self.new }
    {
        let Some(at) = self.index_of_client(client) else {
            return Err(Idle);
        };
        if self.clients[at].piped.core().refuses(publication) {
            return Err(Idle);
        }
        let done = publish_copy(&mut self.clients[at].piped, publication);
        self.called(done)
    }

    /// Subscribes a client to a filter, at most at this QoS. Fails with `Idle` as `publish` does.
    pub(crate) fn subscribe(
        &mut self,
        client: &ClientId,
        filter: &Filter,
        qos: QoS,
    ) -> Result<(), Idle>
        ensures goes { IsTrace self.old self.new }
        ensures meets { EventResultOrLost (Event.Subscribe client.now filter.now qos)
            self.old result self.new }
        ensures once { CountsOnce self.old self.new }
    {
        let Some(at) = self.index_of_client(client) else {
            return Err(Idle);
        };
        if self.clients[at].piped.core().refuses_requests() {
            return Err(Idle);
        }
        let done = subscribe_copy(&mut self.clients[at].piped, filter, qos);
        self.called(done)
    }

    /// Unsubscribes a client from a filter. Fails with `Idle` as `publish` does.
    pub(crate) fn unsubscribe(&mut self, client: &ClientId, filter: &Filter) -> Result<(), Idle>
        ensures goes { IsTrace self.old self.new }
        ensures meets { EventResultOrLost (Event.Unsubscribe client.now filter.now)
            self.old result self.new }
        ensures once { CountsOnce self.old self.new }
    {
        let Some(at) = self.index_of_client(client) else {
            return Err(Idle);
        };
        if self.clients[at].piped.core().refuses_requests() {
            return Err(Idle);
        }
        let done = unsubscribe_copy(&mut self.clients[at].piped, filter);
        self.called(done)
    }

    // Turns the result of a client's call into that of an event: a refusal is idle, and running out
    // of memory is counted.
    fn called(&mut self, done: Result<Sending, ClientError>) -> Result<(), Idle>
        ensures { CountsRefusal done self.old result self.new }
    {
        match done {
            Ok(Sending::Sent) => Ok(()),
            Ok(Sending::Lost) | Err(ClientError::Memory) => {
                self.count_loss();
                Ok(())
            }
            Err(_) => Err(Idle),
        }
    }

    fn has_no_name_left(&self, node: u8) -> bool
        ensures { result ≡ has_no_name_left (numbered_node self.now.nodes.nodes node) }
    {
        match self.nodes.node(node) {
            Some(core) => core.has_no_name_left(),
            None => false,
        }
    }

    fn serves(&self, node: u8) -> bool
        ensures { result ≡ is_serving (numbered_node self.now.nodes.nodes node) }
    {
        match self.nodes.node(node) {
            Some(core) => core.status().serves(),
            None => false,
        }
    }
}
