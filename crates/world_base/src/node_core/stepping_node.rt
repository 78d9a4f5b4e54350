// The node during a step: `NodeCore` without its count of losses.
//
// `has_lost` is cleared when a step begins, set by the part of it that lost something and read at
// its end, so a step with several losses counts once. While it is unset, each call is exactly its
// definition in `specs/node_core`; in any case it did no more than the `Lossy*` definitions allow.
//
// Invariant: `last_count <= MAX_COUNT`. Names are given in rising order of ballot and count, so
// none is given twice. A connection that fails is only marked (`Failed`) while effects are handled,
// and its loss is proposed after them: so handling an output never leads to a proposal within it.

ghost use Rattle.std.specs.Prelude.{◌≡◌, ◌⊎◌, ◌≤◌, ◌↔◌, false, true, length, None, IfOk, IfSome, OnSome, IfNone, IsErrOf};
ghost use Rattle.std.specs.List.{position};
ghost use Rattle.broker_spec.specs.Connection.{is_connection_name, max_count};
ghost use Rattle.ballot_base.specs.LawfulConfig.{is_lawful};
ghost use Rattle.world_base.specs.node_connections.Connections.{has_failed, is_open_at, is_open_named};
ghost use Rattle.world_base.specs.node_connections.ConnectionChanges.{noted_proposed, closed_connection, failing, with_unread, with_queued};
ghost use Rattle.world_base.specs.node_core.Core.{opening_core, serves};
ghost use Rattle.world_base.specs.node_core.Inside.{DoesExactly};
ghost use Rattle.world_base.specs.node_connections.Silent.{lowest_silent};
ghost use Rattle.packet.specs.Spelling.{spelling};
ghost use Rattle.world_base.specs.node_core.PacketInput.{changes, open_at, unread_of};
ghost use Rattle.world_base.specs.node_connections.Refusals.{connect_refused};
ghost use Rattle.world_base.specs.node_core.Step.{accepted, accepts_connection, next_name, with_next_connection, settled};
ghost use Rattle.world_base.specs.node_core.Effects.{changes_named};

use crate::node_connections::{
    Connection, Piece, Port, close_each, has_port, keep_listed, lowest_silent, push,
};
use ballot::Replica;
use ballot_base::errors::OpeningError;
use ballot_base::{Config, MAX_NUMBER};
use broker::BrokerMachine;
use broker_spec::ConnectionName;
use packet::Packet;
use packet_base::RefusalCode;
use std::alloc::Global;
use std::marker::Model;

/// A replica of the broker with its connections, during a step.
pub(crate) struct SteppingNode {
    /// The allocator of connections and of a step's effects.
    pub(crate) alloc: Global,
    /// The replica. It counts its own losses.
    pub(crate) replica: Replica<BrokerMachine>,
    /// The ballot in the name of the connection that was accepted last; 0 before the first.
    pub(crate) last_ballot: u64,
    /// Its number in that ballot, at most `MAX_COUNT`; 0 before the first.
    pub(crate) last_count: u64,
    /// The connections, in the order in which they were opened.
    pub(crate) connections: Vec<Connection>,
    /// Whether the current step has lost something.
    pub(crate) has_lost: bool,
}

impl Drop for SteppingNode {
    fn drop(self) {
        let SteppingNode {
            alloc: _,
            replica: _replica,
            last_ballot: _,
            last_count: _,
            connections: _connections,
            has_lost: _,
        } = self;
    }
}

impl Model for SteppingNode {
    ghost use Rattle.std.specs.Prelude.{◌≤◌};
    ghost use Rattle.broker_spec.specs.Connection.{max_count};
    ghost use Rattle.world_base.specs.node_core.Inside.{RunningStep};

    ghost Value = { RunningStep };

    ghost view = { λ stepping.
        record {
          core = record {
            replica = stepping.replica;
            last_name = record { ballot = stepping.last_ballot; count = stepping.last_count };
            connections = stepping.connections.items;
          };
          has_lost = stepping.has_lost;
        } };

    ghost invariant = { λ stepping. stepping.last_count ≤ max_count };
}

impl SteppingNode {
    /// Opens node `id` in ballot 1, where numbers of nodes go up to `greatest`, without connections.
    pub(crate) fn up_to(
        alloc: Global,
        greatest: u8,
        id: u8,
        config: &Config,
    ) -> Result<SteppingNode, OpeningError>
        requires low { 1 ≤ id }
        requires high { id ≤ greatest }
        requires bound { greatest ≤ MAX_NUMBER }
        ensures ok { IfOk result (λ stepping.
            stepping ≡ record { core = opening_core id config.now; has_lost = false }) }
        ensures bad { IsErrOf result OpeningError.BadMembers
            ↔ (is_lawful greatest config.now.members config.now.primary ≡ false) }
    {
        let replica = Replica::up_to(alloc, greatest, id, config)?;
        Ok(SteppingNode {
            alloc,
            replica,
            last_ballot: 0,
            last_count: 0,
            connections: Vec::new(alloc),
            has_lost: false,
        })
    }

    /// Returns true if the node serves clients: its replica is the active primary and runs.
    pub(crate) fn serves(&self) -> bool
        ensures { result ≡ serves self.now.core }
    {
        self.replica.status().serves()
    }

    /// Returns the index of the open connection of a port in the list.
    pub(crate) fn index_at(&self, port: Port) -> Option<usize>
        ensures { result ≡ position (is_open_at port) self.now.core.connections }
    {
        self.connections
            .iter()
            .position(|connection| connection.is_open_at(port))
    }

    /// Returns the index of the open connection of a name in the list.
    pub(crate) fn index_of(&self, name: ConnectionName) -> Option<usize>
        ensures { result ≡ position (is_open_named name) self.now.core.connections }
    {
        self.connections
            .iter()
            .position(|connection| connection.is_open_named(name))
    }

    /// Returns how many connections are listed.
    pub(crate) fn listed(&self) -> usize
        ensures { result ≡ length self.now.core.connections }
    {
        self.connections.len()
    }

    /// Returns the lowest port of the silent connections.
    pub(crate) fn lowest_silent(&self, now: u64) -> Option<Port>
        ensures { result ≡ lowest_silent now self.now.core.connections }
    {
        lowest_silent(&self.connections, now)
    }

    /// Returns the index of the first connection that was closed as lost and is not yet reported to
    /// the broker.
    pub(crate) fn index_failed(&self) -> Option<usize>
        ensures { result ≡ position has_failed self.now.core.connections }
    {
        self.connections
            .iter()
            .position(|connection| connection.has_failed())
    }

    /// Closes the open connection of a port.
    pub(crate) fn close(&mut self, port: Port)
        ensures { self.new
            ≡ record self.old { core = changes port closed_connection self.old.core } }
    {
        if let Some(index) = self.index_at(port) {
            self.connections[index].close();
        }
    }

    /// Records that the CONNECT of a port's open connection, with this keep alive, is proposed.
    pub(crate) fn note_proposed_at(&mut self, port: Port, keep_alive: u16)
        ensures { self.new
            ≡ record self.old { core = changes port (noted_proposed keep_alive) self.old.core } }
    {
        if let Some(index) = self.index_at(port) {
            self.connections[index].note_proposed(keep_alive);
        }
    }

    /// Closes the open connection of a port whose proposal was refused. If the step has lost
    /// something, it is closed as lost, so that its end is still reported to the broker.
    pub(crate) fn give_up(&mut self, port: Port)
        ensures exact { DoesExactly self.old self.new
            (changes port closed_connection self.old.core) }
        ensures lossy { (self.new.core ≡ changes port closed_connection self.old.core)
            ⊎ (self.new.core ≡ changes port failing self.old.core) }
    {
        if !self.has_lost {
            return self.close(port);
        }
        if let Some(index) = self.index_at(port) {
            self.connections[index].fail();
        }
    }

    /// Returns the number of unread bytes of a port's open connection.
    pub(crate) fn unread_len(&self, port: Port) -> usize
        ensures { result ≡ unread_of (open_at port self.now.core) }
    {
        match self.index_at(port) {
            Some(index) => self.connections[index].unread.len(),
            None => 0,
        }
    }

    /// Appends bytes that arrived on a port's open connection. Returns false if memory runs out.
    pub(crate) fn hold_at(&mut self, port: Port, piece: &Piece) -> bool
        ensures ok { result ≡ true →
            self.new ≡ record self.old {
              core =
                  changes port (with_unread piece.now) self.old.core;
            } }
        ensures same { result ≡ false → self.new ≡ self.old }
        ensures none { open_at port self.old.core ≡ None →
            (result ≡ true) × (self.new ≡ self.old) }
    {
        match self.index_at(port) {
            Some(index) => self.connections[index].hold(piece).is_ok(),
            None => true,
        }
    }

    /// Closes the open connection of a name.
    pub(crate) fn close_named(&mut self, name: ConnectionName)
        ensures { self.new
            ≡ record self.old { core = changes_named name closed_connection self.old.core } }
    {
        if let Some(index) = self.index_of(name) {
            self.connections[index].close();
        }
    }

    /// Queues a packet on the open connection of a name; closes it as lost if there is no room or
    /// no memory.
    pub(crate) fn put(&mut self, name: ConnectionName, packet: &Packet)
        ensures exact { DoesExactly self.old self.new
            (changes_named name (with_queued (spelling packet.now)) self.old.core) }
        ensures lossy { (self.new.core
            ≡ changes_named name (with_queued (spelling packet.now)) self.old.core)
            ⊎ (self.new.core ≡ changes_named name failing self.old.core) }
    {
        if let Some(index) = self.index_of(name) {
            let whole = self.connections[index].put_or_fail(packet);
            if !whole {
                self.has_lost = true;
            }
        }
    }

    // Returns how many connections were accepted in the joined ballot.
    fn accepted(&self) -> u64
        ensures count { result ≡ accepted self.now.core }
        ensures most { result ≤ max_count }
    {
        if self.last_ballot == self.replica.status().ballot {
            self.last_count
        } else {
            0
        }
    }

    /// Returns the name of the next connection; `None` if all of the ballot are used.
    pub(crate) fn next_name(&self) -> Option<ConnectionName>
        ensures named { IfSome result (λ name. name ≡ next_name self.now.core) }
        ensures some { OnSome result (is_connection_name (next_name self.now.core) ≡ true) }
        ensures none { IfNone result (is_connection_name (next_name self.now.core) ≡ false) }
    {
        ConnectionName::new(self.replica.status().ballot, self.accepted() + 1)
    }

    /// Returns the name for a new connection of a port; `None` if it is not accepted.
    pub(crate) fn name_for(&self, port: Port) -> Option<ConnectionName>
        ensures named { IfSome result (λ name. name ≡ next_name self.now.core) }
        ensures some { OnSome result (accepts_connection port self.now.core ≡ true) }
        ensures none { IfNone result (accepts_connection port self.now.core ≡ false) }
    {
        if !self.serves() {
            return None;
        }
        if has_port(&self.connections, port) {
            return None;
        }
        self.next_name()
    }

    /// Accepts a connection at this port, with the next name, if the node serves clients and the
    /// port is free. Otherwise, and if memory runs out, nothing changes.
    pub(crate) fn open(&mut self, port: Port)
        ensures exact { DoesExactly self.old self.new (with_next_connection port self.old.core) }
        ensures lossy { (self.new.core ≡ with_next_connection port self.old.core)
            ⊎ (self.new.core ≡ self.old.core) }
        ensures none { accepts_connection port self.old.core ≡ false → self.new ≡ self.old }
    {
        let Some(name) = self.name_for(port) else {
            return;
        };
        let connection = Connection::new(self.alloc, port, name);
        if !push(&mut self.connections, connection) {
            self.has_lost = true;
            return;
        }
        self.last_ballot = name.ballot();
        self.last_count = name.count();
    }

    /// Closes all connections if the node no longer serves clients, and removes closed ones without
    /// pending output.
    pub(crate) fn settle(&mut self)
        ensures { self.new ≡ record self.old { core = settled self.old.core } }
    {
        if !self.serves() {
            close_each(&mut self.connections);
        }
        keep_listed(&mut self.connections);
    }
}
