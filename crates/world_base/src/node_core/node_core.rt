// A node without threads, clocks or sockets: a replica of the broker and the connections of its
// clients.
//
// A step handles one item whole: every command that it proposes has its effects done before the
// next packet is read, so the order on a connection is the order in the log. An output for a
// connection that is not open is dropped.
//
// If memory runs out the step still ends in a state that a client can live with. A connection
// either stays open with everything queued that the replica output for it, or it is closed with a
// prefix of that: there is never a gap (`a_gap_is_closed`). Each such step raises `losses` by one;
// a step that needs no memory never does, so it may be used where memory has run out.
//
// When the node no longer leads a ballot, the step closes all connections. A name is therefore used
// only in its own ballot, and clients reconnect at the new primary.

ghost use Rattle.std.specs.Prelude.{◌≡◌, ◌≤◌, ◌↔◌, ◌++◌, false, not, [], IfOk, IsOk, IsErrOf, OnErr, OnOk};
ghost use Rattle.std.specs.Option.{is_some};
ghost use Rattle.ballot_base.specs.LawfulConfig.{is_lawful, max_node};
ghost use Rattle.ballot_base.specs.Compaction.{can_cut};
ghost use Rattle.ballot_base.specs.Logs.{places};
ghost use Rattle.ballot_base.specs.Replica.{status_of};
ghost use Rattle.broker_spec.specs.Connection.{is_connection_name};
ghost use Rattle.world_base.specs.node_core.Core.{opening_core};
ghost use Rattle.world_base.specs.node_core.Step.{next_name};
ghost use Rattle.lists.specs.Lists.{IsPrefixOf};
ghost use Rattle.world_base.specs.node_connections.PendingOutput.{handed_after, pending_bytes};
ghost use Rattle.world_base.specs.node_core.PortOutput.{hands_over, idle_ports, listed_at};
ghost use Rattle.world_base.specs.node_connections.Stands.{standing_of};
ghost use Rattle.world_base.specs.node_core.Effects.{has_room};
ghost use Rattle.world_base.specs.node_core.Losses.{DoesNothing, ItemStepOrLost};

use crate::node_connections::{Handed, Port, Standing, has_port, push_idle};
use crate::node_core::item::Item;
use crate::node_core::stepping_node::SteppingNode;
use ballot_base::errors::OpeningError;
use ballot_base::{Config, Effect, MAX_NODE, MAX_NUMBER, MAX_PLACES, Message, Status, counted};
use broker_spec::{Command, Output};
use machine::Memory;
use std::alloc::Global;
use std::marker::Model;

/// A replica of the broker with its connections. It handles items one by one, and hands over the
/// output of each connection.
pub struct NodeCore {
    stepping: SteppingNode,
    // How many of its steps lost something (saturates at 2^64 - 1).
    losses: u64,
}

impl Drop for NodeCore {
    fn drop(self) {
        let NodeCore {
            stepping: _stepping,
            losses: _,
        } = self;
    }
}

impl Model for NodeCore {
    ghost use Rattle.world_base.specs.node_core.Core.{CountedCore};

    ghost Value = { CountedCore };

    ghost view = { λ node. record { core = node.stepping.core; losses = node.losses } };
}

impl NodeCore {
    /// Opens node `id` in ballot 1 of this configuration.
    pub fn new(alloc: Global, id: u8, config: &Config) -> Result<NodeCore, OpeningError>
        requires low { 1 ≤ id }
        requires high { id ≤ MAX_NODE }
        ensures ok { IfOk result (λ node.
            node ≡ record { core = opening_core id config.now; losses = 0 }) }
        ensures bad { IsErrOf result OpeningError.BadMembers
            ↔ (is_lawful max_node config.now.members config.now.primary ≡ false) }
    {
        NodeCore::up_to(alloc, MAX_NODE, id, config)
    }

    /// Opens node `id` in ballot 1, as [`NodeCore::new`], where numbers of nodes go up to
    /// `greatest`.
    pub fn up_to(
        alloc: Global,
        greatest: u8,
        id: u8,
        config: &Config,
    ) -> Result<NodeCore, OpeningError>
        requires low { 1 ≤ id }
        requires high { id ≤ greatest }
        requires bound { greatest ≤ MAX_NUMBER }
        ensures ok { IfOk result (λ node.
            node ≡ record { core = opening_core id config.now; losses = 0 }) }
        ensures bad { IsErrOf result OpeningError.BadMembers
            ↔ (is_lawful greatest config.now.members config.now.primary ≡ false) }
    {
        Ok(NodeCore {
            stepping: SteppingNode::up_to(alloc, greatest, id, config)?,
            losses: 0,
        })
    }

    /// Returns the status of the replica.
    pub fn status(&self) -> Status
        ensures { result ≡ status_of self.now.core.replica.state }
    {
        self.stepping.replica.status()
    }

    /// Returns the commands of the replica's log from its base on, which [`NodeCore::snapshot`]
    /// returns: those that are agreed, then those that may still become so. Everything applied is
    /// within the log.
    pub fn rest(&self) -> &[Command]
        ensures rest { result.now ≡ self.now.core.replica.state.log.rest }
        ensures within { self.now.core.replica.state.committed
            ≤ places self.now.core.replica.state.log }
    {
        self.stepping.replica.rest()
    }

    /// Returns the base of the replica's log and the snapshot at it, which is empty at base 0.
    pub fn snapshot(&self) -> (u64, &[u8])
        ensures base { result.0 ≡ self.now.core.replica.state.log.base }
        ensures bytes { result.1.now ≡ self.now.core.replica.state.log.snapshot }
        ensures none { result.0 ≡ 0 → result.1.now ≡ [] }
        ensures applied { result.0 ≤ self.now.core.replica.state.committed }
    {
        self.stepping.replica.snapshot()
    }

    /// Returns true if a proposal, such as that of an [`Item::Expel`], would be taken: the replica
    /// runs, is the active primary, and its log has room.
    pub fn has_room(&self) -> bool
        ensures { result ≡ has_room self.now.core }
    {
        let status = self.stepping.replica.status();
        status.serves() && status.held < MAX_PLACES
    }

    /// Returns true if an [`Item::Cut`] has something to cut: the replica runs, and has applied
    /// commands since its last cut.
    pub fn can_cut(&self) -> bool
        ensures { result ≡ can_cut self.now.core.replica.state }
    {
        self.stepping.replica.can_cut()
    }

    /// Returns how many steps lost something, because memory ran out or a snapshot could not be
    /// read (saturates at 2^64 - 1).
    pub fn losses(&self) -> u64
        ensures { result ≡ self.now.losses }
    {
        self.losses
    }

    /// Returns true if a connection of this port is open, or closed with pending output.
    pub fn has_port(&self, port: Port) -> bool
        ensures { result ≡ is_some (listed_at port self.now.core) }
    {
        has_port(&self.stepping.connections, port)
    }

    /// Returns the state of a port's connection.
    pub fn standing(&self, port: Port) -> Standing
        ensures { result ≡ standing_of (listed_at port self.now.core) }
    {
        self.stepping.standing(port)
    }

    /// Returns true if all connection names of the ballot are used, so that it accepts no more.
    pub fn has_no_name_left(&self) -> bool
        ensures { result ≡ not (is_connection_name (next_name self.now.core)) }
    {
        self.stepping.next_name().is_none()
    }

    /// Returns true if a message of another node would have an effect; without one it is ignored.
    pub fn heeds(&self, message: &Message<Command>) -> bool
        ensures { (result ≡ false) ↔ DoesNothing (Item.Peer message.now) self.now.core }
    {
        let replica = &self.stepping.replica;
        !replica.status().stopped && replica.heeds(message)
    }

    /// Handles a message without effect: as [`NodeCore::step`] with it, but without a copy.
    pub fn pass_over(
        &mut self,
        message: &Message<Command>,
        effects: &mut Vec<Effect<Command, Output>>,
    )
        requires { DoesNothing (Item.Peer message.now) self.old.core }
        ensures { ItemStepOrLost self.old (Item.Peer message.now) self.new
            effects.old.items effects.new.items }
    {
        self.stepping.has_lost = false;
        self.stepping.report_failed(effects);
        self.losses = counted(self.losses, !self.stepping.has_lost);
        self.stepping.settle();
    }

    /// Handles an item and appends the messages to other nodes that follow from it. If memory runs
    /// out, a connection is closed or not accepted, a message, a cut or an Expel is lost, or the
    /// replica stops; the step is counted. On a connection that stays open everything was queued.
    pub fn step(&mut self, item: Item, effects: &mut Vec<Effect<Command, Output>>)
        ensures { ItemStepOrLost self.old item self.new effects.old.items effects.new.items }
    {
        self.stepping.has_lost = false;
        self.stepping.act_on(item, effects);
        self.losses = counted(self.losses, !self.stepping.has_lost);
        self.stepping.settle();
    }

    /// Moves the pending output of a port to the end of `out`. Returns [`Handed::Closed`] once the
    /// node has closed the connection and nothing is left, and for a port that was never opened;
    /// otherwise more may come. If memory runs out, nothing changes; without pending output it
    /// never does.
    pub fn outgoing(&mut self, port: Port, out: &mut Vec<u8>) -> Result<Handed, Memory>
        ensures bytes { OnOk result
            (out.new.items ≡ out.old.items ++ pending_bytes (listed_at port self.old.core)) }
        ensures answer { IfOk result (λ handed.
            handed ≡ handed_after (listed_at port self.old.core)) }
        ensures left { OnOk result
            (self.new ≡ record self.old { core = hands_over port self.old.core }) }
        ensures nothing { pending_bytes (listed_at port self.old.core) ≡ [] → IsOk result }

        // Running out of memory changes nothing.
        ensures same { OnErr result (self.new ≡ self.old) }
        ensures err { OnErr result (out.new.items ≡ out.old.items) }
    {
        self.stepping.outgoing(port, out)
    }

    /// Appends the ports of the open connections without pending output. For each other port
    /// [`NodeCore::outgoing`] hands over bytes or returns [`Handed::Closed`]. If memory runs out,
    /// some of them may have been appended.
    pub fn idle_ports(&self, ports: &mut Vec<Port>) -> Result<(), Memory>
        ensures ok { OnOk result
            (ports.new.items ≡ ports.old.items ++ idle_ports self.now.core) }
        ensures err { OnErr result (IsPrefixOf ports.old.items ports.new.items) }
    {
        push_idle(&self.stepping.connections, ports)
    }
}
