// Handling an item.

ghost use Rattle.std.specs.Prelude.{◌≡◌, false, if◌then◌else◌, None};
ghost use Rattle.std.specs.List.{find};
ghost use Rattle.broker_spec.specs.declared.command.Command.TheVariants as commands;
ghost use Rattle.broker_spec.specs.Sized.{IsSized};
ghost use Rattle.world_base.specs.node_connections.Connections.{has_failed, awaits_first_packet, is_proposed};
ghost use Rattle.world_base.specs.node_connections.ConnectionChanges.{closed_connection, with_unread};
ghost use Rattle.world_base.specs.node_core.Inside.{TakesPacket, DoesOutcome, StepPartOrLost, ReportsLost, WithoutFailure};
ghost use Rattle.world_base.specs.node_connections.Silent.{lowest_silent};
ghost use Rattle.world_base.specs.node_core.Losses.{ItemTakesNoMemory, was_proposed};
ghost use Rattle.world_base.specs.node_core.Lossy.{without_effects};
ghost use Rattle.world_base.specs.node_core.LossyProposals.{ProposesCommand};
ghost use Rattle.world_base.specs.node_core.LossyStep.{ActsOn, EndsAllSilent, HoldsBytes, ReportsAllFailed, ReadsPackets, DoesItem};
ghost use Rattle.world_base.specs.node_core.LossyEndings.{EndsConnection, ReportsFailed};
ghost use Rattle.world_base.specs.node_core.LossyPacketInput.{ProposesConnect, ReadsNext, ProposesPacket};
ghost use Rattle.world_base.specs.node_core.FailedConnections.{reports_all_failed, reports_failed};
ghost use Rattle.world_base.specs.node_core.KeepAlive.{ends_all_silent};
ghost use Rattle.world_base.specs.node_core.PacketInput.{connect_proposed, takes_first_packet, changes, port_closed, open_at, reads_all, reads_next, proposes_packet};
ghost use Rattle.world_base.specs.node_core.Step.{acts_on, does_item};
ghost use Rattle.world_base.specs.node_core.Effects.{has_room, proposes, without_messages};

use crate::node_connections::{ConnectionStage, Front, Piece, Port};
use crate::node_core::item::Item;
use crate::node_core::stepping_node::SteppingNode;
use ballot_base::Effect;
use broker_spec::{Command, ConnectionName, Output, SizedPacket};
use packet::{Connect, Packet};
use packet_base::ClientId;

impl SteppingNode {
    /// Handles an item, and reports each connection that fails meanwhile to the broker. `has_lost`
    /// then tells whether something was lost.
    pub(crate) fn act_on(&mut self, item: Item, effects: &mut Vec<Effect<Command, Output>>)
        ensures exact { DoesOutcome self.old self.new effects.old.items effects.new.items
            (acts_on item self.old.core) }
        ensures lossy { StepPartOrLost
            (ActsOn item) self.old.core self.new.core effects.old.items effects.new.items }
        ensures quiet { ItemTakesNoMemory item self.old.core →
            find has_failed self.old.core.connections ≡ None →
            self.new.has_lost ≡ self.old.has_lost }
    {
        self.do_item(item, effects);
        self.report_failed(effects);
    }

    // Handles an item by its kind, without reporting the connections that fail.
    fn do_item(&mut self, item: Item, effects: &mut Vec<Effect<Command, Output>>)
        ensures exact { DoesOutcome self.old self.new effects.old.items effects.new.items
            (does_item item self.old.core) }
        ensures lossy { StepPartOrLost
            (DoesItem item) self.old.core self.new.core effects.old.items effects.new.items }
        ensures quiet { ItemTakesNoMemory item self.old.core → WithoutFailure self.old self.new }
    {
        match item {
            Item::Peer(message) => self.receive(message, effects),
            Item::Tick(now) => {
                self.tick(effects);
                self.end_silent(now, effects);
            }
            Item::Opened(port, _) => self.open(port),
            Item::Bytes(port, piece, now) => {
                self.hold(port, piece, effects);
                self.read(port, now, effects);
            }
            Item::Ended(port) => self.end(port, effects),
            Item::Expel(client) => self.expel(client, effects),
            Item::Cut => self.cut_log(),
            Item::Crash => self.replica.stop(),
        }
    }

    // Proposes to end a client's session. Does nothing if the proposal is refused.
    fn expel(&mut self, client: ClientId, effects: &mut Vec<Effect<Command, Output>>)
        ensures exact { DoesOutcome self.old self.new effects.old.items effects.new.items
            (proposes (commands.Expel client) self.old.core) }
        ensures lossy { StepPartOrLost (ProposesCommand (commands.Expel client)) self.old.core
            self.new.core effects.old.items effects.new.items }
        ensures quiet { has_room self.old.core ≡ false → self.new ≡ self.old }
    {
        self.propose(Command::Expel(client), effects);
    }

    // Closes the silent connections as lost, by rising port.
    fn end_silent(&mut self, now: u64, effects: &mut Vec<Effect<Command, Output>>)
        ensures exact { DoesOutcome self.old self.new effects.old.items effects.new.items
            (ends_all_silent now self.old.core) }
        ensures lossy { StepPartOrLost
            (EndsAllSilent now) self.old.core self.new.core effects.old.items effects.new.items }
        ensures none { lowest_silent now self.old.core.connections ≡ None → self.new ≡ self.old }
    {
        for _connection in 0..self.listed() {
            let Some(port) = self.lowest_silent(now) else {
                return;
            };
            self.end(port, effects);
        }
    }

    // Appends bytes that arrived on a port. Closes the connection as lost if memory runs out.
    fn hold(&mut self, port: Port, piece: Piece, effects: &mut Vec<Effect<Command, Output>>)
        ensures exact { DoesOutcome self.old self.new effects.old.items effects.new.items
            (without_messages (changes port (with_unread piece) self.old.core)) }
        ensures lossy { StepPartOrLost
            (HoldsBytes port piece) self.old.core self.new.core
            effects.old.items effects.new.items }
        ensures none { open_at port self.old.core ≡ None → self.new ≡ self.old }
    {
        if !self.hold_at(port, &piece) {
            self.has_lost = true;
            self.end(port, effects);
        }
    }

    // Handles all whole packets of a port, in order; `now` is the time.
    fn read(&mut self, port: Port, now: u64, effects: &mut Vec<Effect<Command, Output>>)
        ensures exact { DoesOutcome self.old self.new effects.old.items effects.new.items
            (reads_all now port self.old.core) }
        ensures lossy { StepPartOrLost
            (ReadsPackets now port) self.old.core self.new.core
            effects.old.items effects.new.items }
        ensures none { open_at port self.old.core ≡ None → self.new ≡ self.old }
    {
        for _packet in 0..self.unread_len(port) {
            if !self.read_next(port, now, effects) {
                return;
            }
        }
    }

    // Handles the next packet of a port. Returns true if another may follow.
    fn read_next(
        &mut self,
        port: Port,
        now: u64,
        effects: &mut Vec<Effect<Command, Output>>,
    ) -> bool
        ensures exact { DoesOutcome self.old self.new effects.old.items effects.new.items
            (reads_next now port self.old.core) }
        ensures lossy { StepPartOrLost
            (ReadsNext now port) self.old.core self.new.core effects.old.items effects.new.items }
        ensures done { result ≡ false → self.new.has_lost ≡ false →
            reads_next now port self.new.core ≡ without_messages self.new.core }
        ensures idle { result ≡ false →
            ReadsNext now port self.new.core (without_effects self.new.core) }
    {
        let Some(index) = self.index_at(port) else {
            return false;
        };
        let connection = &mut self.connections[index];
        let name = connection.name;
        let stage = connection.stage;
        match connection.next(now) {
            Front::More => return false,
            Front::Packet(packet) => self.on_packet(port, name, stage, packet, effects),
            Front::Refused(_) | Front::Fault => self.report_lost(name, stage, effects),
            Front::OutOfMemory => {
                self.has_lost = true;
                self.report_lost(name, stage, effects);
            }
        }
        true
    }

    // Handles a packet: the first must be a CONNECT (MQTT-3.1.0-1).
    fn on_packet(
        &mut self,
        port: Port,
        name: ConnectionName,
        stage: ConnectionStage,
        packet: Packet,
        effects: &mut Vec<Effect<Command, Output>>,
    )
        requires sized { IsSized packet }
        ensures exact { DoesOutcome self.old self.new effects.old.items effects.new.items
            (if awaits_first_packet stage
            then takes_first_packet port name packet self.old.core
            else proposes_packet port name packet self.old.core) }
        ensures lossy { StepPartOrLost (TakesPacket (awaits_first_packet stage) port name packet)
            self.old.core self.new.core effects.old.items effects.new.items }
    {
        if !stage.awaits_first_packet() {
            return self.propose_packet(port, name, packet, effects);
        }
        match packet {
            Packet::Connect(connect) => {
                self.note_proposed_at(port, connect.keep_alive);
                self.connect(port, name, connect, effects);
            }
            _ => self.close(port),
        }
    }

    // Proposes a CONNECT, and closes the connection if the proposal is refused.
    fn connect(
        &mut self,
        port: Port,
        name: ConnectionName,
        connect: Connect,
        effects: &mut Vec<Effect<Command, Output>>,
    )
        ensures exact { DoesOutcome self.old self.new effects.old.items effects.new.items
            (connect_proposed port name connect self.old.core) }
        ensures lossy { StepPartOrLost (ProposesConnect port name connect)
            self.old.core self.new.core effects.old.items effects.new.items }
    {
        let command = Command::Connect(name, connect.client, connect.clean);
        if !self.propose(command, effects) {
            self.close(port);
        }
    }

    // Proposes a later packet, and closes the connection if the proposal is refused.
    fn propose_packet(
        &mut self,
        port: Port,
        name: ConnectionName,
        packet: Packet,
        effects: &mut Vec<Effect<Command, Output>>,
    )
        requires sized { IsSized packet }
        ensures exact { DoesOutcome self.old self.new effects.old.items effects.new.items
            (proposes_packet port name packet self.old.core) }
        ensures lossy { StepPartOrLost (ProposesPacket port name packet)
            self.old.core self.new.core effects.old.items effects.new.items }
    {
        let Ok(packet) = SizedPacket::new(packet) else {
            unreachable!()
        };
        if !self.propose(Command::Packet(name, packet), effects) {
            self.give_up(port);
        }
    }

    // Proposes the loss of a connection, if its CONNECT was proposed.
    fn report_lost(
        &mut self,
        name: ConnectionName,
        stage: ConnectionStage,
        effects: &mut Vec<Effect<Command, Output>>,
    )
        ensures exact { DoesOutcome self.old self.new effects.old.items effects.new.items
            (if is_proposed stage
            then proposes (commands.Lost name) self.old.core
            else without_messages self.old.core) }
        ensures lossy { StepPartOrLost (ReportsLost (is_proposed stage) name)
            self.old.core self.new.core effects.old.items effects.new.items }
    {
        if stage.is_proposed() {
            self.propose(Command::Lost(name), effects);
        }
    }

    // Closes the connection of a port as lost, and reports it to the broker.
    fn end(&mut self, port: Port, effects: &mut Vec<Effect<Command, Output>>)
        ensures exact { DoesOutcome self.old self.new effects.old.items effects.new.items
            (port_closed port self.old.core) }
        ensures lossy { StepPartOrLost
            (EndsConnection port) self.old.core self.new.core effects.old.items effects.new.items }
        ensures unproposed { was_proposed (open_at port self.old.core) ≡ false →
            self.new ≡ record self.old { core = changes port closed_connection self.old.core } }
    {
        let Some(index) = self.index_at(port) else {
            return;
        };
        let connection = &self.connections[index];
        let proposed = connection.is_proposed();
        let name = connection.name;
        self.close(port);
        if proposed {
            self.propose(Command::Lost(name), effects);
        }
    }

    /// Reports each failed connection to the broker. What the broker then sends may close others,
    /// which are reported too.
    pub(crate) fn report_failed(&mut self, effects: &mut Vec<Effect<Command, Output>>)
        ensures exact { DoesOutcome self.old self.new effects.old.items effects.new.items
            (reports_all_failed self.old.core) }
        ensures lossy { StepPartOrLost ReportsAllFailed
            self.old.core self.new.core effects.old.items effects.new.items }
        ensures none { find has_failed self.old.core.connections ≡ None → self.new ≡ self.old }
    {
        for _connection in 0..self.listed() {
            if !self.report_one_failed(effects) {
                return;
            }
        }
    }

    // Reports the first failed connection to the broker. Returns false if there is none.
    fn report_one_failed(&mut self, effects: &mut Vec<Effect<Command, Output>>) -> bool
        ensures exact { DoesOutcome self.old self.new effects.old.items effects.new.items
            (reports_failed self.old.core) }
        ensures lossy { StepPartOrLost ReportsFailed
            self.old.core self.new.core effects.old.items effects.new.items }
        ensures none { find has_failed self.old.core.connections ≡ None → self.new ≡ self.old }
        ensures done { result ≡ false →
            reports_failed self.new.core ≡ without_messages self.new.core }
        ensures idle { result ≡ false →
            ReportsFailed self.new.core (without_effects self.new.core) }
    {
        let Some(index) = self.index_failed() else {
            return false;
        };
        let connection = &mut self.connections[index];
        let name = connection.name;
        connection.close();
        self.propose(Command::Lost(name), effects);
        true
    }
}
