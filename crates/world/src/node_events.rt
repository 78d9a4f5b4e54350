// The nodes' events of a world, and the master's.

ghost use Rattle.std.specs.Prelude.{◌≡◌, ◌<◌, ◌-◌, true, Some, slice_get};
ghost use Rattle.world.specs.EventSteps.{receiver_of};
ghost use Rattle.world.specs.Found.{port_at_node};
ghost use Rattle.world.specs.Inside.Steps.{EventResultOrLost, IsTrace};
ghost use Rattle.world.specs.Quiet.{IsQuietAt, EventTakesNoMemory};

use crate::world::World;
use ballot_base::Config;
use master::Idle;
use packet_base::ClientId;
use world_base::node_connections::Port;
use world_base::node_core::Item;
use world_pipes::clients::ConnectionSlot;
use world_pipes::events::Event;

impl World {
    /// Delivers message `number`. Fails with `Idle` if no such message was sent, and if its
    /// receiver is unknown or has stopped.
    pub(crate) fn deliver(&mut self, number: u64) -> Result<(), Idle>
        ensures goes { IsTrace self.old self.new }
        ensures meets { EventResultOrLost (Event.Deliver number) self.old result self.new }
        ensures still { self.new.losses ≡ self.old.losses }
        ensures quiet { EventTakesNoMemory (Event.Deliver number) self.old →
            self.new.nodes.losses ≡ self.old.nodes.losses }
    {
        let receiver = self.receiver(number);
        self.nodes.deliver(number)?;
        self.gather(receiver);
        Ok(())
    }

    // Returns the receiver of a message; 0 for the master, and if no such message was sent.
    fn receiver(&self, number: u64) -> u8
        ensures { result ≡ receiver_of (slice_get self.now.nodes.sent number) }
    {
        match self.nodes.sent().get(number as usize) {
            Some((receiver, _)) => *receiver,
            None => 0,
        }
    }

    /// Ticks a node. Fails with `Idle` if it is unknown or has stopped.
    pub(crate) fn tick(&mut self, node: u8) -> Result<(), Idle>
        ensures goes { IsTrace self.old self.new }
        ensures meets { EventResultOrLost (Event.Tick node) self.old result self.new }
        ensures still { self.new.losses ≡ self.old.losses }
        ensures quiet { EventTakesNoMemory (Event.Tick node) self.old →
            self.new.nodes.losses ≡ self.old.nodes.losses }
    {
        self.nodes.tick(node)?;
        self.gather(node);
        Ok(())
    }

    /// Cuts a node's log. Fails with `Idle` if the node is unknown or has stopped, and if it has
    /// applied nothing since its last cut.
    pub(crate) fn cut(&mut self, node: u8) -> Result<(), Idle>
        ensures goes { IsTrace self.old self.new }
        ensures meets { EventResultOrLost (Event.Cut node) self.old result self.new }
        ensures still { self.new.losses ≡ self.old.losses }
    {
        self.nodes.cut(node)?;
        self.gather(node);
        Ok(())
    }

    /// Proposes an Expel of a client at a node. Fails with `Idle` if there is no such client, if
    /// the node is no running active primary, and if its log is full.
    pub(crate) fn expel(&mut self, client: &ClientId, node: u8) -> Result<(), Idle>
        ensures goes { IsTrace self.old self.new }
        ensures meets { EventResultOrLost (Event.Expel client.now node) self.old result self.new }
        ensures still { self.new.losses ≡ self.old.losses }
    {
        if self.index_of_client(client).is_none() {
            return Err(Idle);
        }
        self.nodes.expel(node, client)?;
        self.gather(node);
        Ok(())
    }

    /// Stops a node for good. Fails with `Idle` if it is unknown or has stopped.
    pub(crate) fn crash(&mut self, node: u8) -> Result<(), Idle>
        ensures goes { IsTrace self.old self.new }
        ensures meets { EventResultOrLost (Event.Crash node) self.old result self.new }
        ensures still { self.new.losses ≡ self.old.losses }
        ensures quiet { EventTakesNoMemory (Event.Crash node) self.old →
            self.new.nodes.losses ≡ self.old.nodes.losses }
    {
        self.nodes.crash(node)?;
        self.gather(node);
        Ok(())
    }

    /// Asks the master to assign the next ballot to a configuration. Fails with `Idle` if it
    /// refuses.
    pub(crate) fn assign(&mut self, config: &Config) -> Result<(), Idle>
        ensures goes { IsTrace self.old self.new }
        ensures meets { EventResultOrLost (Event.Assign config.now) self.old result self.new }
        ensures still { self.new.losses ≡ self.old.losses }
    {
        self.nodes.assign(config)
    }

    /// Ends a connection at its node. Fails with `Idle` if its end there is closed, and if the node
    /// has stopped.
    pub(crate) fn notice(&mut self, number: u64) -> Result<(), Idle>
        ensures goes { IsTrace self.old self.new }
        ensures meets { EventResultOrLost (Event.Notice number) self.old result self.new }
        ensures still { self.new.losses ≡ self.old.losses }
        ensures quiet { EventTakesNoMemory (Event.Notice number) self.old →
            self.new.nodes.losses ≡ self.old.nodes.losses }
    {
        match self.slot(number) {
            Some(slot) if slot.is_open => self.end(slot, number),
            _ => Err(Idle),
        }
    }

    fn end(&mut self, slot: ConnectionSlot, number: u64) -> Result<(), Idle>
        requires stands { slice_get self.old.connections (number - 1) ≡ Some slot }
        requires up { slot.is_open ≡ true }
        requires positive { 0 < number }
        ensures goes { IsTrace self.old self.new }
        ensures meets { EventResultOrLost (Event.Notice number) self.old result self.new }
        ensures still { self.new.losses ≡ self.old.losses }
        ensures quiet { IsQuietAt slot.node (Item.Ended (port_at_node number)) self.old.nodes →
            self.new.nodes.losses ≡ self.old.nodes.losses }
    {
        self.nodes.end_stream(slot.node, Port(number))?;
        self.gather(slot.node);
        Ok(())
    }
}
