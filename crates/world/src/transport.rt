// Carrying bytes to a node or a client.

ghost use Rattle.std.specs.Prelude.{◌≡◌, ◌<◌, ◌-◌, true, Some, slice_get, if◌then◌else◌, IfOk, OnErr};
ghost use Rattle.world.specs.Trace.{CountsOnce};
ghost use Rattle.world.specs.Inside.Transport.{CannotCarryUpOn, CarriesUpOnWhere};
ghost use Rattle.world.specs.Inside.Steps.{EventResultOrLost, IsTrace};
ghost use Rattle.world.specs.Inside.ClientCalls.{with_one_loss};

use crate::world::World;
use master::Idle;
use world_base::node_connections::Port;
use world_pipes::clients::{ConnectionSlot, carry_down_on, carry_to_node};
use world_pipes::events::Event;

impl World {
    /// Carries the first `count` bytes of a connection to its node. Fails with `Idle` if its end
    /// there is closed, if the node has stopped, for no bytes, and for more than are in transit.
    pub(crate) fn carry_up(&mut self, number: u64, count: u64) -> Result<(), Idle>
        ensures goes { IsTrace self.old self.new }
        ensures meets { EventResultOrLost (Event.CarryUp number count) self.old result self.new }
        ensures once { CountsOnce self.old self.new }
    {
        match self.slot(number) {
            Some(slot) if slot.is_open => self.carry_up_on(slot, number, count),
            _ => Err(Idle),
        }
    }

    // Carries the first `count` bytes of a connection to its node, and moves what the node then has
    // pending into the pipes. If memory runs out the bytes stay in transit, and that is counted.
    fn carry_up_on(&mut self, slot: ConnectionSlot, number: u64, count: u64) -> Result<(), Idle>
        requires stands { slice_get self.old.connections (number - 1) ≡ Some slot }
        requires positive { 0 < number }
        requires up { slot.is_open ≡ true }
        ensures goes { IsTrace self.old self.new }
        ensures meets { EventResultOrLost (Event.CarryUp number count) self.old result self.new }
        ensures once { CountsOnce self.old self.new }
    {
        let whole = self.carry_to_node(slot, number, count)?;
        if whole {
            self.gather(slot.node);
        } else {
            self.count_loss();
        }
        Ok(())
    }

    // Carries the first `count` bytes of a connection to its node. Returns false if memory runs
    // out: they stay in transit.
    fn carry_to_node(&mut self, slot: ConnectionSlot, number: u64, count: u64) -> Result<bool, Idle>
        requires stands { slice_get self.old.connections (number - 1) ≡ Some slot }
        requires positive { 0 < number }
        ensures goes { IsTrace self.old self.new }
        ensures carries { IfOk result
            (λ whole. CarriesUpOnWhere whole number slot count self.old self.new) }
        ensures still { self.new.losses ≡ self.old.losses }
        ensures idle { OnErr result (CannotCarryUpOn slot count self.old) }
        ensures same { OnErr result (self.new ≡ self.old) }
    {
        let piped = &mut self.clients[slot.client].piped;
        carry_to_node(
            self.alloc,
            &mut self.nodes,
            piped,
            slot,
            Port(number),
            count,
        )
    }

    /// Carries the first `count` bytes of a connection to its client. Fails with `Idle` if the
    /// client does not hold this connection, for no bytes, and for more than are in transit.
    pub(crate) fn carry_down(&mut self, number: u64, count: u64) -> Result<(), Idle>
        ensures goes { IsTrace self.old self.new }
        ensures meets { EventResultOrLost (Event.CarryDown number count) self.old result self.new }
        ensures once { CountsOnce self.old self.new }
    {
        let Some(slot) = self.slot(number) else {
            return Err(Idle);
        };
        match carry_down_on(&mut self.clients[slot.client].piped, slot.at, count) {
            Ok(whole) => {
                self.count_unless(whole);
                Ok(())
            }
            Err(idle) => Err(idle),
        }
    }

    fn count_unless(&mut self, whole: bool)
        ensures { self.new ≡ (if whole then self.old else with_one_loss self.old) }
    {
        if !whole {
            self.count_loss();
        }
    }
}
