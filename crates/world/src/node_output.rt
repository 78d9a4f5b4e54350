// Pending output of nodes goes into the pipes to their clients.

ghost use Rattle.std.specs.Prelude.{◌≡◌, ◌<◌, ◌-◌, true, false, Some, length, slice_get};
ghost use Rattle.world.specs.NodeOutput.{Gathers, GathersAmong};
ghost use Rattle.world_pipes.specs.clients.SlotsAreValid.{open_from};
ghost use Rattle.world.specs.Inside.PortOutput.{GatheringOrLost, GathersAt, marked};
ghost use Rattle.world_pipes.specs.clients.NodeOutput.{StaysQuiet};
ghost use Rattle.world.specs.Inside.Steps.{IsTrace};

use crate::world::World;
use world_base::node_connections::Port;
use world_pipes::clients::{ConnectionSlot, hand_down};

impl World {
    /// Moves a node's pending output into the pipes of all connections that are open there. The
    /// master, node 0, has none.
    pub(crate) fn gather(&mut self, node: u8)
        ensures goes { IsTrace self.old self.new }
        ensures gathers { Gathers false node self.old self.new }
        ensures still { self.new.losses ≡ self.old.losses }
        ensures quiet { StaysQuiet node self.old.nodes self.new.nodes }
    {
        if node != 0 {
            self.gather_open(node);
        }
    }

    // Moves a node's pending output into the pipes, walking the open connections of all nodes from
    // the newest to the oldest.
    fn gather_open(&mut self, node: u8)
        ensures goes { IsTrace self.old self.new }
        ensures gathers { GathersAmong false (length self.old.connections) node self.old self.new }
        ensures still { self.new.losses ≡ self.old.losses }
        ensures quiet { StaysQuiet node self.old.nodes self.new.nodes }
    {
        let mut at = self.open_len();
        while at > 0 {
            at -= 1;
            self.gather_at(node, at);
        }
    }

    // Moves the pending output of one open connection, by its index among those, into its pipe, if
    // it leads to the node.
    fn gather_at(&mut self, node: u8, at: usize)
        requires { at < length (open_from 1 self.old.connections) }
        ensures goes { IsTrace self.old self.new }
        ensures gathers { GathersAt node at self.old self.new }
        ensures still { self.new.losses ≡ self.old.losses }
        ensures quiet { StaysQuiet node self.old.nodes self.new.nodes }
    {
        let (number, slot) = self.open_at(at);
        if slot.node != node {
            return;
        }
        if !self.gather_on(slot, number) {
            self.close(at, slot, number);
        }
    }

    // Returns how many connections are open at their node.
    fn open_len(&self) -> usize
        ensures { result ≡ length (open_from 1 self.now.connections) }
    {
        self.open_ends.len()
    }

    // Returns an open connection by its index among those: its number and its slot.
    fn open_at(&self, at: usize) -> (u64, ConnectionSlot)
        requires { at < length (open_from 1 self.now.connections) }
        ensures number { slice_get (open_from 1 self.now.connections) at ≡ Some result.0 }
        ensures positive { 0 < result.0 }
        ensures slot { slice_get self.now.connections (result.0 - 1) ≡ Some result.1 }
        ensures up { result.1.is_open ≡ true }
    {
        let number = self.open_ends[at];
        (number, self.connections[number as usize - 1])
    }

    // Marks an open connection, by its index among those, as closed at its node.
    fn close(&mut self, at: usize, slot: ConnectionSlot, number: u64)
        requires number { slice_get (open_from 1 self.old.connections) at ≡ Some number }
        requires slot { slice_get self.old.connections (number - 1) ≡ Some slot }
        ensures { self.new ≡ marked number slot false self.old }
    {
        let mut closed = slot;
        closed.is_open = false;
        self.connections[number as usize - 1] = closed;
        self.open_ends.remove(at);
    }

    // Moves the pending output of a connection's node into its pipe. Returns true if its end there
    // is open.
    fn gather_on(&mut self, slot: ConnectionSlot, number: u64) -> bool
        requires stands { slice_get self.old.connections (number - 1) ≡ Some slot }
        requires positive { 0 < number }
        ensures goes { IsTrace self.old self.new }
        ensures connections { self.new.connections ≡ self.old.connections }
        ensures gathers { GatheringOrLost number slot self.old result self.new }
        ensures still { self.new.losses ≡ self.old.losses }
        ensures quiet { StaysQuiet slot.node self.old.nodes self.new.nodes }
    {
        let piped = &mut self.clients[slot.client].piped;
        hand_down(
            self.alloc,
            &mut self.nodes,
            piped,
            slot.at,
            slot.node,
            Port(number),
        )
    }
}
