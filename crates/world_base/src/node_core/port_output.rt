// Pending output of a node's connections.

ghost use Rattle.std.specs.Prelude.{◌≡◌, ◌++◌, [], IfOk, IsOk, OnErr, OnOk};
ghost use Rattle.std.specs.List.{position};
ghost use Rattle.world_base.specs.node_connections.Connections.{is_at};
ghost use Rattle.world_base.specs.node_connections.Stands.{standing_of};
ghost use Rattle.world_base.specs.node_connections.PendingOutput.{handed_after, pending_bytes};
ghost use Rattle.world_base.specs.node_core.PortOutput.{hands_over, listed_at};

use crate::node_connections::{Handed, Port, Standing, keep_listed};
use crate::node_core::stepping_node::SteppingNode;
use machine::Memory;

impl SteppingNode {
    /// Moves the pending output of a port to the end of `out`. If memory runs out, nothing changes;
    /// without pending output it never does.
    pub(crate) fn outgoing(&mut self, port: Port, out: &mut Vec<u8>) -> Result<Handed, Memory>
        ensures left { OnOk result
            (self.new ≡ record self.old { core = hands_over port self.old.core }) }
        ensures bytes { OnOk result
            (out.new.items ≡ out.old.items ++ pending_bytes (listed_at port self.old.core)) }
        ensures answer { IfOk result (λ handed.
            handed ≡ handed_after (listed_at port self.old.core)) }
        ensures nothing { pending_bytes (listed_at port self.old.core) ≡ [] → IsOk result }
        ensures same { OnErr result (self.new ≡ self.old) }
        ensures err { OnErr result (out.new.items ≡ out.old.items) }
    {
        let Some(index) = self.index_listed(port) else {
            return Ok(Handed::Closed);
        };
        let connection = &mut self.connections[index];
        let handed = connection.handed();
        connection.outgoing(out)?;
        keep_listed(&mut self.connections);
        Ok(handed)
    }

    /// Returns the state of a port's connection.
    pub(crate) fn standing(&self, port: Port) -> Standing
        ensures { result ≡ standing_of (listed_at port self.now.core) }
    {
        let Some(index) = self.index_listed(port) else {
            return Standing::Closed;
        };
        let connection = &self.connections[index];
        connection.standing()
    }

    fn index_listed(&self, port: Port) -> Option<usize>
        ensures { result ≡ position (is_at port) self.now.core.connections }
    {
        self.connections
            .iter()
            .position(|connection| connection.is_at(port))
    }
}
