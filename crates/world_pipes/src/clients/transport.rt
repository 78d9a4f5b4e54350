// Carrying bytes to a node or a client.

ghost use Rattle.std.specs.Prelude.{◌≡◌, ◌⊎◌, ◌≤◌, ◌<◌, true, false, length, IfOk, OnErr};
ghost use Rattle.world_pipes.specs.ModelSteps.{FollowsAll};
ghost use Rattle.world_pipes.specs.clients.NodesGoOn.{NodesGoOn};
ghost use Rattle.world_pipes.specs.clients.SlotsAreValid.{connection_targets};
ghost use Rattle.world_pipes.specs.clients.Transport.{CannotCarryDown, CannotCarryUp, CarriesDownOn, CarriesUpWhere};

use crate::PipedClient;
use crate::clients::connection_slot::ConnectionSlot;
use client_base::ClientError;
use master::Idle;
use std::alloc::Global;
use world_base::node_connections::{Piece, Port};
use world_nodes::Nodes;

/// Carries the first `count` bytes of a connection to its node, by this port. Returns false if
/// memory runs out: they stay in transit.
pub fn carry_to_node(
    alloc: Global,
    nodes: &mut Nodes,
    piped: &mut PipedClient,
    slot: ConnectionSlot,
    port: Port,
    count: u64,
) -> Result<bool, Idle>
    requires { slot.at < length piped.old.pairs }
    ensures nodes { NodesGoOn nodes.old nodes.new }
    ensures carries { IfOk result (λ whole.
        CarriesUpWhere whole slot port count nodes.old piped.old nodes.new piped.new) }
    ensures idle { OnErr result (CannotCarryUp slot count nodes.old piped.old) }
    ensures leads { connection_targets piped.new.pairs
        ≡ connection_targets piped.old.pairs }
    ensures same { OnErr result (nodes.new ≡ nodes.old) }
    ensures still { OnErr result (piped.new ≡ piped.old) }
{
    let waiting = piped.up(slot.at);
    if !is_part(count, waiting.len()) {
        return Err(Idle);
    }
    if !nodes.is_running(slot.node) {
        return Err(Idle);
    }
    let count = count as usize;
    let Ok(piece) = Piece::from_slice(alloc, &waiting[..count]) else {
        return Ok(false);
    };
    nodes.give_bytes(slot.node, port, piece)?;
    piped.take_up(slot.at, count);
    Ok(true)
}

/// Carries the first `count` bytes of a connection to its client. Fails with `Idle` for no bytes,
/// for more than are in transit, and if the client does not hold that connection. Returns false if
/// memory ran out.
pub fn carry_down_on(piped: &mut PipedClient, at: usize, count: u64) -> Result<bool, Idle>
    requires { at < length piped.old.pairs }
    ensures goes { FollowsAll piped.old piped.new }
    ensures leads { connection_targets piped.new.pairs
        ≡ connection_targets piped.old.pairs }
    ensures carries { IfOk result (λ whole. CarriesDownOn whole at count piped.old piped.new) }
    ensures idle { OnErr result (CannotCarryDown at count piped.old) }
    ensures same { OnErr result (piped.new ≡ piped.old) }
{
    if !piped.is_open() || at != piped.len() - 1 {
        return Err(Idle);
    }
    if !is_part(count, piped.down(at).len()) {
        return Err(Idle);
    }
    Ok(piped.carry_down(count as usize) != Err(ClientError::Memory))
}

// Returns true for at least one byte, and for no more than are in transit.
fn is_part(count: u64, waiting: usize) -> bool
    ensures yes { result ≡ true → (0 < count) × (count ≤ waiting) }
    ensures no { result ≡ false → (count ≡ 0) ⊎ (waiting < count) }
{
    count != 0 && count <= waiting as u64
}
