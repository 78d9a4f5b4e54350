// Where the bytes for connections come from.

ghost use Rattle.std.specs.Prelude.{◌≡◌, IfOk, OnErr};
ghost use Rattle.node_base.specs.connection.Written.{HandsOver};

use crate::connection::tap::Tap;
use machine::Memory;
use std::sync::Wait;
use world_base::node_connections::Handed;

/// A source of queued bytes, each batch taken with a connection's tap: a node, also one under a
/// lock.
pub trait Outlet<T: Tap> {
    /// Appends what was queued for the tap's connection and not yet handed over. Returns whether
    /// more may come. The only error is that memory ran out, and then nothing is handed over.
    fn hand_over<R: Wait>(
        &mut self,
        rt: &R,
        tap: &mut T,
        out: &mut Vec<u8>,
    ) -> Result<Handed, Memory>
        ensures ok { IfOk result (λ answer.
            HandsOver T.hands tap.old answer tap.new out.old.items out.new.items) }
        ensures same { OnErr result (tap.new ≡ tap.old) }
        ensures err { OnErr result (out.new.items ≡ out.old.items) };
}
