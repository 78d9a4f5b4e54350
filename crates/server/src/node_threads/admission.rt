// Waiting for a node's intake budget.

ghost use Rattle.std.specs.Prelude.{◌≡◌, ◌≤◌, IfSome, None, false};
ghost use Rattle.post.specs.Several.{has_several};

use crate::node_threads::shared::Shared;
use node::{HasState, NodeNaming};
use node_base::devices::{Gate, PIECE_BYTES};
use post::AdmittedBytes;
use run_history::RunNaming;
use std::sync::Wait;
use std::thread;
use std::time::{Clock, Duration};
use world_base::node_connections::{Port, Standing};

/// How long a thread sleeps before it asks again for budget, in milliseconds.
const ADMIT_LOOK_MILLIS: u64 = 1;

impl<'a, H: RunNaming, J: NodeNaming, S: HasState<H, J>, G: Gate> Shared<'a, H, J, S, G> {
    /// Waits until the node's intake budget has room, and reserves `bytes` of it. Reserves nothing
    /// if no ballot has other members, if the node has closed the connection, or if the listener is
    /// closed.
    pub(crate) fn admit<R: Wait + Clock>(
        &self,
        rt: &R,
        port: Port,
        bytes: u64,
    ) -> Option<AdmittedBytes>
        requires { bytes ≤ PIECE_BYTES }
        ensures all { IfSome result (λ admitted. admitted ≡ bytes) }
        ensures none { bytes ≡ 0 → result ≡ None }
        ensures alone { has_several self.now.context.neighbours ≡ false → result ≡ None }
    {
        if bytes == 0 || !self.context.neighbours.are_several() {
            return None;
        }
        for _ in rt.forever() {
            if let Some(admitted) = self.context.peer.admit(rt, bytes) {
                return Some(admitted);
            }
            if self.needs_nothing_more(rt, port) {
                return None;
            }
            thread::sleep(rt, Duration::from_millis(ADMIT_LOOK_MILLIS));
        }
        unreachable!()
    }

    // Returns true if the listener or the port's connection is closed.
    fn needs_nothing_more<R: Wait>(&self, rt: &R, port: Port) -> bool {
        self.context.listener.is_closed(rt)
            || self.node.lock(rt).state().standing(port) == Standing::Closed
    }
}
