// Writing on one connection.

ghost use Rattle.std.specs.Prelude.{IfSome};
ghost use Rattle.std.specs.Arc.{arc_value};
ghost use Rattle.streams.specs.WriteTokens.{HasWholeStream, IsTokenOf};

use crate::writer::writer::Writer;
use crate::{Link, PortTap, WriteToken};
use machine::Memory;
use node::{HasState, NodeNaming};
use node_base::connection::{Flow, Outlet};
use node_base::devices::Gate;
use run_history::RunNaming;
use std::alloc::Global;
use std::sync::{Arc, Wait};
use world_base::node_connections::Handed;

// The node under its lock, as the outlet of its connections.
#[derive(Drop)]
struct Source<'e, 'a, H: RunNaming, J: NodeNaming, S: HasState<H, J>, G: Gate> {
    writer: &'e Writer<'e, 'a, H, J, S, G>,
}

impl<'e, 'a, H: RunNaming, J: NodeNaming, S: HasState<H, J>, G: Gate> Outlet<PortTap<H>>
    for Source<'e, 'a, H, J, S, G> {
    fn hand_over<R: Wait>(
        &mut self,
        rt: &R,
        tap: &mut PortTap<H>,
        out: &mut Vec<u8>,
    ) -> Result<Handed, Memory> {
        let writer = self.writer;
        tap.hand_over(rt, writer.node.lock(rt).state(), out)
    }
}

impl<'e, 'a, H: RunNaming, J: NodeNaming, S: HasState<H, J>, G: Gate> Writer<'e, 'a, H, J, S, G> {
    /// Writes what the node queued for a connection, unless another thread writes there, which then
    /// looks again. What a full socket does not take is left to the blocked writer. `waits` is true
    /// if this thread may wait for a full socket, for a millisecond; a thread that does a node's
    /// turn may not.
    pub(crate) fn flush<R: Wait>(&self, rt: &R, link: &Arc<Link<H>, Global>, waits: bool) {
        let Some(token) = link.take_token(rt) else {
            return;
        };
        match self.write_until_blocked(rt, link, token, waits) {
            Some(token) => self.hand_blocked(rt, link, token),
            None => {}
        }
    }

    /// Writes what a full socket left over and what the node queued, until nothing is left, and
    /// puts the token back. Returns the token if the socket is full. Ends a stream that takes no
    /// more, and its token.
    pub(crate) fn write_until_blocked<R: Wait>(
        &self,
        rt: &R,
        link: &Arc<Link<H>, Global>,
        token: WriteToken<H>,
        waits: bool,
    ) -> Option<WriteToken<H>>
        requires { IsTokenOf (arc_value link.now).port token }
        ensures { IfSome result (λ blocked. IsTokenOf (arc_value link.now).port blocked) }
    {
        let mut token = token;
        for _ in rt.forever() {
            match self.write_waiting(rt, link, &mut token, waits) {
                Flow::Open => match link.put_back(rt, token) {
                    Some(kept) => token = kept,
                    None => return None,
                },
                Flow::Blocked => return Some(token),
                Flow::Closed | Flow::Stopped | Flow::Fault => {
                    link.end(token);
                    return None;
                }
            }
        }
        unreachable!()
    }

    // Writes once; waits for a full socket if `waits` is true.
    fn write_waiting<R: Wait>(
        &self,
        rt: &R,
        link: &Arc<Link<H>, Global>,
        token: &mut WriteToken<H>,
        waits: bool,
    ) -> Flow
        ensures { IsTokenOf token.old.tap.port token.new }
    {
        if waits {
            return self.write_once(rt, token);
        }
        if !link.set_waiting(false) {
            return Flow::Stopped;
        }
        let flow = self.write_once(rt, token);
        if link.set_waiting(true) {
            flow
        } else {
            Flow::Stopped
        }
    }

    // Writes what a full socket left over, then what the node hands over, as far as the socket
    // takes it.
    fn write_once<R: Wait>(&self, rt: &R, token: &mut WriteToken<H>) -> Flow
        ensures whole { HasWholeStream H.linked H.nodes H.config token.new }
        ensures port { IsTokenOf token.old.tap.port token.new }
    {
        let mut source = Source { writer: self };
        token.write(rt, &mut source)
    }
}
