// The blocked writer: the thread that continues with connections whose sockets were full.

ghost use Rattle.std.specs.Prelude.{◌≡◌, ◌<◌, ◌≤◌, ◌*◌, IfSome, min};
ghost use Rattle.std.specs.Arc.{arc_value};
ghost use Rattle.streams.specs.WriteTokens.{IsTokenOf};

use crate::writer::blocked_links::empty_list;
use crate::writer::writer::Writer;
use crate::{BlockedLink, Closed, Link, WriteToken};
use node::{HasState, NodeNaming};
use node_base::devices::Gate;
use run_history::RunNaming;
use std::alloc::Global;
use std::mem;
use std::sync::{Arc, Wait};
use std::time::Duration;
use world_base::node_connections::Standing;

/// How long it sleeps at most before it looks whether the listener is closed, in milliseconds.
const CLOSED_LOOK_MILLIS: u64 = 200;

/// Its first pause before it tries full sockets again, in milliseconds.
const FIRST_PAUSE_MILLIS: u64 = 1;

/// Its longest pause before it tries them again, in milliseconds.
const MAX_PAUSE_MILLIS: u64 = 16;

impl<'e, 'a, H: RunNaming, J: NodeNaming, S: HasState<H, J>, G: Gate> Writer<'e, 'a, H, J, S, G> {
    /// Works as the blocked writer until it sees the listener closed. Returns the witness. No
    /// thread waits for this one, and it waits for no socket: between its tries it sleeps, longer
    /// each time while all stay full. The clause says only whose witness it is.
    pub fn write_blocked<R: Wait>(&self, rt: &R) -> Closed
        ensures { result ≡ self.now.listener.now.number }
    {
        let mut pause = FIRST_PAUSE_MILLIS;
        for _ in rt.forever() {
            if let Some(closed) = self.listener.closed(rt) {
                return closed;
            }
            let (tried, left) = self.write_each_blocked(rt);
            pause = next_pause(pause, tried, left);
            self.blocked.waker.park_timeout(
                rt,
                Duration::from_millis(if left == 0 { CLOSED_LOOK_MILLIS } else { pause }),
            );
        }
        unreachable!()
    }

    /// Leaves a connection whose socket is full to the blocked writer, and wakes it.
    pub(crate) fn hand_blocked<R: Wait>(
        &self,
        rt: &R,
        link: &Arc<Link<H>, Global>,
        token: WriteToken<H>,
    )
        requires { IsTokenOf (arc_value link.now).port token }
    {
        if self.keep_blocked(rt, link, token) {
            self.blocked.waker.unpark();
        }
    }

    // Adds a connection for the next round. Returns false if memory ran out: then the connection is
    // ended.
    fn keep_blocked<R: Wait>(
        &self,
        rt: &R,
        link: &Arc<Link<H>, Global>,
        token: WriteToken<H>,
    ) -> bool
        requires { IsTokenOf (arc_value link.now).port token }
    {
        match Arc::try_clone(link) {
            Ok(own) => {
                let kept = self
                    .blocked
                    .links
                    .lock(rt)
                    .push(BlockedLink::new(own, token))
                    .is_ok();
                if !kept {
                    link.shut();
                }
                kept
            }
            Err(_) => {
                link.end(token);
                false
            }
        }
    }

    // Tries all connections whose sockets were full. Returns how many there were, and how many are
    // still full.
    fn write_each_blocked<R: Wait>(&self, rt: &R) -> (usize, usize) {
        let blocked = self.take_blocked(rt);
        let tried = blocked.len();
        let mut left = 0usize;
        for one in blocked {
            let (link, token) = one.into_parts();
            match self.retry_blocked(rt, &link, token) {
                Some(token) => {
                    left = left.saturating_add(1);
                    let _ = self.keep_blocked(rt, &link, token);
                }
                None => {}
            }
        }
        (tried, left)
    }

    // Takes all connections whose sockets were full. Leaves a list with capacity for all that the
    // node serves; if there is no memory for that, takes none, and they are tried later.
    fn take_blocked<R: Wait>(&self, rt: &R) -> Vec<BlockedLink<H>> {
        match empty_list(self.alloc) {
            Ok(empty) => mem::replace(&mut *self.blocked.links.lock(rt), empty),
            Err(_) => Vec::new(self.alloc),
        }
    }

    // Writes as much as the socket takes. Returns the token if the socket is still full, unless the
    // node closed the connection meanwhile: then it is ended, so that a client that does not read
    // keeps no index.
    fn retry_blocked<R: Wait>(
        &self,
        rt: &R,
        link: &Arc<Link<H>, Global>,
        token: WriteToken<H>,
    ) -> Option<WriteToken<H>>
        requires { IsTokenOf (arc_value link.now).port token }
        ensures { IfSome result (λ blocked. IsTokenOf (arc_value link.now).port blocked) }
    {
        let token = self.write_until_blocked(rt, link, token, false)?;
        let standing = self.node.lock(rt).state().standing(link.port);
        if standing == Standing::Closed {
            link.end(token);
            return None;
        }
        Some(token)
    }
}

// Returns the next pause, by how many connections were tried and how many of these are still full.
fn next_pause(pause: u64, tried: usize, left: usize) -> u64
    ensures none { left ≡ 0 → result ≡ FIRST_PAUSE_MILLIS }
    ensures fewer { left < tried → result ≡ FIRST_PAUSE_MILLIS }

    // While all stay full, the pause doubles.
    ensures all { 0 < left → tried ≤ left → result ≡ min (2 * pause) MAX_PAUSE_MILLIS }
{
    if left == 0 || left < tried {
        FIRST_PAUSE_MILLIS
    } else {
        pause.saturating_mul(2).min(MAX_PAUSE_MILLIS)
    }
}
