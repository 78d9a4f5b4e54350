// The sink of a connection's reports: a lane to the node's inbox.
//
// A report does everything before it returns: it waits for the intake budget, sends the item, takes
// what waits in the inbox (this item, too), does turns of nodes for which something was queued, and
// writes, to its own connection first. So a piece is answered by the thread that read it, and a
// client that sends faster than its node takes is not read meanwhile. No lock is held from one of
// these steps to the next.

ghost use Rattle.std.specs.Prelude.{◌≡◌, ◌≤◌, min};
ghost use Rattle.server.specs.node_threads.LaneReports.{client_bytes};

use crate::node_threads::served_node::ServedNode;
use mailbox::Lane;
use node::{HasState, NodeNaming};
use node_base::connection::ReportSink;
use node_base::devices::{Gate, PIECE_BYTES};
use run_history::{RunNaming, SentItem};
use std::alloc::Global;
use std::sync::{Arc, Wait};
use std::time::Clock;
use streams::Link;
use world_base::node_connections::Standing;
use world_base::node_core::Item;

/// A connection's lane, as the sink of its reports: what is reported is what the lane sent.
#[derive(Drop)]
pub(crate) struct LaneReporter<'e, 'a, H: RunNaming, J: NodeNaming, S: HasState<H, J>, G: Gate> {
    pub(crate) served: &'e ServedNode<'a, H, J, S, G>,
    /// All nodes of the program, whose turns it may do.
    pub(crate) all: &'e [ServedNode<'a, H, J, S, G>],
    pub(crate) link: &'e Arc<Link<H>, Global>,
    /// The lane. While the connection lasts, it sends nothing else.
    pub(crate) lane: Lane<SentItem<H>, J>,
}

impl<'e, 'a, H: RunNaming, J: NodeNaming, S: HasState<H, J>, G: Gate> ReportSink
    for LaneReporter<'e, 'a, H, J, S, G> {
    ghost heard = { λ reporter. reporter.lane.sent };

    // What decides is under a lock, of which no clause speaks.
    ghost lets = { λ _ _. Unit {0} };

    fn now<R: Clock>(&self, rt: &R) -> u64 {
        let served = self.served;
        served.shared.context.now(rt)
    }

    // Reserves budget for the item's bytes, sends the item, and takes what waits. Then does turns
    // of nodes for which something was queued, and writes what this node queued, to this connection
    // first.
    fn report<R: Wait + Clock>(&mut self, rt: &R, item: Item) {
        let served = self.served;
        let all = self.all;
        let shared = &served.shared;
        let index = self.link.index;
        let admitted = shared.admit(rt, self.link.port, client_bytes_of(&item));
        let sent = SentItem::from_outside(rt, served.number, item, shared.opening.again());
        shared.send_and_take(rt, &mut self.lane, sent);
        shared.context.peer.count_taken(rt, admitted);
        served.help(rt, all);
        shared.writer().write_busy(rt, index, true);
    }

    // Lists the connection for writing. Returns false if the node did not take it, since it is no
    // primary, or if the listener is closed. It is listed only now, since a port that the node has
    // not heard of counts as closed.
    fn let_in<R: Wait>(&self, rt: &R) -> bool {
        let Ok(link) = Arc::try_clone(self.link) else {
            return false;
        };
        let served = self.served;
        let shared = &served.shared;
        let standing = shared.node.lock(rt).state().standing(self.link.port);
        shared.connections.list(rt, link);
        standing != Standing::Closed && !shared.context.listener.is_closed(rt)
    }
}

// Returns how many bytes of a client an item carries, at most as many as a read returns.
fn client_bytes_of(item: &Item) -> u64
    ensures size { result ≡ min (client_bytes item.now) PIECE_BYTES }
    ensures most { result ≤ PIECE_BYTES }
{
    match item {
        Item::Bytes(_, piece, _) => piece.as_slice().len().min(PIECE_BYTES) as u64,
        _ => 0,
    }
}
