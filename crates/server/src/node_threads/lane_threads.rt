// The thread of a lane, and the connections that it serves one after another.

ghost use Rattle.std.specs.Prelude.{◌≡◌, IfSome};
ghost use Rattle.std.specs.Arc.{arc_value};
ghost use Rattle.server.specs.node_threads.LaneReports.{EndsBy, ReportsOne, SendsRow, SendsWhole};

use crate::node_threads::lane_reporter::LaneReporter;
use crate::node_threads::served_node::ServedNode;
use crate::node_threads::shared::Shared;
use mailbox::Lane;
use node::{HasState, NodeNaming};
use node_base::connection::report_connection;
use node_base::devices::{Counted, Gate};
use run_history::{RunNaming, SentItem};
use std::alloc::Global;
use std::net::TcpStream;
use std::sync::{Arc, Wait};
use std::time::Clock;
use streams::{Closed, Link, forget, port_of};
use world_base::node_connections::Port;

/// How many connections a lane serves in its life, each at a port of its own.
const MAX_CONNECTIONS_OF_LANE: u64 = 1 << 56;

impl<'a, H: RunNaming, J: NodeNaming, S: HasState<H, J>, G: Gate> ServedNode<'a, H, J, S, G> {
    /// Serves one client after another until it sees the listener closed. Returns the lane and the
    /// witness, or no witness if all ports are used. For each connection the lane sent the whole
    /// report, at a port that no other has, and nothing else.
    pub(crate) fn serve_lane<R: Wait + Clock>(
        &self,
        rt: &R,
        all: &[ServedNode<'a, H, J, S, G>],
        lane: Lane<SentItem<H>, J>,
    ) -> (Lane<SentItem<H>, J>, Option<Closed>)
        ensures row { SendsRow lane.lane lane.sent result.0.sent }
        ensures ends { EndsBy self.now.number lane.lane result.1 lane.sent result.0.sent }
    {
        let number = lane.lane();
        let mut lane = lane;
        for count in 0..MAX_CONNECTIONS_OF_LANE {
            let stream = match self.shared.context.listener.accept(rt) {
                Ok(stream) => stream,
                Err(closed) => return (lane, Some(closed)),
            };
            lane = self.serve_stream(rt, all, lane, stream, port_of(number, count));
        }
        (lane, None)
    }

    // Serves a stream until its client or the node ends it. Closes it at once if the table is full
    // or memory runs out.
    fn serve_stream<R: Wait + Clock>(
        &self,
        rt: &R,
        all: &[ServedNode<'a, H, J, S, G>],
        lane: Lane<SentItem<H>, J>,
        stream: TcpStream,
        port: Port,
    ) -> Lane<SentItem<H>, J>
        ensures { ReportsOne port lane.sent result.sent }
    {
        let connections = &self.shared.connections;
        let Some(index) = connections.take_index(rt) else {
            return lane;
        };
        let lane = match self.shared.link(rt, port, index.number(), stream) {
            Some(link) => self.serve_link(rt, all, lane, link),
            None => lane,
        };
        connections.free(rt, index);
        lane
    }

    // Reports a connection until it ends, then ends its stream and drops what the node holds for
    // it. Returns the lane, which sent the whole report.
    fn serve_link<R: Wait + Clock>(
        &self,
        rt: &R,
        all: &[ServedNode<'a, H, J, S, G>],
        lane: Lane<SentItem<H>, J>,
        link: Arc<Link<H>, Global>,
    ) -> Lane<SentItem<H>, J>
        ensures { SendsWhole (arc_value link).port lane.sent result.sent }
    {
        let port = link.port;
        let lane = self.report_link(rt, all, lane, &link);
        link.shut();
        self.shared.forget_closed(rt, port);
        lane
    }

    // Reports a connection to the node until it ends. Returns the lane.
    fn report_link<R: Wait + Clock>(
        &self,
        rt: &R,
        all: &[ServedNode<'a, H, J, S, G>],
        lane: Lane<SentItem<H>, J>,
        link: &Arc<Link<H>, Global>,
    ) -> Lane<SentItem<H>, J>
        ensures { SendsWhole (arc_value link.now).port lane.sent result.sent }
    {
        let mut reporter = LaneReporter {
            served: self,
            all,
            link,
            lane,
        };
        let mut source = Counted::new(link.source());
        // However it ended, this was reported to the node.
        let _ = report_connection(rt, self.shared.alloc, link.port, &mut source, &mut reporter);
        reporter.lane
    }
}

impl<'a, H: RunNaming, J: NodeNaming, S: HasState<H, J>, G: Gate> Shared<'a, H, J, S, G> {
    // Returns the connection of a stream that was just accepted.
    fn link<R: Clock>(
        &self,
        rt: &R,
        port: Port,
        index: usize,
        stream: TcpStream,
    ) -> Option<Arc<Link<H>, Global>>
        ensures { IfSome result (λ link. (arc_value link).port ≡ port) }
    {
        let opened = self.context.now(rt);
        let number = self.node.number();
        let opening = self.opening.again();
        Link::of_stream(self.alloc, number, port, index, opened, stream, opening)
    }

    // Drops what the node still holds for a connection that has ended.
    fn forget_closed<R: Wait>(&self, rt: &R, port: Port) {
        forget(rt, self.alloc, self.node.lock(rt).state(), port);
    }
}
