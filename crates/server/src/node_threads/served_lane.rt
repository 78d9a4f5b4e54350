// A lane of connections that came back from its thread.

ghost use Rattle.std.specs.Prelude.{◌≡◌, IfOk, []};
ghost use Rattle.server.specs.node_threads.LaneReports.{SendsRow};
ghost use Rattle.server.specs.node_threads.ThreadLives.{HasServed};

use machine::Memory;
use mailbox::Lane;
use node::NodeNaming;
use run_history::{RunNaming, SentItem};
use std::marker::Model;

/// A lane that came back from the thread that served by it. It is kept under a lock, so its type
/// says what it ever sent: the reports of its connections, whole, one after another, each at a port
/// of its own.
#[derive(Drop)]
pub(crate) struct ServedLane<H: RunNaming, J: NodeNaming> {
    // The number by which its connections got their ports. It is the lane's, but no clause says
    // so of a sink of reports.
    number: u8,
    lane: Lane<SentItem<H>, J>,
}

impl<H: RunNaming, J: NodeNaming> Model for ServedLane<H, J> {
    ghost use Rattle.std.specs.Prelude.{[]};
    ghost use Rattle.server.specs.node_threads.LaneReports.{SendsRow};
    ghost use Rattle.server.specs.node_threads.ThreadLives.{ServedLaneView};

    ghost Value = { ServedLaneView };

    ghost view = { λ served. record { number = served.number; lane = served.lane } };

    ghost invariant = { λ served. SendsRow served.number [] served.lane.sent };
}

impl<H: RunNaming, J: NodeNaming> ServedLane<H, J> {
    /// Returns the lane of this number, which sent all that its connections reported.
    pub(crate) fn new(number: u8, lane: Lane<SentItem<H>, J>) -> ServedLane<H, J>
        requires { SendsRow number [] lane.sent }
        ensures { result ≡ record { number = number; lane = lane } }
    {
        ServedLane { number, lane }
    }

    /// Returns the lane itself. Fails with `Memory` if it has another number, which does not occur.
    pub(crate) fn into_lane(self) -> Result<Lane<SentItem<H>, J>, Memory>
        ensures lane { IfOk result (λ lane. lane ≡ self.lane) }
        ensures served { IfOk result HasServed }
    {
        let ServedLane { number, lane } = self;
        if lane.lane() == number {
            Ok(lane)
        } else {
            Err(Memory)
        }
    }
}
