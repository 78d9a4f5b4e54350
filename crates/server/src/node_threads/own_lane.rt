// The lane for everything that does not come from a node's clients.

ghost use Rattle.std.specs.Prelude.{◌≡◌, [], IfOk};
ghost use Rattle.run_history.specs.Log.{sent_in};
ghost use Rattle.server.specs.node_threads.LaneReports.{SendsOwn};

use machine::Memory;
use mailbox::Lane;
use node::NodeNaming;
use run_history::{RunNaming, SeenRun, SentItem};
use std::marker::Model;

/// The lane by which everything is sent to a node that does not come from its clients, and the
/// node's number. It is under a lock, so its type says what it sent since it was made: ticks, cuts
/// of the log, and what was queued for the node. No clause of a call that locks it says whose it
/// is, so whoever locks it asks it for its number.
#[derive(Drop)]
pub(crate) struct OwnLane<H: RunNaming, J: NodeNaming> {
    number: u8,
    /// The lane; all that it sent was meant for this node.
    pub(crate) lane: Lane<SentItem<H>, J>,
    /// A prefix of the log in which the messages that it handed on were sent.
    pub(crate) seen: SeenRun<H>,
}

impl<H: RunNaming, J: NodeNaming> Model for OwnLane<H, J> {
    ghost use Rattle.std.specs.Prelude.{[]};
    ghost use Rattle.run_history.specs.Log.{sent_in};
    ghost use Rattle.server.specs.node_threads.LaneReports.{OwnLaneView, SendsOwn};

    ghost Value = { OwnLaneView };

    ghost view = { λ own. record { number = own.number; lane = own.lane; log = own.seen } };

    ghost invariant = { λ own. SendsOwn (sent_in own.seen) own.number [] own.lane.sent };
}

impl<H: RunNaming, J: NodeNaming> OwnLane<H, J> {
    /// Returns the own lane of this node, on which nothing was sent. `opening` is any prefix of the
    /// run's log.
    pub(crate) fn new(number: u8, lane: Lane<SentItem<H>, J>, opening: SeenRun<H>) -> OwnLane<H, J>
        requires { lane.sent ≡ [] }
        ensures { result ≡ record { number = number; lane = lane; log = opening } }
    {
        OwnLane {
            number,
            lane,
            seen: opening,
        }
    }

    pub(crate) fn number(&self) -> u8
        ensures { result ≡ self.now.number }
    {
        self.number
    }

    /// Returns the lane, and the prefix of the log by which what it handed on had been sent to the
    /// node of this number. Fails with `Memory` if it is the lane of another node, which does not
    /// occur.
    pub(crate) fn into_lane_of(
        self,
        number: u8,
    ) -> Result<(Lane<SentItem<H>, J>, SeenRun<H>), Memory>
        ensures lane { IfOk result (λ ended. ended.0 ≡ self.lane) }
        ensures log { IfOk result (λ ended. ended.1 ≡ self.log) }
        ensures sent { IfOk result (λ ended.
            SendsOwn (sent_in ended.1) number [] ended.0.sent) }
    {
        let OwnLane {
            number: own,
            lane,
            seen,
        } = self;
        if own == number {
            Ok((lane, seen))
        } else {
            Err(Memory)
        }
    }
}
