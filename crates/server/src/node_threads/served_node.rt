// A node that serves, with the lanes of its threads.
//
// Each thread has a lane for good, taken out of its slot while it runs and put back when it
// returns; that is how `close` gets all lanes, without which a node cannot end. The own lane is
// under the lock `own` instead, since threads of other nodes use it, too. `own` is the first of all
// locks: its holder takes the node's, and through that the master's, an outbox's, an intake's and a
// waker's. A thread that helps only tries it, so no two threads wait for each other's own lanes.
// `lane_slots` is taken only while no other lock is held.

ghost use Rattle.std.specs.Prelude.{◌≡◌, ◌+◌, [], IfOk, map};
ghost use Rattle.lists.specs.Lists.{Each};
ghost use Rattle.run_history.specs.Log.{events_by, opening_log};
ghost use Rattle.server.specs.declared.node_threads.lane_slots.TheConstants.{LANES};
ghost use Rattle.server.specs.node_threads.Named.{AreFresh, AreNamed};

use crate::node_threads::lane_slots::{LANES, LaneSlot, LaneSlots, THREADS, run};
use crate::node_threads::node_context::{NodeContext, NodeContexts};
use crate::node_threads::opened_node::OpenedNode;
use crate::node_threads::own_lane::OwnLane;
use crate::node_threads::shared::Shared;
use machine::Memory;
use mailbox::Lane;
use node::{HasState, Node, NodeNaming, NodeState, Report};
use node_base::devices::Gate;
use run_history::{NodeOnRecord, RunNaming, SeenRun, SentItem};
use std::alloc::Global;
use std::marker::Model;
use std::mem;
use std::net::{Net, TcpStream};
use std::sync::{Mutex, Wait};
use std::thread::Threads;
use std::time::Clock;
use streams::writer::BlockedLinks;
use streams::{Closed, Connections};

/// A node that serves: what its threads share, and their lanes.
#[derive(Drop)]
pub struct ServedNode<'a, H: RunNaming, J: NodeNaming, S: HasState<H, J>, G: Gate> {
    /// The node's number, which is that of its listener.
    pub number: u8,
    pub(crate) shared: Shared<'a, H, J, S, G>,
    /// The own lane. Its holder does the node's turn with what was queued for it: the node's own
    /// thread, or a thread that queued something. It is this node's, but is under a lock, so no
    /// clause says that (see [`OwnLane`]): whoever locks it compares the numbers, which are always
    /// equal.
    pub(crate) own: Mutex<OwnLane<H, J>>,
    // The lanes of its connections, while no thread uses them.
    lane_slots: Mutex<LaneSlots<H, J>>,
    /// Whether a gate is asked before each taking.
    pub(crate) is_gated: bool,
    pub(crate) ghost its: { number ≡ shared.context.listener.now.number },
    pub(crate) ghost lanes: { shared.node.lanes ≡ LANES },
}

/// The fate of the items that were sent to one of the nodes.
#[derive(Drop)]
pub struct NodeReport {
    /// The node's number.
    pub number: u8,
    /// What it took, and what it left.
    pub report: Report,
}

/// How a node ended: the node as the run has it on record, and its report, which is right about it
/// by the prefix of the log that it knows.
#[derive(Drop)]
pub struct EndedNode<H: RunNaming> {
    pub(crate) report: NodeReport,
    pub(crate) node: NodeOnRecord<H>,
    // A prefix of the log by which the messages that its own lane brought had been sent.
    seen: SeenRun<H>,
}

impl<H: RunNaming> Model for EndedNode<H> {
    ghost use Rattle.server.specs.Ended.{EndedView, IsTold};

    ghost Value = { EndedView };

    ghost view = { λ ended.
        record { report = ended.report; node = ended.node; log = ended.seen } };

    ghost invariant = { λ ended.
        IsTold (record { report = ended.report; node = ended.node; log = ended.seen }) };
}

impl<H: RunNaming> EndedNode<H> {
    /// Returns a prefix of the log by which the messages that its own lane brought had been sent.
    pub(crate) fn seen(&self) -> &SeenRun<H>
        ensures { result.now ≡ self.now.log }
    {
        &self.seen
    }
}

impl<'a, H: RunNaming, J: NodeNaming, G: Gate> ServedNode<'a, H, J, NodeState<H, J>, G> {
    /// Returns a node that opened, ready to serve. The only error is that memory ran out.
    pub(crate) fn start<R: Wait>(
        rt: &R,
        alloc: Global,
        context: NodeContext<'a, H>,
        opened: OpenedNode<H>,
        opening: &SeenRun<H>,
        gate: Option<&'a G>,
    ) -> Result<ServedNode<'a, H, J, NodeState<H, J>, G>, Memory>
        requires context { context.listener.now.number ≡ opened.number }
        requires named { opened.inbox ≡ J.inbox_of opened.number }
        requires first { opened.node.node ≡ J.first_of opened.number }
        requires index { opened.node.index + 1 ≡ opened.number }
        requires none { events_by opened.number opened.node.log ≡ 0 }
        requires opening { opening.now ≡ opening_log H.nodes H.config H.linked }
        ensures { IfOk result (λ node. node.number ≡ opened.number) }
    {
        let OpenedNode {
            number,
            inbox,
            node,
        } = opened;
        context.peer.show(rt, node.core().status());
        let (receiver, lanes) = inbox.named::<J>(number, LANES)?;
        let (own, lane_slots) = lane_slots_of(alloc, number, lanes, opening)?;
        let node = Node::start(alloc, NodeState::new(receiver, node), gate)?;
        let connections = Connections::new(alloc)?;
        let blocked = BlockedLinks::new(alloc)?;
        Ok(ServedNode {
            number,
            shared: Shared {
                alloc,
                node,
                context,
                connections,
                blocked,
                opening: opening.again(),
            },
            own: Mutex::new(own),
            lane_slots: Mutex::new(lane_slots),
            is_gated: gate.is_some(),
        })
    }

    /// Ends the node, whose listener is closed and whose threads have returned. Reports the fate of
    /// the items that were sent to it, and returns the node as the run has it on record. Fails if
    /// not all its lanes came back. What they sent, and that the report is right about what the node
    /// took, is said by the types.
    pub fn close<R: Wait>(self, rt: &R, _closed: Closed) -> Result<EndedNode<H>, Memory>
        requires { _closed ≡ self.number }
        ensures { IfOk result (λ ended. ended.report.number ≡ self.entry.number) }
    {
        let ServedNode {
            number,
            shared,
            own,
            lane_slots,
            ..
        } = self;
        let (mut lanes, seen) = lane_slots
            .into_inner()
            .into_lanes(number, own.into_inner())?;
        let (report, node) = shared.close(rt, lanes.as_mut_slice())?;
        let report = NodeReport { number, report };
        Ok(EndedNode { report, node, seen })
    }
}

impl<'a, H: RunNaming, J: NodeNaming, S: HasState<H, J>, G: Gate> ServedNode<'a, H, J, S, G> {
    /// Ends all connections of the node, and admits no more: its threads return. Returns the
    /// witness that its listener is closed. The clause says only whose witness it is.
    pub fn close_listener<R: Wait + Clock + Net<Stream = TcpStream>>(&self, rt: &R) -> Closed
        ensures { result ≡ self.now.number }
    {
        self.shared
            .context
            .listener
            .close(rt, &self.shared.connections)
    }
}

impl<'a, H, J, S, G> ServedNode<'a, H, J, S, G>
where
    H: RunNaming + Send + Sync,
    J: NodeNaming + Send + Sync,
    S: HasState<H, J> + Send,
    G: Gate + Sync,
{
    /// Runs the node's threads until the listener is closed. No clause says so.
    pub fn work<R>(&self, rt: &R, all: &[ServedNode<'a, H, J, S, G>])
    where
        R: Threads + Wait + Clock + Sync,
    {
        let mut slots = mem::replace(
            &mut self.lane_slots.lock(rt).slots,
            Vec::new(self.shared.alloc),
        );
        run(rt, all, self, slots.as_mut_slice());
        self.lane_slots.lock(rt).slots = slots;
    }
}

/// Returns a served node for each that opened, with its listener's context. Fails if memory ran
/// out, or if a node has no listener; no clause says when.
pub fn start_all<'a, H: RunNaming, J: NodeNaming, R: Wait, G: Gate>(
    rt: &R,
    alloc: Global,
    contexts: &NodeContexts<'a, H>,
    opened: Vec<OpenedNode<H>>,
    opening: &SeenRun<H>,
    gate: Option<&'a G>,
) -> Result<Vec<ServedNode<'a, H, J, NodeState<H, J>, G>>, Memory>
    requires named { AreNamed J.inbox_of J.first_of opened.items }
    requires fresh { AreFresh opened.items }
    requires opening { opening.now ≡ opening_log H.nodes H.config H.linked }
    ensures { IfOk result (λ nodes.
        map (λ node. node.number) nodes.items ≡ map (λ one. one.number) opened.items) }
{
    let mut nodes = Vec::with_capacity(alloc, opened.len())?;
    for one in opened {
        // A node was opened for each listener, and is in the cluster. No clause says so.
        let context = contexts.context_of(one.number).ok_or(Memory)?;
        nodes.push(ServedNode::start(rt, alloc, context, one, opening, gate)?)?;
    }
    Ok(nodes)
}

// Returns the node's own lane, the first of these, and the slots of its threads with the others.
// Fails if memory ran out, or if there is no lane.
fn lane_slots_of<H: RunNaming, J: NodeNaming>(
    alloc: Global,
    number: u8,
    lanes: Vec<Lane<SentItem<H>, J>>,
    opening: &SeenRun<H>,
) -> Result<(OwnLane<H, J>, LaneSlots<H, J>), Memory>
    requires { Each (λ lane. lane.sent ≡ []) lanes.items }
    ensures { IfOk result (λ made. made.0.number ≡ number) }
{
    let back = Vec::with_capacity(alloc, lanes.len())?;
    let mut slots = Vec::with_capacity(alloc, THREADS)?;
    let mut lanes = lanes.into_iter();
    let Some(own) = lanes.next() else {
        // This does not come: an inbox has as many lanes as it was named with, `LANES`.
        return Err(Memory);
    };
    // The slots of the node's own thread and of the blocked writer have no lane.
    slots.push(LaneSlot::new(None))?;
    for lane in lanes {
        slots.push(LaneSlot::new(Some(lane)))?;
    }
    slots.push(LaneSlot::new(None))?;
    let own = OwnLane::new(number, own, opening.again());
    Ok((own, LaneSlots { slots, back }))
}
