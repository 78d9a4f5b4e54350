// A node under a lock, the gate before its takings, and its end.
//
// A node has neither a thread nor a device: whoever sends it an item takes what waits, one thread
// at a time. `passing` is taken before `state` and `missed`; these two are never held together.
// Without a gate only `state` is taken, and one permit allows several items under one lock. With a
// gate `passing` is held from reading the number of the next taking until the gate was told that it
// is done, so takings come one after another. `state` is not held while the gate is asked or a
// thread sleeps. A gate that stays shut only delays: after `GATE_ASKS` tries the node goes on, and
// the report counts it.

ghost use Rattle.std.specs.Prelude.{◌≡◌, ◌↔◌, All, IfOk, IfSome, IsSomeAnd, IsTrue, is_some, map, true};
ghost use Rattle.mailbox.specs.Ends.{ArrivesWhole, unmet};
ghost use Rattle.node.specs.LockedNode.{AreItsLanes, ReportsOn, WasAsked, WasInformed};

use crate::naming::NodeNaming;
use crate::node_state::NodeState;
use crate::permit::Permit;
use crate::report::{Report, ReportSpace};
use machine::Memory;
use mailbox::{Lane, MAX_ITEMS};
use node_base::devices::Gate;
use run_history::{NodeOnRecord, RunNaming, SentItem};
use std::alloc::Global;
use std::marker::{Model, PhantomData};
use std::sync::{Mutex, MutexGuard, Wait};
use std::thread;
use std::time::{Clock, Duration};

/// How many times a gate is asked before one taking, at most.
const GATE_ASKS: u32 = 10_000;

/// How long a thread sleeps between two such tries, in milliseconds.
const ASK_MILLIS: u64 = 1;

/// What the lock of a node holds. Code that starts threads is generic in this type, so it is proved
/// once that the whole may be handed from thread to thread, not at each thread that is started.
pub trait HasState<H: RunNaming, J: NodeNaming>: Drop {
    /// Returns the node's state.
    fn state(&mut self) -> &mut NodeState<H, J>;
}

impl<H: RunNaming, J: NodeNaming> HasState<H, J> for NodeState<H, J> {
    fn state(&mut self) -> &mut NodeState<H, J> {
        self
    }
}

/// A node under a lock, with the gate before each of its takings. It has no thread of its own:
/// whoever sent it an item takes what waits, one thread at a time.
#[derive(Drop)]
pub struct Node<'g, H: RunNaming, J: NodeNaming, S: HasState<H, J>, G: Gate> {
    // The node with its receiver.
    state: Mutex<S>,
    // The number of the node and of its inbox.
    number: u8,
    // Asked before each taking, if there is one.
    gate: Option<&'g G>,
    // Held, if there is a gate, until a taking is done.
    passing: Mutex<()>,
    // The number of takings for which the gate did not open (saturates at 2^64 - 1).
    missed: Mutex<u64>,
    // Allocated beforehand, so that closing needs no memory: for the report, and for what is left
    // over as it lies in the inbox.
    space: ReportSpace,
    envelopes: Vec<(u8, SentItem<H>)>,
    // Which node the number names; the caller chooses it.
    naming: PhantomData<J>,
}

impl<'g, H: RunNaming, J: NodeNaming, S: HasState<H, J>, G: Gate> Model for Node<'g, H, J, S, G> {
    ghost use Rattle.std.specs.Prelude.{◌≡◌, ◌≤◌, [], is_some, length, vec_capacity};
    ghost use Rattle.mailbox.specs.Ends.{max_items};
    ghost use Rattle.node.specs.Report.{HasCapacity};
    ghost use Rattle.node.specs.LockedNode.{NodeView};

    ghost Value = { NodeView };

    ghost view = { λ node. record {
      number = node.number;
      lanes = length node.space.taken.items;
      is_gated = is_some node.gate;
    } };

    ghost invariant = { λ node. HasCapacity (length node.space.taken.items) node.space
        × (node.envelopes.items ≡ []) × (max_items ≤ vec_capacity node.envelopes) };
}

impl<'g, H: RunNaming, J: NodeNaming, G: Gate> Node<'g, H, J, NodeState<H, J>, G> {
    /// Returns a node with this state, and a gate or none. Allocates space for its report. The only
    /// error is that memory ran out: then the state is dropped.
    pub fn start(
        alloc: Global,
        state: NodeState<H, J>,
        gate: Option<&'g G>,
    ) -> Result<Node<'g, H, J, NodeState<H, J>, G>, Memory>
        ensures number { IfOk result (λ node. node.number ≡ state.receiver.inbox) }
        ensures lanes { IfOk result (λ node. node.lanes ≡ state.receiver.lanes) }
        ensures gated { IfOk result (λ node. node.is_gated ≡ is_some gate.entry) }
    {
        let number = state.number();
        let space = ReportSpace::new(alloc, state.lanes())?;
        let envelopes = Vec::with_capacity(alloc, MAX_ITEMS)?;
        Ok(Node {
            state: Mutex::new(state),
            number,
            gate,
            passing: Mutex::new(()),
            missed: Mutex::new(0),
            space,
            envelopes,
            naming: PhantomData,
        })
    }

    /// Ends the node, once its lanes send no more. Reports the fate of everything that they sent,
    /// and returns the node as the run has it on record. Allocates nothing. The state is under a
    /// lock, so the call checks again that these are all its lanes; it would not return if they were
    /// others.
    pub fn close<R: Wait>(
        self,
        rt: &R,
        lanes: &mut [Lane<SentItem<H>, J>],
    ) -> (Report, NodeOnRecord<H>)
        requires lanes { AreItsLanes self lanes.old }

        // Lane by lane, what was taken followed by what is left over is all that was sent, in
        // order.
        ensures whole { All (ArrivesWhole result.0.taken result.0.left) lanes.new }
        ensures lanes { map unmet lanes.new ≡ map unmet lanes.old }

        // The report is about the node that is returned, which was the replay of what was taken; by
        // the run it took just that. It has the base of the node's log, and for each lane how many
        // items were taken: the first ones that the lane sent.
        ensures reports { ReportsOn
            (J.first_of self.entry.number) self.entry.number lanes.new result.0 result.1 }
    {
        let Node {
            state,
            number,
            missed,
            space,
            envelopes,
            ..
        } = self;
        let state = state.into_inner();
        // They are all its lanes, but no clause is about what was under a lock.
        if state.number() == number && state.lanes() == space.taken.len() && state.has_all(lanes) {
            return state.close(rt, lanes, space, envelopes, missed.into_inner());
        }
        for _ in rt.forever() {}
        unreachable!()
    }
}

impl<'g, H: RunNaming, J: NodeNaming, S: HasState<H, J>, G: Gate> Node<'g, H, J, S, G> {
    /// Returns the number of the node and of its inbox.
    pub fn number(&self) -> u8
        ensures { result ≡ self.now.number }
    {
        self.number
    }

    /// Returns true if these are all lanes of the node's inbox, in the order of their numbers.
    pub fn has_all(&self, lanes: &[Lane<SentItem<H>, J>]) -> bool
        ensures { IsTrue result ↔ AreItsLanes self.now lanes.now }
    {
        if lanes.len() != self.space.taken.len() {
            return false;
        }
        for (index, lane) in lanes.iter().enumerate() {
            if lane.number() != self.number || usize::from(lane.lane()) != index {
                return false;
            }
        }
        true
    }

    /// Locks the node's state. While it is locked, no item is taken.
    pub fn lock<R: Wait>(&self, rt: &R) -> MutexGuard<'_, S> {
        self.state.lock(rt)
    }

    /// Begins a taking. Without a gate it returns at once. With a gate it waits until the one
    /// before is done, and then until the gate opens for this one, or was asked [`GATE_ASKS`]
    /// times. No clause says how long it waits, or what another thread may begin.
    pub fn begin_taking<R: Wait + Clock>(&self, rt: &R) -> Permit<'_>
        ensures one { IfSome result.taking (λ _. result.most ≡ 1) }

        // The gate was asked about this node and taking, and the permit has its answer.
        ensures asked { self.now.is_gated ≡ true → IsSomeAnd result.taking (λ taking.
            WasAsked G.answers self.now.number taking result.is_open) }
    {
        let Some(gate) = self.gate else {
            return Permit::free();
        };
        let passing = self.passing.lock(rt);
        let taking = self.lock(rt).state().next_taking();
        let is_open = self.await_gate(rt, gate, taking);
        Permit::of_taking(taking, is_open, passing)
    }

    // Asks the gate until it opens, at most `GATE_ASKS` times. Returns its last answer, and counts
    // the taking if that is no.
    fn await_gate<R: Wait + Clock>(&self, rt: &R, gate: &G, taking: u64) -> bool
        ensures { WasAsked G.answers self.now.number taking result }
    {
        for _ in 1..GATE_ASKS {
            if gate.open(rt, self.number, taking) {
                return true;
            }
            thread::sleep(rt, Duration::from_millis(ASK_MILLIS));
        }
        let is_open = gate.open(rt, self.number, taking);
        if !is_open {
            let mut missed = self.missed.lock(rt);
            *missed = missed.saturating_add(1);
        }
        is_open
    }

    /// Ends a taking: tells the gate that it is done.
    pub fn end_taking<R: Wait>(&self, rt: &R, permit: Permit<'_>)
        ensures { self.now.is_gated ≡ true → IfSome permit.entry.taking (λ taking.
            WasInformed G.hears self.now.number taking) }
    {
        if let (Some(gate), Some(taking)) = (self.gate, permit.taking()) {
            gate.answered(rt, self.number, taking);
        }
    }
}
