// A node with its inbox.
//
// The invariant: the core is the fold of `NodeCore::step` over the items taken from the inbox, in
// order. Handing over queued bytes may come in between; nothing else changes the core. Receiver and
// core are one value, kept under one lock, and no call returns the core to be changed. So no item
// is taken without its step, and none is stepped twice. Each of these steps is an event of the run,
// and by the run the node of the inbox's number took just these items. `grown`, `takings` and
// `counts` are counters beside it: when the size of the log makes a cut due, what a gate is asked
// about, and how many bytes were handed over for each of the newest ports.

ghost use Rattle.std.specs.Prelude.{◌≡◌, ◌≤◌, ◌+◌, ◌++◌, ◌∷◌, ◌*◌, ◌↔◌, [], length, map, slice_index};
ghost use Rattle.std.specs.Prelude.{vec_capacity};
ghost use Rattle.std.specs.Prelude.{take, true, false, All, EachIndex, IfOk, IsOk, IsTrue, OnErr, OnOk};
ghost use Rattle.mailbox.specs.Delivery.{items_of_lane, no_bounds};
ghost use Rattle.mailbox.specs.Ends.{AreAllLanes, ArrivesWhole, HasArrived, WasEmpty, max_items, unmet};
ghost use Rattle.mailbox.specs.declared.lane.TheConstants.{MAX_SENT};
ghost use Rattle.ballot_base.specs.Replica.{status_of};
ghost use Rattle.lists.specs.Lists.{IsPrefixOf};
ghost use Rattle.world_base.specs.node_connections.Stands.{standing_of};
ghost use Rattle.world_base.specs.node_connections.PendingOutput.{handed_after, pending_bytes};
ghost use Rattle.world_base.specs.node_core.PortOutput.{hands_over, idle_ports, listed_at};
ghost use Rattle.node.specs.Growth.{wants_cut};
ghost use Rattle.node.specs.HandedCounts.{counted_at, counts_after, opening_counts};
ghost use Rattle.node.specs.Report.{HasCapacity, ReportsAll};
ghost use Rattle.node.specs.State.{AreOfLanes, IsOnRecord, Replays, TakesOne, items_of, next_taking, on_record};
ghost use Rattle.run_history.specs.Log.{events_by, items_taken};
ghost use Rattle.run_history.specs.Parties.{HandedOver};

use crate::growth::{grown, is_large};
use crate::handed_counts::HandedCounts;
use crate::naming::NodeNaming;
use crate::report::{Report, ReportSpace};
use ballot_base::{Effect, Status};
use broker_spec::{Command, Output};
use machine::Memory;
use mailbox::{Lane, Receipt, Receiver};
use run_history::{NodeOnRecord, RunNaming, SeenRun, SentItem};
use std::marker::Model;
use std::sync::Wait;
use world_base::node_connections::{Handed, Port, Standing};
use world_base::node_core::Item;

/// A node with the receiver of its inbox. Whatever calls come, the node's state is the fold of
/// `step` over the items taken.
#[derive(Drop)]
pub struct NodeState<H: RunNaming, J: NodeNaming> {
    receiver: Receiver<SentItem<H>, J>,
    // The node as the run has it on record: its steps are events of the run.
    node: NodeOnRecord<H>,
    // The bytes that the items since the last cut brought (saturates at 2^64 - 1).
    grown: u64,
    // How many times [`NodeState::take_one`] was called (saturates at 2^64 - 1).
    takings: u64,
    // How many bytes were handed over for the newest ports.
    counts: HandedCounts,
}

impl<H: RunNaming, J: NodeNaming> Model for NodeState<H, J> {
    ghost use Rattle.std.specs.Prelude.{◌≡◌, ◌+◌};
    ghost use Rattle.node.specs.Growth.{bytes_since_cut, saturated};
    ghost use Rattle.node.specs.HandedCounts.{CountsAreRight};
    ghost use Rattle.node.specs.State.{AreOfLanes, Replays, NodeStateView, items_of};
    ghost use Rattle.run_history.specs.Log.{items_taken};

    ghost Value = { NodeStateView };

    ghost view = { λ state. record {
      receiver = state.receiver;
      node = state.node.node;
      log = state.node.log;
      takings = state.takings;
      counts = state.counts;
    } };

    ghost invariant = { λ state.
        Replays (J.first_of state.receiver.inbox) state.receiver.taken state.node.node
        × (state.grown ≡ saturated (bytes_since_cut state.receiver.taken))
        × (state.node.index + 1 ≡ state.receiver.inbox)
        × (items_taken state.receiver.inbox state.node.log ≡ items_of state.receiver.taken)
        × AreOfLanes state.receiver
        × CountsAreRight H.nodes H.config state.node.index state.node.log state.counts };
}

impl<H: RunNaming, J: NodeNaming> NodeState<H, J> {
    /// Returns a node that has done nothing yet: the one of the inbox's number in the run.
    pub fn new(receiver: Receiver<SentItem<H>, J>, node: NodeOnRecord<H>) -> NodeState<H, J>
        requires fresh { receiver.taken ≡ [] }
        requires first { node.node ≡ J.first_of receiver.inbox }
        requires number { node.index + 1 ≡ receiver.inbox }
        requires none { events_by receiver.inbox node.log ≡ 0 }
        ensures { result ≡ record {
          receiver = receiver;
          node = node.node;
          log = node.log;
          takings = 0;
          counts = opening_counts;
        } }
    {
        NodeState {
            receiver,
            node,
            grown: 0,
            takings: 0,
            counts: HandedCounts::new(),
        }
    }

    /// Proves that the node is on record: by the log that it knows, which is that of a run, it has
    /// its state, took just what was taken from its inbox, and handed over what it counts.
    pub fn is_on_record(&self)
        ensures { IsOnRecord H.linked H.nodes H.config self.now }
    {
        self.node.is_of_run();
        self.node.seen().is_run();
    }

    /// Returns the prefix of the run's log that it knows.
    pub fn seen(&self) -> SeenRun<H>
        ensures { result ≡ self.now.log }
    {
        self.node.seen()
    }

    /// Returns the number of its inbox.
    pub fn number(&self) -> u8
        ensures { result ≡ self.now.receiver.inbox }
    {
        self.receiver.number()
    }

    /// Returns how many lanes its inbox has.
    pub fn lanes(&self) -> usize
        ensures { result ≡ self.now.receiver.lanes }
    {
        self.receiver.lanes()
    }

    /// Returns true if these are all lanes of its inbox, in the order of their numbers.
    pub fn has_all(&self, lanes: &[Lane<SentItem<H>, J>]) -> bool
        ensures { IsTrue result ↔ AreAllLanes self.now.receiver lanes.now }
    {
        self.receiver.has_all(lanes)
    }

    /// Returns a receipt of how many items it has taken so far, and that each lane sends at most
    /// [`mailbox::MAX_SENT`].
    pub fn receipt(&mut self) -> Receipt<SentItem<H>, J>
        ensures says { result ≡ record {
          inbox = self.old.receiver.inbox;
          bounds = record no_bounds {
            taken = length self.old.receiver.taken;
            most = self.old.receiver.lanes * MAX_SENT;
          };
        } }
        ensures same { self.new ≡ self.old }
    {
        self.receiver.receipt()
    }

    /// Returns the number of the next taking, from 1 (saturates at 2^64 - 1).
    pub fn next_taking(&self) -> u64
        ensures { result ≡ next_taking self.now.takings }
    {
        self.takings.saturating_add(1)
    }

    /// Takes the oldest item and does the node's step with it. Returns false if there was none:
    /// then the inbox was empty at some moment of the call, and every item that the receipt knows
    /// to be sent was taken before. Each call counts as a taking.
    pub fn take_one<R: Wait>(
        &mut self,
        rt: &R,
        effects: &mut Vec<Effect<Command, Output>>,
        receipt: Receipt<SentItem<H>, J>,
    ) -> bool
        requires { receipt.inbox ≡ self.old.receiver.inbox }
        ensures took { result ≡ true →
            TakesOne self.old self.new effects.old.items effects.new.items }

        // The node is still the fold of `step` over all items taken.
        ensures replays { Replays
            (J.first_of self.old.receiver.inbox) self.old.receiver.taken self.old.node }

        ensures takings { self.new.takings ≡ next_taking self.old.takings }

        // No item waited and nothing else changed: all that the receipt knows to be sent was taken.
        ensures empty { result ≡ false → WasEmpty self.old.receiver receipt }
        ensures arrived { result ≡ false → HasArrived receipt self.old.receiver.taken }
        ensures same { result ≡ false →
            self.new ≡ record self.old { takings = next_taking self.old.takings } }
        ensures silent { result ≡ false → effects.new.items ≡ effects.old.items }
    {
        self.takings = self.takings.saturating_add(1);
        match self.receiver.take(rt, receipt) {
            Some((_, sent)) => {
                self.grown = grown(self.grown, sent.item());
                self.node.take_sent(rt, sent, effects);
                true
            }
            None => false,
        }
    }

    /// Returns how many items of a lane of this inbox were taken. The lane learns it, too.
    pub fn meet(&mut self, lane: &mut Lane<SentItem<H>, J>) -> u64
        requires { lane.old.inbox ≡ self.old.receiver.inbox }
        ensures exact { result ≡ length (items_of_lane lane.old.lane self.old.receiver.taken) }

        // These are the first items that the lane sent, and no fewer than it knew.
        ensures first { items_of_lane lane.old.lane self.old.receiver.taken
            ≡ take result lane.old.sent }
        ensures known { lane.old.met ≤ result }

        // The node is still the fold of `step` over all items taken.
        ensures replays { Replays
            (J.first_of lane.old.inbox) self.old.receiver.taken self.old.node }

        // Nothing was sent or taken.
        ensures same { self.new ≡ self.old }
        ensures lane { lane.new ≡ record lane.old { met = result } }
    {
        self.receiver.meet(lane)
    }

    /// Returns how many bytes were handed over for a port, if the node counts them: it does for the
    /// newest port of each remainder by 64, as long as they are fewer than 2^62.
    pub fn handed_at(&self, port: Port) -> Option<u64>
        ensures { result ≡ counted_at self.now.counts port }
    {
        self.counts.at(port)
    }

    /// Appends the bytes queued for a port and not yet handed over, and returns whether more may
    /// come, as [`NodeOnRecord::outgoing`]. Counts them. No item is taken. If memory runs out,
    /// nothing changes; without bytes to hand over it never does.
    pub fn outgoing<R: Wait>(
        &mut self,
        rt: &R,
        port: Port,
        out: &mut Vec<u8>,
    ) -> Result<Handed, Memory>
        ensures bytes { OnOk result
            (out.new.items ≡ out.old.items ++ pending_bytes (listed_at port self.old.node.core)) }
        ensures answer { IfOk result (λ handed.
            handed ≡ handed_after (listed_at port self.old.node.core)) }
        ensures left { OnOk result (self.new ≡ record self.old {
          node = record self.old.node { core = hands_over port self.old.node.core };
          log = self.new.log;
          counts = counts_after self.old.counts port
              (length (pending_bytes (listed_at port self.old.node.core)));
        }) }

        // That is the next event of the node in the run.
        ensures hands { OnOk result (HandedOver (on_record self.old) port (on_record self.new)) }

        ensures nothing { pending_bytes (listed_at port self.old.node.core) ≡ [] → IsOk result }

        // The node is still the fold of `step` over all items taken.
        ensures replays { Replays
            (J.first_of self.old.receiver.inbox) self.old.receiver.taken self.old.node }

        // Running out of memory changes nothing.
        ensures same { OnErr result (self.new ≡ self.old) }
        ensures err { OnErr result (out.new.items ≡ out.old.items) }
    {
        self.node.is_of_run();
        let before = out.len();
        let handed = self.node.outgoing(rt, port, out)?;
        self.counts.add(port, (out.len() - before) as u64);
        Ok(handed)
    }

    /// Appends the ports of the connections that are open and have nothing to hand over, as
    /// [`NodeCore::idle_ports`].
    pub fn idle_ports(&self, ports: &mut Vec<Port>) -> Result<(), Memory>
        ensures ok { OnOk result
            (ports.new.items ≡ ports.old.items ++ idle_ports self.now.node.core) }
        ensures err { OnErr result (IsPrefixOf ports.old.items ports.new.items) }
    {
        self.node.core().idle_ports(ports)
    }

    /// Returns the state of a port's connection, as [`NodeCore::standing`].
    pub fn standing(&self, port: Port) -> Standing
        ensures { result ≡ standing_of (listed_at port self.now.node.core) }
    {
        self.node.core().standing(port)
    }

    /// Returns the status of the node's replica.
    pub fn status(&self) -> Status
        ensures { result ≡ status_of self.now.node.core.replica.state }
    {
        self.node.core().status()
    }

    /// Returns true if the size of the log makes a cut due: there are commands to drop, and what
    /// was taken since the last cut exceeds both 16 MiB and the snapshot.
    pub fn wants_cut(&self) -> bool
        ensures { result ≡ wants_cut self.now.receiver.taken self.now.node.core }
    {
        let core = self.node.core();
        let (base, snapshot) = core.snapshot();
        let commands = core.status().committed - base;
        core.can_cut() && is_large(self.grown, commands, snapshot)
    }

    /// Returns how many steps lost something, because memory ran out or a snapshot could not be
    /// read (saturates at 2^64 - 1).
    pub fn losses(&self) -> u64
        ensures { result ≡ self.now.node.losses }
    {
        self.node.core().losses()
    }

    /// Ends the node, once its lanes send no more. Reports the fate of everything that they sent,
    /// and returns the node as the run has it on record. Allocates nothing: `space` and `envelopes`
    /// have their capacity. `gate_missed` counts takings at which the gate stayed shut.
    pub(crate) fn close<R: Wait>(
        self,
        rt: &R,
        lanes: &mut [Lane<SentItem<H>, J>],
        space: ReportSpace,
        envelopes: Vec<(u8, SentItem<H>)>,
        gate_missed: u64,
    ) -> (Report, NodeOnRecord<H>)
        requires lanes { AreAllLanes self.receiver lanes.old }
        requires capacity { HasCapacity self.receiver.lanes space }
        requires empty { envelopes.items ≡ [] }
        requires envelopes { max_items ≤ vec_capacity envelopes }

        // Lane by lane, what was taken followed by what is left over is all that was sent, in
        // order.
        ensures whole { All (ArrivesWhole result.0.taken result.0.left) lanes.new }
        ensures lanes { map unmet lanes.new ≡ map unmet lanes.old }

        // The same for the items that the node replayed.
        ensures all { All (ReportsAll self.receiver.taken result.0.left) lanes.new }

        // The count of each lane is that of the replay.
        ensures counted { EachIndex result.0.taken (λ lane.
            slice_index result.0.taken lane ≡ length (items_of_lane lane self.receiver.taken)) }
        ensures each { length result.0.taken ≡ self.receiver.lanes }
        ensures below { AreOfLanes self.receiver }
        ensures replays { Replays (J.first_of self.receiver.inbox) self.receiver.taken self.node }

        ensures number { result.0.number ≡ self.receiver.inbox }
        ensures base { result.0.base ≡ self.node.core.replica.state.log.base }
        ensures gate { result.0.gate_missed ≡ gate_missed }

        // The node is as it was, and by its log it took just the items that it replayed.
        ensures ended { result.1 ≡ on_record self }
        ensures named { result.1.index + 1 ≡ self.receiver.inbox }
        ensures items { items_taken self.receiver.inbox self.log ≡ items_of self.receiver.taken }
    {
        let NodeState {
            mut receiver,
            node,
            grown: _grown,
            takings: _takings,
            counts: _counts,
        } = self;
        let mut space = space;
        let mut envelopes = envelopes;
        let number = receiver.number();
        let base = node.core().snapshot().0;
        receiver.take_rest(rt, lanes, space.taken.as_mut_slice(), &mut envelopes);
        open_all(rt, envelopes, &mut space.left);
        (Report::new(number, space, base, gate_missed), node)
    }
}

// Moves the items that were left over into a list that has capacity for them.
fn open_all<H: RunNaming, R: Wait>(
    rt: &R,
    envelopes: Vec<(u8, SentItem<H>)>,
    left: &mut Vec<(u8, Item)>,
)
    requires { left.old.items ≡ [] }
    ensures { left.new.items ≡ envelopes.items }
{
    for (lane, sent) in envelopes {
        let (_number, item, _seen) = sent.into_parts();
        keep(rt, left, lane, item);
    }
}

// Appends an item to a list that has capacity for it; waits for ever if it has not, which does not
// occur, since it has capacity for all that an inbox holds.
fn keep<R: Wait>(rt: &R, left: &mut Vec<(u8, Item)>, lane: u8, item: Item)
    ensures { left.new.items ≡ left.old.items ++ (lane, item) ∷ [] }
{
    match left.push((lane, item)) {
        Ok(()) => {}
        Err(_) => {
            for _ in rt.forever() {}
            unreachable!()
        }
    }
}
