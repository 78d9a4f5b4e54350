// A node with an inbox, a gate and a lock. Lanes send items to an inbox, and one receiver takes
// them.
//
// Each inbox of a run has a number. A function that is generic in a `Naming` or a `NodeNaming`
// knows by the numbers which lane is of which inbox; its caller passes `Brand`. What a node does is
// on record in the log of a run, which has a name of its own, a `RunNaming`.

ghost use Rattle.std.specs.Prelude.{◌≡◌, false};
ghost use Rattle.agreement.specs.MasterState.{opening_master};
ghost use Rattle.ballot_base.specs.LawfulConfig.{max_node};
ghost use Rattle.run_history.specs.Log.{events_by};

use crate::bytes::{ACCEPTED, CONNECT_A};
use crate::names::Names;
use crate::node_steps::config_of;
use anyhow::Result;
use mailbox::{Inbox, Lane, Naming, Receiver};
use master::Master;
use node::{
    Config, Counted, Gate, Handed, Item, Node, NodeCore, NodeNaming, NodeState, Permit, Piece,
    Port, Report, WholeWrite,
};
use run_history::{NodeOnRecord, OpenedRun, RunNaming, SeenRun, SentItem};
use std::alloc::Global;
use std::marker::Brand;
use std::sync::{Mutex, Wait};
use std::time::Clock;

/// The connection of client `a`.
const PORT: Port = Port(1);

/// Uses `mailbox` and `node`.
pub fn run<R: Wait + Clock + Print>(rt: &R, alloc: Global) -> Result<()> {
    let mut names = Names::of("mailbox");
    let inbox = Inbox::new(alloc)?;
    use_inbox::<Brand, R>(rt, inbox, &mut names)?;
    names.print(rt)?;
    use_node(rt, alloc)?.print(rt)
}

// Gives an inbox its number and one lane.
fn use_inbox<J: Naming, R: Wait>(rt: &R, inbox: Inbox<u64>, names: &mut Names) -> Result<()>
    requires { inbox ≡ J.inbox_of 1 }
{
    let (mut receiver, mut lanes) = inbox.named::<J>(1, 1)?;
    names.uses("Inbox", receiver.lanes() == 1 && lanes.len() == 1);
    if let [lane] = lanes.as_mut_slice() {
        send_and_take(rt, lane, &mut receiver, names);
    }
    Ok(())
}

// Sends two items, and takes one of them.
fn send_and_take<J: Naming, R: Wait>(
    rt: &R,
    lane: &mut Lane<u64, J>,
    receiver: &mut Receiver<u64, J>,
    names: &mut Names,
) {
    names.uses("number", lane.number() == 1 && receiver.number() == 1);
    let is_sent = sends(rt, lane, 7) && sends(rt, lane, 8);
    names.uses("Lane::send", is_sent && lane.count() == 2);
    let receipt = receiver.receipt();
    names.uses("Receiver::take", receiver.take(rt, receipt) == Some((0, 7)));
    let is_met = lane.number() == receiver.number() && receiver.meet(lane) == 1;
    names.uses("Receiver::meet", is_met);
}

// Returns true if a lane sends an item: the inbox is not full.
fn sends<T: Drop, J: Naming, R: Wait>(rt: &R, lane: &mut Lane<T, J>, item: T) -> bool {
    let receipt = lane.receipt();
    lane.send(rt, item, receipt).is_ok()
}

// A gate that is always open. A taking is a call by which a node takes an item, with its number.
#[derive(Drop)]
struct OpenGate {
    // The taking that it was asked for last.
    asked: Mutex<u64>,
    // The taking that it was informed of last.
    informed: Mutex<u64>,
}

impl Gate for OpenGate {
    // No clause is about what is under a lock.
    ghost answers = { λ _ _ _ _. Unit {0} };

    ghost hears = { λ _ _ _. Unit {0} };

    fn open<R: Wait>(&self, rt: &R, _node: u8, taking: u64) -> bool {
        *self.asked.lock(rt) = taking;
        true
    }

    fn answered<R: Wait>(&self, rt: &R, _node: u8, taking: u64) {
        *self.informed.lock(rt) = taking;
    }
}

impl OpenGate {
    // Returns a gate that was not asked yet.
    fn new() -> OpenGate {
        OpenGate {
            asked: Mutex::new(0),
            informed: Mutex::new(0),
        }
    }

    // Returns both numbers.
    fn last<R: Wait>(&self, rt: &R) -> (u64, u64) {
        let asked = *self.asked.lock(rt);
        (asked, *self.informed.lock(rt))
    }
}

// Uses a node at a gate, and a device that counts its failed calls.
fn use_node<R: Wait + Clock>(rt: &R, alloc: Global) -> Result<Names> {
    let mut names = Names::of("node");
    use_new(rt, alloc, &mut names)?;
    names.uses("Counted", counts(alloc));
    Ok(names)
}

// Opens the run of a group of one node, the sole member of ballot 1.
fn use_new<R: Wait + Clock>(rt: &R, alloc: Global, names: &mut Names) -> Result<()> {
    let config = config_of(alloc, 1)?;
    let (run, master) = OpenedRun::open(alloc, 1, &config)?;
    use_run::<Brand, R>(rt, alloc, run, master, &config, names)
}

// Gives the run its name, and puts its only node on record.
fn use_run<H: RunNaming, R: Wait + Clock>(
    rt: &R,
    alloc: Global,
    run: OpenedRun,
    master: Master,
    config: &Config,
    names: &mut Names,
) -> Result<()>
    requires book { run.book ≡ H.book }
    requires nodes { run.group.nodes ≡ H.nodes }
    requires one { H.nodes ≡ 1 }
    requires config { run.group.config ≡ H.config }
    requires group { run.group.linked ≡ H.linked }
    requires own { H.linked ≡ false }
    requires same { config.now ≡ H.config }
    requires master { master ≡ opening_master max_node H.config }
{
    let (_master, mut maker, log) = run.named::<H>(master);
    let core = NodeCore::new(alloc, 1, config)?;
    let node = maker.make(&log, core, 0);
    use_node_of(rt, alloc, node, &log, names)
}

// Makes an inbox for the node.
fn use_node_of<H: RunNaming, R: Wait + Clock>(
    rt: &R,
    alloc: Global,
    node: NodeOnRecord<H>,
    log: &SeenRun<H>,
    names: &mut Names,
) -> Result<()>
    requires index { node.index ≡ 0 }
    requires none { events_by 1 node.log ≡ 0 }
{
    let gate = OpenGate::new();
    match Inbox::new(alloc) {
        Ok(inbox) => use_named::<H, Brand, R>(rt, alloc, inbox, node, log, &gate, names),
        Err(error) => {
            drop(node);
            Err(error.into())
        }
    }
}

// Gives the inbox of a node its number and one lane.
fn use_named<H: RunNaming, J: NodeNaming, R: Wait + Clock>(
    rt: &R,
    alloc: Global,
    inbox: Inbox<SentItem<H>>,
    node: NodeOnRecord<H>,
    log: &SeenRun<H>,
    gate: &OpenGate,
    names: &mut Names,
) -> Result<()>
    requires inbox { inbox ≡ J.inbox_of 1 }
    requires first { node.node ≡ J.first_of 1 }
    requires index { node.index ≡ 0 }
    requires none { events_by 1 node.log ≡ 0 }
{
    match inbox.named::<J>(1, 1) {
        Ok((receiver, mut lanes)) => {
            let state = NodeState::new(receiver, node);
            names.uses("NodeState", state.number() == 1);
            start(rt, alloc, state, lanes.as_mut_slice(), log, gate, names)
        }
        Err(error) => {
            drop(node);
            Err(error.into())
        }
    }
}

// Starts the node: from now on its state is under a lock.
fn start<H: RunNaming, J: NodeNaming, R: Wait + Clock>(
    rt: &R,
    alloc: Global,
    state: NodeState<H, J>,
    lanes: &mut [Lane<SentItem<H>, J>],
    log: &SeenRun<H>,
    gate: &OpenGate,
    names: &mut Names,
) -> Result<()> {
    let node = Node::start(alloc, state, Some(gate))?;
    names.uses("Node::start", node.number() == 1);
    let used = use_started(rt, alloc, &node, lanes, log, names);
    names.uses("Gate", gate.last(rt) == (2, 2));
    close(rt, node, lanes, names);
    used
}

// Uses the only lane of a node.
fn use_started<H: RunNaming, J: NodeNaming, R: Wait + Clock>(
    rt: &R,
    alloc: Global,
    node: &Node<'_, H, J, NodeState<H, J>, OpenGate>,
    lanes: &mut [Lane<SentItem<H>, J>],
    log: &SeenRun<H>,
    names: &mut Names,
) -> Result<()> {
    if let [lane] = lanes {
        send_three(rt, alloc, node, lane, log, names)?;
        take_two(rt, alloc, node, lane, names);
    }
    Ok(())
}

// Sends that the connection is opened, a CONNECT, and a tick. Meanwhile the state is locked: a lane
// waits for no lock.
fn send_three<H: RunNaming, J: NodeNaming, R: Wait>(
    rt: &R,
    alloc: Global,
    node: &Node<'_, H, J, NodeState<H, J>, OpenGate>,
    lane: &mut Lane<SentItem<H>, J>,
    log: &SeenRun<H>,
    names: &mut Names,
) -> Result<()> {
    let piece = Piece::from_slice(alloc, CONNECT_A)?;
    let mut state = node.lock(rt);
    let opened = sends_item(rt, log, lane, Item::Opened(PORT, 0));
    let connected = sends_item(rt, log, lane, Item::Bytes(PORT, piece, 0));
    let ticked = sends_item(rt, log, lane, Item::Tick(5));
    names.uses("Item", opened && connected && ticked);
    let is_met = state.number() == lane.number() && state.meet(lane) == 0;
    names.uses("NodeState::meet", is_met);
    Ok(())
}

// Returns true if a lane sends an item that comes from outside of the run.
fn sends_item<H: RunNaming, J: NodeNaming, R: Wait>(
    rt: &R,
    log: &SeenRun<H>,
    lane: &mut Lane<SentItem<H>, J>,
    item: Item,
) -> bool {
    let sent = SentItem::from_outside(rt, lane.number(), item, log.again());
    sends(rt, lane, sent)
}

// Takes two of the items, after which the CONNECT is answered.
fn take_two<H: RunNaming, J: NodeNaming, R: Wait + Clock>(
    rt: &R,
    alloc: Global,
    node: &Node<'_, H, J, NodeState<H, J>, OpenGate>,
    lane: &mut Lane<SentItem<H>, J>,
    names: &mut Names,
) {
    let first = takes(rt, alloc, node);
    let second = takes(rt, alloc, node);
    let mut state = node.lock(rt);
    let is_met = state.number() == lane.number() && state.meet(lane) == 2;
    names.uses("NodeState::take_one", first && second && is_met);
    names.uses("NodeState::status", state.status().held == 1);
    let mut out = Vec::new(alloc);
    let is_open = state.outgoing(rt, PORT, &mut out) == Ok(Handed::Open);
    names.uses("NodeState::outgoing", is_open && out.as_slice() == ACCEPTED);
    names.uses("NodeState::losses", state.losses() == 0);
}

// Takes the next item, as the gate lets it. Returns true if there was one, and nothing is to be
// sent to other nodes.
fn takes<H: RunNaming, J: NodeNaming, R: Wait + Clock>(
    rt: &R,
    alloc: Global,
    node: &Node<'_, H, J, NodeState<H, J>, OpenGate>,
) -> bool {
    let permit = node.begin_taking(rt);
    let is_taken = step(rt, alloc, &mut node.lock(rt), &permit);
    node.end_taking(rt, permit);
    is_taken
}

// Takes an item and does the step of the node with it.
fn step<H: RunNaming, J: NodeNaming, R: Wait>(
    rt: &R,
    alloc: Global,
    state: &mut NodeState<H, J>,
    permit: &Permit<'_>,
) -> bool {
    let mut effects = Vec::new(alloc);
    let receipt = state.receipt();
    permit.is_for(state) && state.take_one(rt, &mut effects, receipt) && effects.is_empty()
}

// Ends the node: it took two items, and the third is left over.
fn close<H: RunNaming, J: NodeNaming, R: Wait>(
    rt: &R,
    node: Node<'_, H, J, NodeState<H, J>, OpenGate>,
    lanes: &mut [Lane<SentItem<H>, J>],
    names: &mut Names,
) {
    if node.has_all(lanes) {
        let (report, _node) = node.close(rt, lanes);
        names.uses("Node::close", has_one_left(&report));
        names.uses("Report", is_of_node_1(&report));
        drop(report);
    } else {
        drop(node);
    }
}

// Returns true if a report is of node 1, which cut no log, and whose gate opened for each taking.
fn is_of_node_1(report: &Report) -> bool {
    report.number() == 1 && report.base() == 0 && report.gate_missed() == 0
}

// Returns true if two items were taken, and a tick is left over.
fn has_one_left(report: &Report) -> bool {
    let left = report.left();
    report.taken() == [2].as_slice() && left.len() == 1 && left.first().is_some_and(is_tick)
}

// Returns true if an item of lane 0 is the tick at 5.
fn is_tick(left: &(u8, Item)) -> bool {
    match left {
        (lane, Item::Tick(now)) => {
            let (lane, now) = (*lane, *now);
            lane == 0 && now == 5
        }
        _ => false,
    }
}

// Returns true if a device whose failed calls are counted takes some bytes.
fn counts(alloc: Global) -> bool {
    let mut device = Counted::new(Vec::new(alloc));
    let is_whole = device.write_whole(ACCEPTED) == WholeWrite::Whole && device.faults() == 0;
    is_whole && device.into_device().as_slice() == ACCEPTED
}
