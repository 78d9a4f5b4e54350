// Runs with two nodes: rows of acts, and what each node reports at its end. What is long to drop is
// lent or passed on by each function here, or goes by a call of `drop`, which is proved once.

ghost use Rattle.std.specs.Prelude.{◌≡◌, false};
ghost use Rattle.run_history.specs.Log.{events_by};

use super::came::Came;
use super::meeting::Meeting;
use super::performing::{Act, perform_with};
use super::starts::{Start, fresh_two};
use crate::opened_run::{Opened, open_two};
use mailbox::Lane;
use node::{Node, NodeNaming, NodeState, Report};
use run_history::{RunNaming, SeenRun, SentItem};
use std::alloc::Global;
use std::marker::Brand;
use std::sync::Wait;
use std::thread::Threads;
use std::time::Clock;
use world_base::node_core::Item;

/// An act, and what is to come of it.
pub(super) type Row = (Act, Came);

/// What a node reports: how many items of each lane it took, the lanes and times of the ticks that
/// are left over, and how many takings its gate did not open for.
#[derive(Clone, Copy)]
pub(super) struct Told {
    pub(super) taken: &'static [u64],
    pub(super) left: &'static [(u8, u64)],
    pub(super) missed: u64,
}

/// The members of ballot 1, whose primary is node 1; what is done with nodes 1 and 2, of which node
/// 1 has two lanes, and node 2 one; and what each reports.
pub(super) struct Run {
    pub(super) members: &'static [u8],
    pub(super) rows: &'static [Row],
    pub(super) one: Told,
    pub(super) two: Told,
}

/// A report as it is shown: how many items of the first two lanes were taken, the lanes of the first
/// two that are left over (zeros after the last), how many these are, and how many takings the gate
/// did not open for.
pub(super) type Shape = ([u64; 2], [u8; 2], usize, u64);

/// What differs from a run.
#[derive(Clone, Copy, Debug, PartialEq, Eq)]
pub(super) enum Fault {
    /// The row at this index, and what came of its act.
    Row(usize, Row, Came),
    /// The report of this node; none if its lanes are not those of the node.
    Report(u8, Option<Shape>),
    /// There was no memory for the nodes.
    Start,
}

/// Returns what differs from a run with two nodes at this gate, or at none.
pub(super) fn fault_of<R>(rt: &R, alloc: Global, run: &Run, gate: Option<&Meeting>) -> Option<Fault>
where
    R: Threads + Wait + Clock + Sync,
{
    match open_two(alloc, run.members) {
        Ok(opened) => fault_of_opened::<Brand, R>(rt, alloc, opened, run, gate),
        Err(_) => Some(Fault::Start),
    }
}

fn fault_of_opened<H, R>(
    rt: &R,
    alloc: Global,
    opened: Opened,
    run: &Run,
    gate: Option<&Meeting>,
) -> Option<Fault>
where
    H: RunNaming + Send + Sync,
    R: Threads + Wait + Clock + Sync,
    requires book { opened.run.book ≡ H.book }
    requires nodes { H.nodes ≡ 2 }
    requires config { opened.config ≡ H.config }
    requires own { H.linked ≡ false }
{
    match fresh_two::<H>(alloc, opened) {
        Some((first, second)) => with_lanes::<H, Brand, R>(rt, alloc, first, second, run, gate),
        None => Some(Fault::Start),
    }
}

// Gives node 1 its lanes.
fn with_lanes<H, J, R>(
    rt: &R,
    alloc: Global,
    first: Start<H>,
    second: Start<H>,
    run: &Run,
    gate: Option<&Meeting>,
) -> Option<Fault>
where
    H: RunNaming + Send + Sync,
    J: NodeNaming + Send + Sync,
    R: Threads + Wait + Clock + Sync,
    requires inbox { first.inbox ≡ J.inbox_of 1 }
    requires core { first.node.node ≡ J.first_of 1 }
    requires index { first.node.index ≡ 0 }
    requires none { events_by 1 first.node.log ≡ 0 }
    requires other_inbox { second.inbox ≡ J.inbox_of 2 }
    requires other_core { second.node.node ≡ J.first_of 2 }
    requires other_index { second.node.index ≡ 1 }
    requires other_none { events_by 2 second.node.log ≡ 0 }
{
    match first.inbox.named::<J>(1, 2) {
        Ok((receiver, mut lanes)) => {
            let state = NodeState::new(receiver, first.node);
            with_state(rt, alloc, state, lanes.as_mut_slice(), second, run, gate)
        }
        Err(_) => {
            drop(first.node);
            drop(second);
            Some(Fault::Start)
        }
    }
}

// Starts node 1.
fn with_state<H, J, R>(
    rt: &R,
    alloc: Global,
    state: NodeState<H, J>,
    lanes: &mut [Lane<SentItem<H>, J>],
    second: Start<H>,
    run: &Run,
    gate: Option<&Meeting>,
) -> Option<Fault>
where
    H: RunNaming + Send + Sync,
    J: NodeNaming + Send + Sync,
    R: Threads + Wait + Clock + Sync,
    requires inbox { second.inbox ≡ J.inbox_of 2 }
    requires core { second.node.node ≡ J.first_of 2 }
    requires index { second.node.index ≡ 1 }
    requires none { events_by 2 second.node.log ≡ 0 }
{
    match Node::start(alloc, state, gate) {
        Ok(node) => {
            let fault = with_node(rt, alloc, &node, lanes, second, run, gate);
            fault.or(close(rt, node, lanes, run.one))
        }
        Err(_) => {
            drop(second);
            Some(Fault::Start)
        }
    }
}

// Gives node 2 its lane.
fn with_node<H, J, R>(
    rt: &R,
    alloc: Global,
    node: &Node<'_, H, J, NodeState<H, J>, Meeting>,
    lanes: &mut [Lane<SentItem<H>, J>],
    second: Start<H>,
    run: &Run,
    gate: Option<&Meeting>,
) -> Option<Fault>
where
    H: RunNaming + Send + Sync,
    J: NodeNaming + Send + Sync,
    R: Threads + Wait + Clock + Sync,
    requires inbox { second.inbox ≡ J.inbox_of 2 }
    requires core { second.node.node ≡ J.first_of 2 }
    requires index { second.node.index ≡ 1 }
    requires none { events_by 2 second.node.log ≡ 0 }
{
    match second.inbox.named::<J>(2, 1) {
        Ok((receiver, mut others)) => {
            let state = NodeState::new(receiver, second.node);
            let seen = &second.log;
            with_both(
                rt,
                alloc,
                node,
                lanes,
                state,
                others.as_mut_slice(),
                seen,
                run,
                gate,
            )
        }
        Err(_) => {
            drop(second.node);
            Some(Fault::Start)
        }
    }
}

// Starts node 2, and does the rows.
fn with_both<H, J, R>(
    rt: &R,
    alloc: Global,
    node: &Node<'_, H, J, NodeState<H, J>, Meeting>,
    lanes: &mut [Lane<SentItem<H>, J>],
    state: NodeState<H, J>,
    others: &mut [Lane<SentItem<H>, J>],
    seen: &SeenRun<H>,
    run: &Run,
    gate: Option<&Meeting>,
) -> Option<Fault>
where
    H: RunNaming + Send + Sync,
    J: NodeNaming + Send + Sync,
    R: Threads + Wait + Clock + Sync,
{
    match Node::start(alloc, state, gate) {
        Ok(other) => {
            let fault = fault_in(rt, alloc, (node, lanes), (&other, others), seen, run.rows);
            fault.or(close(rt, other, others, run.two))
        }
        Err(_) => Some(Fault::Start),
    }
}

// Returns the first row of whose act comes something else.
fn fault_in<H, J, R>(
    rt: &R,
    alloc: Global,
    (first, lanes): (
        &Node<'_, H, J, NodeState<H, J>, Meeting>,
        &mut [Lane<SentItem<H>, J>],
    ),
    (second, others): (
        &Node<'_, H, J, NodeState<H, J>, Meeting>,
        &mut [Lane<SentItem<H>, J>],
    ),
    seen: &SeenRun<H>,
    rows: &[Row],
) -> Option<Fault>
where
    H: RunNaming + Send + Sync,
    J: NodeNaming + Send + Sync,
    R: Threads + Wait + Clock + Sync,
{
    for (at, row) in rows.iter().enumerate() {
        let came = perform_with(rt, alloc, (first, lanes), (second, others), seen, row.0);
        if came != row.1 {
            return Some(Fault::Row(at, *row, came));
        }
    }
    None
}

// Returns what differs of a node's report, once its lanes send no more.
fn close<H: RunNaming, J: NodeNaming, R: Wait>(
    rt: &R,
    node: Node<'_, H, J, NodeState<H, J>, Meeting>,
    lanes: &mut [Lane<SentItem<H>, J>],
    told: Told,
) -> Option<Fault> {
    let number = node.number();
    if node.has_all(lanes) {
        let (report, _node) = node.close(rt, lanes);
        let is_told = is_report_of(&report, &told);
        let shown = shape_of(&report);
        drop(report);
        if is_told {
            None
        } else {
            Some(Fault::Report(number, Some(shown)))
        }
    } else {
        drop(node);
        Some(Fault::Report(number, None))
    }
}

// Returns true if a report says this.
fn is_report_of(report: &Report, told: &Told) -> bool {
    report.taken() == told.taken
        && report.left().len() == told.left.len()
        && report.left().iter().zip(told.left).all(|((lane, item), (wanted, time))| {
            lane == wanted && matches!(item, Item::Tick(now) if now == time)
        })
        && report.gate_missed() == told.missed
}

// Returns a report as it is shown.
fn shape_of(report: &Report) -> Shape {
    let (mut taken, mut left) = ([0u64; 2], [0u8; 2]);
    for (to, count) in taken.iter_mut().zip(report.taken()) {
        *to = *count;
    }
    for (to, (lane, _)) in left.iter_mut().zip(report.left()) {
        *to = *lane;
    }
    (taken, left, report.left().len(), report.gate_missed())
}
