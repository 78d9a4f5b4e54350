// A node cuts its log after a row of a table, each after each row; all other rows hold as usual.

use crate::worlds::tables::crashes::CRASHED;
use crate::worlds::tables::stale::STALE;
use crate::worlds::world_rows::{Fault, Row, UNOPENED, fault_after, fault_at, is_right, opened};
use std::alloc::Global;
use world::World;
use world_pipes::events::Event;

// Cuts a node's log, if it has something to cut; then it has nothing more to cut.
fn is_cut_once(world: &mut World, node: u8) -> bool {
    let cut = Event::Cut(node);
    let _ = world.step(&cut);
    let is_idle = world.step(&cut).is_err();
    drop(cut);
    is_idle
}

// The step that fails, and what the world shows then.
type CutFault = (&'static str, Fault);

// Cuts a node's log after the row at this index, or after each row for the index after the last
// one. Returns the first row that fails.
fn first_fault(
    alloc: Global,
    world: &mut World,
    rows: &'static [Row],
    at: usize,
    node: u8,
) -> Option<CutFault> {
    for (index, row) in rows.iter().enumerate() {
        if !is_right(alloc, world, row) {
            return Some(("the row holds", fault_at(alloc, world, index, row)));
        }
        if (at == index || at == rows.len()) && !is_cut_once(world, node) {
            return Some(("a second cut is idle", fault_at(alloc, world, index, row)));
        }
    }
    match fault_after(world, rows.len()) {
        Some(fault) => Some(("there is memory", fault)),
        None => None,
    }
}

// Does the same with a fresh world.
fn first_fault_of_fresh(
    alloc: Global,
    rows: &'static [Row],
    at: usize,
    node: u8,
) -> Option<CutFault> {
    match opened(alloc, 2, &[1, 2]) {
        Some(mut world) => {
            let fault = first_fault(alloc, &mut world, rows, at, node);
            drop(world);
            fault
        }
        None => Some(("a world opens", UNOPENED)),
    }
}

// Returns the first index after which a cut of a node changes what a row says, and the step that
// fails.
fn first_fault_of_cuts(alloc: Global, rows: &'static [Row], node: u8) -> Option<(usize, CutFault)> {
    for at in 0..rows.len().saturating_add(1) {
        if let Some(fault) = first_fault_of_fresh(alloc, rows, at, node) {
            return Some((at, fault));
        }
    }
    None
}

// A cut changes no message, agreed command, byte on a connection and accepted publication.
#[test]
fn cuts_change_nothing_else(rt: HostRuntime) {
    for node in [1, 2] {
        assert_eq!(rt;
            first_fault_of_cuts(rt.alloc(), CRASHED, node),
            None,
            "{node}"
        );
        assert_eq!(rt;
            first_fault_of_cuts(rt.alloc(), STALE, node),
            None,
            "{node}"
        );
    }
}
