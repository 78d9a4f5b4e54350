// The file of a master's state over a disk of which each call fails once, and a restart after each.

use crate::disk::{Disk, OnDisk, STATE};
use ballot_base::Members;
use cluster::desk::{Activation, Desk, State};
use cluster::master::{StateFile, assign, start};
use std::alloc::Global;

// The name of a cluster.
const CLUSTER: [u8; 16] = [7; 16];

// How many calls of the disk it takes to keep a state: to open the new file, to write it (two), to
// flush it, to rename it, to open the folder, to flush that.
const CALLS: u32 = 7;

// What was promised: the last number, the last ballot, the last one that is active.
#[derive(Clone, Copy, Debug)]
struct Promised {
    number: u8,
    ballot: u64,
    active: u64,
}

// Lets a desk do one step of each kind, and notes what it promised.
fn step(alloc: Global, desk: &mut Desk<StateFile<'_, OnDisk<'_>>>, promised: &mut Promised) {
    if let Ok((number, _)) = start(desk) {
        promised.number = number;
    }
    if let Ok(members) = Members::from_slice(alloc, &[1]) {
        if let Ok(ballot) = assign(desk, members, 1) {
            promised.ballot = ballot;
        }
    }
    if desk.activate(promised.ballot) == Ok(Activation::Activated) {
        promised.active = promised.ballot;
    }
}

// Returns true if a state says all that was promised.
fn keeps(state: &State, promised: Promised) -> bool {
    state.next > promised.number
        && state.given >= promised.ballot
        && state.active >= promised.active
}

// Returns true if what a restart reads says all that was promised.
fn stands(alloc: Global, disk: &Disk, is_flushed: bool, promised: Promised) -> bool {
    let Some(bytes) = disk.read(is_flushed) else {
        return false;
    };
    let on_disk = OnDisk { disk };
    let Ok(file) = StateFile::new(&on_disk, alloc, STATE) else {
        return false;
    };
    disk.fail(0);
    match Desk::resume(alloc, file, bytes.as_slice()) {
        Ok(desk) => keeps(desk.state(), promised),
        Err(_) => false,
    }
}

// Lets the call of this number fail while a new cluster does three steps, and returns true if both
// restarts find what was promised.
fn survives(alloc: Global, bad_call: u32, is_flushed: bool) -> bool {
    let disk = Disk::new(alloc);
    let on_disk = OnDisk { disk: &disk };
    let Ok(file) = StateFile::new(&on_disk, alloc, STATE) else {
        return false;
    };
    let Ok(mut desk) = Desk::new(alloc, file, CLUSTER) else {
        return false;
    };
    let mut promised = Promised {
        number: 0,
        ballot: 1,
        active: 1,
    };
    disk.fail(bad_call);
    step(alloc, &mut desk, &mut promised);
    step(alloc, &mut desk, &mut promised);
    drop(desk);
    disk.has_failed() && stands(alloc, &disk, is_flushed, promised)
}

#[test]
fn what_was_promised_stands_after_each_failure(rt: HostRuntime) {
    for bad_call in 1..=3 * CALLS {
        for is_flushed in [false, true] {
            assert!(rt;
                survives(rt.alloc(), bad_call, is_flushed),
                "call {bad_call}"
            );
        }
    }
}
