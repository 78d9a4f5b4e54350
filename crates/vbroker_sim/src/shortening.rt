// A run that fails, shortened: events are left out as long as the others still fail.

use crate::run::{Run, replayed};
use std::alloc::Global;

/// Returns which events may be left out. It tries halves first, then quarters, and so on to single
/// events. None if it ran out of memory.
pub fn shortened(alloc: Global, run: &Run) -> Option<Vec<bool>> {
    let mut out = Vec::new(alloc);
    for _ in run.events.as_slice() {
        out.push(false).ok()?;
    }
    for shift in 1..11u32 {
        let size = run.events.len() >> shift;
        if size > 0 {
            leave_out(alloc, run, &mut out, size)?;
        }
    }
    Some(out)
}

// Leaves out each part of this size without which it still fails.
fn leave_out(alloc: Global, run: &Run, out: &mut Vec<bool>, size: usize) -> Option<()> {
    let size = size.max(1);
    for part in 0..=run.events.len() / size {
        let mut tried = Vec::new(alloc);
        for (at, is_out) in out.iter().enumerate() {
            tried.push(*is_out || at / size == part).ok()?;
        }
        let events = run.events.as_slice();
        if replayed(alloc, &run.opening, events, tried.as_slice())?.is_some() {
            *out = tried;
        }
    }
    Some(())
}
