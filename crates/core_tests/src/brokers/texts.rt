// Refusals, with the numbers of docs/MANUAL.md and what a user is told.

use crate::told::is_told;
use broker_spec::Unspellable;
use retained::RetainedError;
use session::EnqueueError;

const FULL: &str = "the session's queue is full";

#[test]
fn refusals_have_their_texts(rt: HostRuntime) {
    let alloc = rt.alloc();
    assert!(rt;
        is_told(
            alloc,
            &RetainedError::RetainedFull,
            "too many retained topics"
        )
    );
    assert!(rt; is_told(alloc, &RetainedError::Memory, "out of memory"));
    assert!(rt; is_told(alloc, &EnqueueError::QueueFull, FULL));
    assert!(rt; is_told(alloc, &EnqueueError::Memory, "out of memory"));
    assert!(rt; is_told(alloc, &Unspellable::TooLarge, "packet too large"));
    assert!(rt; is_told(alloc, &Unspellable::Shape, "empty list"));
}

#[test]
fn refusals_have_their_numbers(rt: HostRuntime) {
    let kept = (
        RetainedError::RetainedFull.number(),
        RetainedError::Memory.number(),
    );
    assert_eq!(rt; kept, (16, 12));
    let queued = (
        EnqueueError::QueueFull.number(),
        EnqueueError::Memory.number(),
    );
    assert_eq!(rt; queued, (15, 12));
    let spelled = (Unspellable::TooLarge.number(), Unspellable::Shape.number());
    assert_eq!(rt; spelled, (4, 10));
}
