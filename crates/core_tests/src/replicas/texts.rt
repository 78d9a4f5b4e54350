// What a user is told of each refusal, with the texts of docs/MANUAL.md.

use crate::told::is_told;
use ballot_base::errors::{OpeningError, ProposeError};
use machine::{Halted, Memory, ThawFault};
use master::{AssignError, Idle};

const MEMBERS: &str = "members or primary of the ballot";

const MEMORY: &str = "out of memory";

const OPENING: &[(OpeningError, &str)] = &[
    (OpeningError::BadMembers, MEMBERS),
    (OpeningError::Memory, MEMORY),
];

const PROPOSING: &[(ProposeError, &str)] = &[
    (ProposeError::NotActive, "no active primary"),
    (ProposeError::LogFull, "the log is full"),
    (ProposeError::Memory, MEMORY),
    (ProposeError::Halted, "the replica stopped"),
];

const ASSIGNING: &[(AssignError, &str)] = &[
    (AssignError::BadMembers, MEMBERS),
    (AssignError::BallotsSpent, "no ballot left"),
];

const THAWING: &[(ThawFault, &str)] = &[
    (ThawFault::Shape, "shape of the frozen machine"),
    (ThawFault::Memory, MEMORY),
];

#[test]
fn refusals_have_their_texts(rt: HostRuntime) {
    let alloc = rt.alloc();
    for (error, text) in OPENING {
        assert!(rt; is_told(alloc, error, text), "{error:?}");
    }
    for (error, text) in PROPOSING {
        assert!(rt; is_told(alloc, error, text), "{error:?}");
    }
    for (error, text) in ASSIGNING {
        assert!(rt; is_told(alloc, error, text), "{error:?}");
    }
    for (error, text) in THAWING {
        assert!(rt; is_told(alloc, error, text), "{error:?}");
    }
    assert!(rt; is_told(alloc, &Idle, "an event that cannot happen now"));
    assert!(rt; is_told(alloc, &Memory, MEMORY));
    assert!(rt; is_told(alloc, &Halted, "halted: out of memory"));
}
