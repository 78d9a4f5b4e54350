// A node with its inbox that runs out of memory: a step for which memory is refused is counted, and
// the inbox continues. What is open then has all that it is to be sent. `tools/refused-memory` lets
// each allocation of a test fail in turn; in the gate none fails.

use super::came::{Came, SILENT};
use super::performing::Act::One;
use super::performing::NodeAct::{Answer, Bytes, Open, Take, Tick};
use super::playing::{Fault, Row, Run, Told, fault_of};
use super::runs::{CONNECT, UNUSED};

const ROWS: &[Row] = &[
    (One(Open(0)), Came::Sent),
    (One(Bytes(0, CONNECT)), Came::Sent),
    (One(Tick(0, 1)), Came::Sent),
    (One(Take), SILENT),
    (One(Take), SILENT),
    (One(Take), SILENT),
    (One(Take), Came::NoItem(0)),
    (One(Answer), Came::Answered(true)),
    (One(Tick(0, 2)), Came::Sent),
];

// At its end the node says that three items were taken, and that the last tick is left over.
const RUN: Run = Run {
    members: &[1],
    rows: ROWS,
    one: Told {
        taken: &[3, 0],
        left: &[(0, 2)],
        missed: 0,
    },
    two: UNUSED,
};

// A node for which memory runs out does not exist, or counts what it lost.
#[test]
fn a_refused_step_is_counted(rt: HostRuntime) {
    let fault = fault_of(&rt, rt.alloc(), &RUN, None);
    assert!(rt; fault.is_none() || fault == Some(Fault::Start), "{fault:?}");
}
