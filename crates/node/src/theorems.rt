// Theorems on the intake budget, on when logs are cut, and on what a node hands over. The calls do
// nothing; their contracts are the theorems.

ghost use Rattle.node.specs.Theorems.{CutsComeApart, CutsComeOften, HandOversAddUp, OpenBytesAreCounted, StepsHandOverNothing};

/// States that the count includes every byte that the node took and that may be in a place which is
/// not agreed.
pub fn open_bytes_are_counted()
    ensures { OpenBytesAreCounted }
{}

/// States that no two nodes have their logs cut after the same tick.
pub fn cuts_come_apart()
    ensures { CutsComeApart }
{}

/// States that among any 50 ticks in a row, a node's log is cut after one.
pub fn cuts_come_often()
    ensures { CutsComeOften }
{}

/// States that what a node hands over for a port is, by the run, added to all that it had handed
/// over for that port, and to nothing of another port.
pub fn hand_overs_add_up()
    ensures { HandOversAddUp }
{}

/// States that a node hands over nothing by a step on an item.
pub fn steps_hand_over_nothing()
    ensures { StepsHandOverNothing }
{}
