// When a node's log is cut, whatever its size.

ghost use Rattle.std.specs.Prelude.{◌≡◌};
ghost use Rattle.node.specs.CutTimes.{cuts_after};

/// How many ticks lie between two cuts of a node's log.
const TICKS_A_CUT: u64 = 50;

/// How many ticks lie between the first cuts of nodes with neighbouring numbers. It shares no
/// factor with 50, so no two nodes cut after the same tick (`cuts_come_apart`).
const TICKS_APART: u64 = 7;

/// Returns true if the log of node `number` is cut after this many ticks.
pub fn cuts_after(number: u8, ticks: u64) -> bool
    ensures { result ≡ cuts_after number ticks }
{
    ticks % TICKS_A_CUT == u64::from(number) * TICKS_APART % TICKS_A_CUT
}
