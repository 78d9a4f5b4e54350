// A theorem about replicas as they open. The function does nothing; its contract is the theorem.

ghost use Rattle.ballot_base.specs.Theorems.{StrangersOpenAlike};

use machine::Machine;

/// States that a node opens alike in any two configurations that do not name it.
pub fn strangers_open_alike<M: Machine>()
    ensures { StrangersOpenAlike M.rules }
{}
