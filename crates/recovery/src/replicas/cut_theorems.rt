// Theorems about a recovery, and the next answer, over cut logs: the contracts of functions with an
// empty body.

ghost use Rattle.recovery.specs.replicas.NextAnswer.{CutGroupsAnswer};
ghost use Rattle.recovery.specs.replicas.CutTheorems.{CutGroupsHaveRecoveries};

use machine::Machine;

/// States that a group whose nodes cut their logs can always recover: the messages of
/// `recovery_messages` lead to the next ballot. This needs that the members of a new configuration
/// run, and one member of the active one, and that a ballot and a place are left. The ballot is
/// active then, and all its members hold the whole log of that member followed by the ballot's
/// start. This is the agreed list, and what was agreed before is a prefix of it.
pub fn cut_groups_have_recoveries<M: Machine>()
    ensures { CutGroupsHaveRecoveries M.rules }
{}

/// States that the primary of a ballot, whose other members hold all of its log, answers the next
/// command at its place, whichever logs were cut. It does so at once if it is the only member, and
/// otherwise when all others have acknowledged that they hold it too.
pub fn cut_groups_answer<M: Machine>()
    ensures { CutGroupsAnswer M.rules }
{}
