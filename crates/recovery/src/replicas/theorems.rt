// Theorems about recoveries: the contracts of functions with an empty body.

ghost use Rattle.recovery.specs.replicas.Theorems.{HasRecovery};
ghost use Rattle.recovery.specs.replicas.AnswerTheorems.{CommandsAreAnswered, WhatAllHoldIsAgreed};

use machine::Machine;

/// States that a group can always recover: the messages of a list lead to the next ballot. This
/// needs that the members of a new configuration run, and one member of the active one, and that a
/// ballot and a place are left. The ballot is active then, and all its members hold the log of that
/// member followed by the ballot's start. This is the agreed list, and what was agreed before is a
/// prefix of it.
pub fn has_recovery<M: Machine>()
    ensures { HasRecovery M.rules }
{}

/// States that the whole log of the active primary is the agreed list once all other members of its
/// ballot have acknowledged it. This is stated of the last moment only.
pub fn what_all_hold_is_agreed<M: Machine>()
    ensures { WhatAllHoldIsAgreed M.rules }
{}

/// States that the primary of a ballot, whose other members hold all of its log, answers the next
/// command at its place. It does so at once if it is the only member, and otherwise when all others
/// have acknowledged that they hold it too.
pub fn commands_are_answered<M: Machine>()
    ensures { CommandsAreAnswered M.rules }
{}
