// Theorems about states and their bytes, and worked examples. The functions do nothing; their
// contracts are the theorems.

ghost use Rattle.broker_base.specs.form.RangeTheorems.{StaysInRange, AnswersAreSpelled, ListsAreInRange};
ghost use Rattle.broker_base.specs.form.FormRows.{FreshIsFrozen, OneSessionIsFrozen, FormOneIsRead};
ghost use Rattle.broker_base.specs.form.FormRows.{OneSessionGoesOn, OthersAreRefused};
ghost use Rattle.broker_base.specs.form.FormTheorems.{FrozenIsThawed, FrozenBeforeIsThawed};
ghost use Rattle.broker_base.specs.form.FormTheorems.{ThawedIsInRange, ThawedIsFrozen};
ghost use Rattle.broker_base.specs.form.FullRow.{FullIsFrozen};

/// States that a command of a log leaves the broker's state sound, within its limits, and with each
/// number, text and publication in its range.
pub fn states_stay_in_range()
    ensures { StaysInRange }
{}

/// States that each packet in the answers to a command of a log can be encoded: its fields are in
/// their ranges, no list in it is empty, and it is within the limit on a packet.
pub fn answers_can_be_spelled()
    ensures { AnswersAreSpelled }
{}

/// States that both hold after every list of commands of a log, from the empty state on, with this
/// broker's limits: 4,096 sessions, 64 subscriptions and 4,096 entries of each, 16,384 retained
/// topics.
pub fn lists_are_in_range()
    ensures { ListsAreInRange }
{}

/// States that the bytes to which a broker is frozen thaw to that broker, and so do those of form
/// 1, if its window is 16.
pub fn frozen_is_thawed()
    ensures now { FrozenIsThawed }
    ensures before { FrozenBeforeIsThawed }
{}

/// States that a thawed broker is sound, within its limits and in its ranges, and that no more
/// entries of a session are in flight than its window allows.
pub fn thawed_is_in_range()
    ensures { ThawedIsInRange }
{}

/// States that bytes which thaw to a broker are the bytes to which it is frozen, in form 2, or in
/// form 1 if its window is 16. So each broker has one spelling in a form, and there is no other
/// form.
pub fn thawed_is_frozen()
    ensures { ThawedIsFrozen }
{}

/// Shows the bytes of three brokers in both forms: without sessions, with client `a` on connection
/// 1 of ballot 1, and with something in every part; and that another window or form is refused.
pub fn rows_are_frozen()
    ensures fresh { FreshIsFrozen }
    ensures one { OneSessionIsFrozen }
    ensures before { FormOneIsRead }
    ensures one_before { OneSessionGoesOn }
    ensures others { OthersAreRefused }
    ensures full { FullIsFrozen }
{}
