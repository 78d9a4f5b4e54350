// Theorems about what events do: the contracts of functions with an empty body.

ghost use Rattle.world.specs.Theorems.{HasRoomBefore, OpensPastTheLast, UncountedIsExact};
ghost use Rattle.world.specs.Theorems.{ReachedHaveNoneFailed, ReachedRest, StepsLeaveNoneFailed};

/// States that an event that was not idle was done exactly, if no loss was counted.
pub fn uncounted_is_exact()
    ensures { UncountedIsExact }
{}

/// States that a ballot has 2^40 connections: before the last of them a node has a name left, and
/// an Open past it changes nothing.
pub fn an_open_past_the_last_changes_nothing()
    ensures past { OpensPastTheLast }
    ensures before { HasRoomBefore }
{}

/// States that a step of a node, also one in which memory ran out, reports each connection that
/// failed to the broker. So no node of a world that can be reached has one left: what the clauses
/// `quiet` ask for beside the item holds there.
pub fn a_step_leaves_no_failed_connection()
    ensures steps { StepsLeaveNoneFailed }
    ensures reached { ReachedHaveNoneFailed }
    ensures rests { ReachedRest }
{}
