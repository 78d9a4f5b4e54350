// Theorems about the step, and worked examples: functions that do nothing, with these contracts.

ghost use Rattle.broker_base.specs.StepTheorems.{
  StepsEachSession,
  OthersStay,
  NoneBegins,
  FindsEachSession,
  DecidesAsThePast,
  StepStandsFor,
  ListStandsFor,
  UsualListStandsFor,
  GrowingListStandsFor,
};
ghost use Rattle.broker_base.specs.StateTheorems.{StaysSound, StaysFilled, StaysInWindow, ListsAreSound};
ghost use Rattle.broker_base.specs.StepRows.{StepsRefuseAndGoOn, StepsKeepTheOrder};
ghost use Rattle.broker_base.specs.StepRows.{StepsWidenTheWindow, OthersStartNothing};
ghost use Rattle.broker_base.specs.StepRows.{AnswersStartWhatWaits};

/// States that one more command, whatever its mark, changes each client's session as the step of
/// one session does.
pub fn session_step()
    ensures { StepsEachSession }
{}

/// States that a command does not change a session that it does not touch, and begins none except
/// that of the client of an accepted Connect.
pub fn others_stay()
    ensures stays { OthersStay }
    ensures none_begins { NoneBegins }
{}

/// States that the state of a past has each session under its client, and gives a command the mark
/// that the past gives it.
pub fn decisions_stand_for()
    ensures sessions { FindsEachSession }
    ensures marks { DecidesAsThePast }
{}

/// States that one step of the state of a past gives the state of the past with the command added,
/// and the answers to the command.
pub fn step_stands_for()
    ensures { StepStandsFor }
{}

/// States that a list of commands, taken step by step from the empty state, gives the state of the
/// list, and its answers.
pub fn list_stands_for()
    ensures every { ListStandsFor }
    ensures usual { UsualListStandsFor }
    ensures growing { GrowingListStandsFor }
{}

/// States that a step keeps the sessions ordered by the bytes of their clients and each connection
/// in at most one session. It keeps each session in its form: filters and identifiers distinct,
/// released entries first, a clean session connected. In the queue of each connected client nothing
/// waits or the window is full. No more entries are in flight than the window allows, if that does
/// not shrink.
pub fn states_stay_sound()
    ensures step { StaysSound }
    ensures filled { StaysFilled }
    ensures in_window { StaysInWindow }
    ensures lists { ListsAreSound }
{}

/// Shows, computed step by step, a full queue, the order of retransmission on a later connection,
/// and a window that grows.
pub fn rows_step_by_step()
    ensures full_queue { StepsRefuseAndGoOn }
    ensures order { StepsKeepTheOrder }
    ensures window { StepsWidenTheWindow }
{}

/// Shows that PUBACK and PUBCOMP start a waiting publication while nothing is in flight, a state
/// that only frozen bytes can have. PINGREQ, PUBREC, PUBREL and UNSUBSCRIBE do not start it.
pub fn entries_start_where_they_are_sent()
    ensures others { OthersStartNothing }
    ensures answers { AnswersStartWhatWaits }
{}
