// Theorems about states and answers. The functions do nothing; their contracts are the theorems.

ghost use Rattle.cluster.specs.desk.FormTheorems.{FormIsRead, FormIsWritten};
ghost use Rattle.cluster.specs.desk.Runs.{ActiveBallotsRise, EachStartHasItsNumber};
ghost use Rattle.cluster.specs.desk.Runs.{NoBallotIsAssignedTwice, SupersededForGood};

/// States that the bytes of a sound state are read as that state, and that only its bytes are.
pub fn states_have_one_form()
    ensures read { FormIsRead }
    ensures written { FormIsWritten }
{}

/// States what holds of all answers of a cluster's desk, over any failed writes and any restarts
/// that read what may stand: no number and no ballot is given twice, and ballots become active in
/// rising order, one that was superseded never.
pub fn answers_stand_over_restarts()
    ensures numbers { EachStartHasItsNumber }
    ensures ballots { NoBallotIsAssignedTwice }
    ensures active { ActiveBallotsRise }
    ensures superseded { SupersededForGood }
{}
