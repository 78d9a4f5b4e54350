// A theorem about a broker's state. The function does nothing; its contract is the theorem.

ghost use Rattle.broker.specs.StandsFor.{BeginsEmpty, GoesOnStanding};
ghost use Rattle.broker.specs.StandsFor.{GoesOnFromFormOne, UsualIsWide};

/// States that after every list of commands the state, and the answers to each command, are those
/// that the list means with the first window. The first window is 64 in a new broker; one that was
/// thawed from form 1 continues with 16.
pub fn broker_stands_for()
    ensures fresh { BeginsEmpty }
    ensures more { GoesOnStanding }
    ensures before { GoesOnFromFormOne }
    ensures usual { UsualIsWide }
{}
