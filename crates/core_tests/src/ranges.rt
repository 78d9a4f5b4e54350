// Rows of the definitions. The call does nothing; its contract is the rows.

ghost use Rattle.core_tests.specs.Ranges.{MaxBallotIs};

/// Shows the last ballot that a master gives.
pub fn ranges_have_their_edges()
    ensures { MaxBallotIs }
{}
