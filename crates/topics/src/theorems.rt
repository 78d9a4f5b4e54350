// Theorems about the definitions. The functions do nothing; their contracts are the theorems.

ghost use Rattle.topics.specs.Theorems.{MatchesIsTested, BareMatchesItself};

/// States that the test `is_match` of the definitions is true exactly if a filter matches a topic.
pub fn matches_is_tested()
    ensures { MatchesIsTested }
{}

/// States that a filter without wildcards matches the topic of its own text, and no other.
pub fn bare_matches_itself()
    ensures { BareMatchesItself }
{}
