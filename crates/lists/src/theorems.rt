// Theorems about the definitions on lists. The functions do nothing; their contracts are the
// theorems.

ghost use Rattle.lists.specs.Theorems.{IdentifiersStayApart, PrefixesJoin, PrefixesMeet};

/// States that of two prefixes of one list, one is a prefix of the other.
pub fn prefixes_meet<T>()
    ensures { PrefixesMeet T }
{}

/// States that a prefix of a prefix is a prefix.
pub fn prefixes_join<T>()
    ensures { PrefixesJoin T }
{}

/// States that an identifier that is not among distinct ones may be appended to them.
pub fn identifiers_stay_apart()
    ensures { IdentifiersStayApart }
{}
