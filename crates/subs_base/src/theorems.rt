// Theorems about the definitions. The functions do nothing; their contracts are the theorems.

ghost use Rattle.subs_base.specs.Theorems.{GrantsOneList};

/// States that the content of an index determines the granted rows, whatever the order of the calls
/// and the index type.
pub fn grants_one_list()
    ensures { GrantsOneList }
{}
