// Theorems on the forms of lines. The calls do nothing; their contracts are the theorems.

ghost use Rattle.script.specs.Theorems.{NoScriptIsRefused, OneMeaningALine};

/// States that a line has one meaning at most.
pub fn one_meaning_a_line()
    ensures { OneMeaningALine }
{}

/// States that the lines of a script are refused only because memory ran out.
pub fn no_script_is_refused()
    ensures { NoScriptIsRefused }
{}
