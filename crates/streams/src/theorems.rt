// Theorems on taps and ports. The calls do nothing; their contracts are the theorems.

ghost use Rattle.streams.specs.Theorems.{PortsTellLanes, TapsCountAll};

/// States that a tap keeps its port, and counts all that was handed over by it, from its opening
/// on.
pub fn taps_count_all()
    ensures { TapsCountAll }
{}

/// States that two ports of lanes below 64 are of one lane exactly if the lanes are equal. So a
/// lane's connection never counts as idle because that of another lane is.
pub fn ports_tell_lanes()
    ensures { PortsTellLanes }
{}
