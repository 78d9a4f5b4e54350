// Theorems about hellos, keys and frames. The functions do nothing; their contracts are the
// theorems.

ghost use Rattle.links.specs.seal.Theorems.{EndsAreOfOneCluster, EndsHaveOneKey, FramesAreThoseSealed};
ghost use Rattle.links.specs.seal.Theorems.{HelloIsAccepted, HelloIsRead, HelloIsWritten};
ghost use Rattle.links.specs.seal.Theorems.{KeyInputsDiffer, TagInputsDiffer};

/// States that a hello that was written is read, and that only its bytes are read as this hello, by
/// an end that accepts it.
pub fn hellos_have_one_spelling()
    ensures read { HelloIsRead }
    ensures written { HelloIsWritten }
    ensures accepted { HelloIsAccepted }
{}

/// States that two ends that accept each other's hello are of one cluster, or that one of them is
/// its master and the other does not know its cluster yet.
pub fn ends_are_of_one_cluster()
    ensures { EndsAreOfOneCluster }
{}

/// States that one end seals with the key with which the other opens.
pub fn ends_have_one_key()
    ensures { EndsHaveOneKey }
{}

/// States that, after any sequence of calls, the bytes that a reader was fed are the frames that it
/// returned, each with the tag of its place, and what it has not taken.
pub fn frames_are_those_sealed()
    ensures { FramesAreThoseSealed }
{}

/// States that another frame, number, purpose or hello is another input of the hash. So a frame
/// that is accepted in place of another bears a tag that two inputs have.
pub fn inputs_are_told_apart()
    ensures tags { TagInputsDiffer }
    ensures keys { KeyInputsDiffer }
{}
