// Theorems about the grammar of packets. The functions do nothing; their contracts are the
// theorems.

ghost use Rattle.packet.specs.Theorems.{
  HasOneSpelling,
  SpellingSpells,
  NoneBeginsAnother,
  FrontsAreUnfinished,
  FaultsStay,
};

/// States that each packet within the limit, its numbers in their ranges, has one spelling.
pub fn one_spelling()
    ensures { HasOneSpelling }
{}

/// States that `spelling` returns the bytes of a packet, for all fourteen packets.
pub fn spelling_spells()
    ensures { SpellingSpells }
{}

/// States that no spelling is a prefix of another one, so the boundaries in a sequence of packets
/// are determined.
pub fn no_spelling_begins_another()
    ensures { NoneBeginsAnother }
{}

/// States that a proper prefix of a spelling is no whole packet yet and has no fault.
pub fn fronts_are_unfinished()
    ensures { FrontsAreUnfinished }
{}

/// States that a fault is final: it stays the same whatever bytes follow.
pub fn faults_stay()
    ensures { FaultsStay }
{}
