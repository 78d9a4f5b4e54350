// The theorem about the number of messages: the contract of a function with an empty body.

ghost use Rattle.recovery.specs.replicas.Lengths.{RecoveriesAreShort};

/// States that a recovery delivers five messages, and four more for each member besides the
/// primary, and that two for each of these answer one command afterwards.
pub fn recoveries_are_short()
    ensures { RecoveriesAreShort }
{}
