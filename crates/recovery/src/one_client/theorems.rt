// The theorem about a client at the end of a recovery: the contract of a function with an empty
// body.

ghost use Rattle.recovery.specs.one_client.Online.{ConnackServes};

/// States that a client that reads a CONNACK 0 with session present, as the first bytes on a
/// connection that it opened, is online afterwards, unless memory runs out (MQTT 3.2).
pub fn connack_serves()
    ensures { ConnackServes }
{}
