// Theorems about the QoS 2 handshake of a sender and a receiver that reconnect (MQTT 4.3.3).

ghost use Rattle.exactly_once.specs.Exact.{RepeatsWereAccepted, RunsAreExact};

/// States that, however often the two sides reconnect, what is accepted is a prefix of what was
/// sent, in order and each once, and includes each item that is released (MQTT 4.3.3).
pub fn runs_are_exact<T>()
    ensures { RunsAreExact T }
{}

/// States that a PUBLISH with an identifier that the receiver knows carries the publication that it
/// accepted under it: so answering it again, and nothing else, loses nothing (MQTT 4.3.3).
pub fn repeats_were_accepted<T>()
    ensures { RepeatsWereAccepted T }
{}
