// Theorems about the sessions of a world's clients: the contracts of functions with an empty body.

ghost use Rattle.headline.specs.byte_world.Kept.{NoConnectIsClean, NoSessionIsClean};

/// States that no Connect in the list on which the nodes agree asks for a clean session, whatever
/// happened: a client wrote it, and the clients of a world write no other (MQTT 3.1.2.4).
pub fn no_connect_is_clean()
    ensures { NoConnectIsClean }
{}

/// States that, if no Connect of a list asks for a clean session, no session that a client has
/// after any prefix of the list is clean (MQTT 3.1.2.4).
pub fn no_session_is_clean()
    ensures { NoSessionIsClean }
{}
