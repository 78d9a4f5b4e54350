// Theorems about what does not happen: to sessions that have ended, and for publications that are
// not taken. The functions do nothing; their contracts are the theorems.

ghost use Rattle.broker_spec.specs.EndingTheorems.{NothingAfterTheEnd};
ghost use Rattle.broker_spec.specs.TakenTheorems.{EntersAsPublished, EntersWhereTaken};

/// States that a connection whose accepted Connect lies in a session is sent packets only at places
/// of that session. After the session's end nothing more is sent on it, unless a later connection
/// has its name (MQTT 3.1.2.4, 4.1).
pub fn nothing_after_the_end()
    ensures { NothingAfterTheEnd }
{}

/// States that no session has an entry from a place that takes no publication, such as a repeat or
/// a refused publication (MQTT 4.3.3).
pub fn enters_where_taken()
    ensures { EntersWhereTaken }
{}

/// States that, at the place where it is taken, a publication enters a session as it was published:
/// with its topic and payload, RETAIN 0, at the effective QoS. It enters once if that QoS is 1 or
/// 2, and not at all otherwise (MQTT 3.3.1.3, 3.3.5).
pub fn enters_as_published()
    ensures { EntersAsPublished }
{}
