// The theorems about worlds of clients and a group of nodes: the contracts of functions with an
// empty body.

ghost use Rattle.headline.specs.Exact.{WorldsAreExact};
ghost use Rattle.headline.specs.OneSession.{OneSessionIsPromised};

/// States that, whatever happens in a world of clients with identifiers of their own, pipes of
/// bytes and nodes, each client that is in step gets what is promised. By the list on which the
/// nodes agree, its QoS 2 publications are new there in the order of its calls, each at most once,
/// and once if it was answered. It accepts a prefix of what each of its sessions has at QoS 2, in
/// order, each once. An ended session gets nothing more (MQTT 4.3.3, 4.4, 4.6).
pub fn worlds_are_exact()
    ensures { WorldsAreExact }
{}

/// States that a client that has had one session is promised no less than if no session is ever
/// ended. Its QoS 2 publications are new in order, none is left out, it still keeps those that are
/// not new, and what it accepted is a prefix of its session's entries.
pub fn one_session_is_promised()
    ensures { OneSessionIsPromised }
{}
