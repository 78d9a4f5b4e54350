// Theorems about worlds of clients and a group of nodes: the contracts of functions with an empty
// body.

ghost use Rattle.headline.specs.byte_world.Apart.{NamesStayApart};
ghost use Rattle.headline.specs.byte_world.Carried.{WorldsCarryInOrder};
ghost use Rattle.headline.specs.byte_world.NodeCalls.{NodeCallsCarryTheirBytes, GroupsDoEachNodeCall};
ghost use Rattle.headline.specs.byte_world.InPipes.{PipesCarryInOrder};

/// States that whatever happens in a world is a trace of its group. So each connection's commands
/// in the agreed list are a prefix of the packets whose bytes arrived on it, and the bytes sent on
/// it are a prefix of the encoded answers to it (MQTT 4.6).
pub fn worlds_carry_in_order()
    ensures { WorldsCarryInOrder }
{}

/// States that nodes of a group that have connections of the same name, at any times, are the same
/// node. A node that gives a name is the active primary of its ballot, and a ballot has only one.
pub fn names_stay_apart()
    ensures { NamesStayApart }
{}

/// States that on each connection, whatever happens, its commands in the list are a prefix of what
/// its client wrote. What its client handled, with the bytes in transit to it, is a prefix of the
/// encoded answers to it (MQTT 4.6).
pub fn pipes_carry_in_order()
    ensures { PipesCarryInOrder }
{}

/// States that each call of a node, in any state of the node, is a run of moves that carries
/// exactly the bytes of the call, in both directions. In it the replica first receives exactly what
/// was sent.
pub fn node_calls_carry_their_bytes()
    ensures { NodeCallsCarryTheirBytes }
{}

/// States that a node of any group can do each call, if the message that it takes was sent: a step
/// of the group carries exactly the call's bytes, and leaves the node as its own step does. So no
/// step that a world may need from its nodes is impossible.
pub fn groups_do_each_node_call()
    ensures { GroupsDoEachNodeCall }
{}
