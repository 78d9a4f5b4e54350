// Theorems about the connections of a group: the contracts of functions with an empty body.

ghost use Rattle.headline.specs.node_group.Carried.{GroupsCarryInOrder};

/// States that, whatever the nodes of a group, its master and its clients do, the commands of a
/// connection in the agreed list are a prefix of the packets whose bytes arrived on it, in order.
/// The bytes sent on it are a prefix of the encoded answers of the broker to it (MQTT 4.6).
pub fn groups_carry_in_order()
    ensures { GroupsCarryInOrder }
{}
